//! Out of memory, where a call has no other error.
//!
//! It doesn't say what there was no memory for, nor how much was asked for.
use std::alloc::AllocError;

/// There is no memory for a value.
#[derive(Clone, Copy, Debug, PartialEq, Eq)]
pub struct NoMemory;

impl From<AllocError> for NoMemory {
    ghost use Rattle.std.specs.Prelude.{◌≡◌};

    ghost from_gives = { λ e r. r ≡ record {} };

    fn from(_error: AllocError) -> NoMemory {
        NoMemory
    }
}
