//! Why a board isn't read.
//!
//! A failed allocation becomes `NoMemory`, and never a wrong field. The line that is printed of a
//! refusal is made by the command line (`board_run`).
use crate::text::Path;
use std::alloc::{AllocError, AllocFailed};

/// Why a board isn't read: memory, bytes that are no TOML, or the path of the first wrong field.
#[derive(Debug, Drop)]
pub enum BoardErr {
    NoMemory,
    NotToml,
    Field(Path),
}

impl From<AllocError> for BoardErr {
    ghost use Rattle.std.specs.Prelude.{◌≡◌};
    ghost use Rattle.board_file.specs.declared.refusal.BoardErr.TheVariants.{NoMemory};

    ghost from_gives = { λ _ r. r ≡ NoMemory };

    fn from(_: AllocError) -> BoardErr {
        BoardErr::NoMemory
    }
}

impl<T: Drop> From<AllocFailed<T>> for BoardErr {
    ghost use Rattle.std.specs.Prelude.{◌≡◌};
    ghost use Rattle.board_file.specs.declared.refusal.BoardErr.TheVariants.{NoMemory};

    ghost from_gives = { λ _ r. r ≡ NoMemory };

    fn from(_: AllocFailed<T>) -> BoardErr {
        BoardErr::NoMemory
    }
}
