//! The arguments of a service and its answer.
//!
//! These are plain values. A service answers; the caller's a0 is written by `call_dispatch`.
use tx_types::Code;

/// The registers a0 to a6 of the caller.
pub type Args = [u32; 7];

/// What a service answers: a status or a value for a0, that the caller waits, or that it has ended
/// and gets no a0.
#[derive(Clone, Copy, Debug, PartialEq, Eq)]
pub enum Answer {
    Code(Code),
    Value(u32),
    Waits,
    Ended,
}
