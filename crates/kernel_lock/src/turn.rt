//! What a turn of the machine was.
//!
//! The event itself is made by the machine.
use board_values::DevNo;

/// An interrupt of a device with a word was taken, or a step was made, or neither.
#[derive(Clone, Copy, Debug, PartialEq, Eq)]
pub enum Turn {
    Took(DevNo, u32),
    Stepped,
    Idle,
}
