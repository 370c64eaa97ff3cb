//! What may delay a device before it raises a word, so that a test has a say in the order of
//! interrupts.
//!
//! It is given the number of the device and of its word, and answers nothing: it can delay a word,
//! but not change or drop it.
use board_values::DevNo;

/// What is asked before each word of a device.
pub trait Gate {
    /// Called by a thread of device `d` before it raises its word `k`, counted from 0. It may delay, and
    /// answers nothing.
    fn pause(&self, d: DevNo, k: u32);
}

/// A gate that never delays.
#[derive(Clone, Copy, Debug, PartialEq, Eq)]
pub struct OpenGate;

impl Gate for OpenGate {
    fn pause(&self, _d: DevNo, _k: u32) {}
}
