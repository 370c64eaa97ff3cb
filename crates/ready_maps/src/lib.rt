//! Which thread runs: the ready threads, preemption-threshold, and the laws of both.
//!
//! Threads are numbers with priorities and thresholds here; what a thread is, and why it is ready,
//! stands elsewhere. A move can't run out of memory.
#![tactic(auto)]

pub mod laws;
mod lists;
mod ready;
mod state;

pub use ready::Ready;
