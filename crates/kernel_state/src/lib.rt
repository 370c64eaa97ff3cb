//! The kernel's state, and what services answer.
//!
//! It has the object slots, the threads, the scheduler, where each module's threads begin, waits,
//! timeouts and the clock, with what has to hold of them together. What a service does is left to
//! other crates, and the memory of modules is no part of it.
#![tactic(auto)]

mod answer;
mod kernel;
pub mod laws;
mod naming;
mod object_report;
mod objects;
mod readying;
mod registers;
mod spot;
mod state;
mod thread;
mod thread_changes;
mod threads;
mod ticks;
mod waiting;

pub use answer::{Answer, Args};
pub use kernel::Kernel;
pub use object_report::thread_numbers;
pub use registers::{arguments, number_asked};
pub use spot::{Spot, Spots};
pub use state::{is_over, is_waiting};
pub use thread::{Thread, ThreadSpec};
pub use thread_changes::{end_thread, reset_thread, start_thread, suspend_thread};
pub use threads::Threads;
