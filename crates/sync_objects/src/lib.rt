//! The counts of semaphores.
//!
//! Who waits for an instance of a semaphore, and what a count may reach, stand elsewhere.
#![tactic(auto)]

mod laws;
mod semas;

pub use laws::{a_call_changes_its_count_alone, calls_keep_the_counts};
pub use semas::Semas;

/// How many objects there are at most, each of which may be a semaphore.
pub const OBJECTS: usize = 256;
