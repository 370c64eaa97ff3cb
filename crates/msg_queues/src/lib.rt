//! The messages of queues, in order.
//!
//! A queue has messages of one size and room for so many of them, both given as it is made. Who
//! waits for a message or for room, and the memory that a module names for a queue, stand elsewhere.
#![tactic(auto)]

mod entry;
mod laws;
mod queues;

pub use laws::{
    a_call_changes_its_queue_alone, calls_keep_the_table, first_sent_is_first_received,
    what_a_call_leaves_of_its_queue,
};
pub use queues::Queues;

/// How many objects there are at most, each of which may be a queue.
pub const OBJECTS: usize = 256;

/// How many messages a queue holds at most: 4,096 bytes, in messages of one word.
pub const MESSAGES: usize = 1_024;
