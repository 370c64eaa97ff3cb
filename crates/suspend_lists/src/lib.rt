//! Who waits where, in what order and for what, with the number of each wait; and how many waits
//! began and ended.
//!
//! A place is a kernel object or the callback queue of a module; a sleeper waits at none. What happens
//! as a wait ends, and when it times out, stands elsewhere.
#![tactic(auto)]

mod laws;
mod thread_list;
mod wait;
mod waits;

pub use laws::{
    begun_is_pending_and_ended, calls_keep_the_table, each_thread_waits_once,
    no_number_is_given_twice, totals_count_the_ends, who_waits_at_a_place,
};
pub use wait::{Asks, On, Pending, Wait};
pub use waits::Waits;

/// How many places there are: 256 objects, and the callback queues of 16 modules.
pub const PLACES: usize = 272;

/// How many threads there are at most.
pub const THREADS: usize = 256;
