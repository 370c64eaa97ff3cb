//! The kernel under its lock: the machine with the inbox that it takes from and the lane that it puts
//! into, as one value that belongs to a session.
//!
//! Each turn makes one event or none. What is popped is recorded in the same call, and each closed
//! entry goes into the lane in that call, too. Nothing here looks into the machine.
#![tactic(auto)]

mod laws;
mod lock;
mod record;
mod session;
mod turn;

pub use laws::words_are_those_of_interrupts;
pub use lock::{Core, KernelCell};
pub use session::Session;
pub use turn::Turn;
