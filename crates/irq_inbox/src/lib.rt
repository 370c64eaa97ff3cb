//! The inbox of a board: devices raise words into it, and the one that takes them gets each
//! device's words in the order in which it raised them, whole and once.
//!
//! Who uses an inbox holds a pass, which says in contracts what was raised or taken with it. The
//! inbox knows nothing of what a word means, and nobody waits in it for a word to come.
#![tactic(auto)]

mod inbox;
mod pass;
mod rule;

pub use inbox::{Full, Inbox, Joined};
pub use pass::{CpuPass, DevPass};
