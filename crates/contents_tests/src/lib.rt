//! Short histories of queues and semaphores, worked by hand: `msg_queues`, `sync_objects`.
//!
//! The tests stand above the two crates, which are proved once that way, and ask for public items
//! alone.
#![tactic(auto)]

#[cfg(test)]
mod queues;
#[cfg(test)]
mod semas;
