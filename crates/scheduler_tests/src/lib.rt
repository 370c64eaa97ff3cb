//! Sequences of moves of the scheduler, tested against who runs and who is held by hand: `ready_maps`.
//!
//! The tests stand above the crate, which is proved once that way, and ask for public items alone.
#![tactic(auto)]

#[cfg(test)]
mod moves;
