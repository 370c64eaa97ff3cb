//! Short histories of the table of object slots, worked by hand: `object_grants`.
//!
//! The tests stand above the crate, which is proved once that way, and ask for public items alone.
#![tactic(auto)]

#[cfg(test)]
mod slots;
