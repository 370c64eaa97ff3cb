//! Board files, tested: that the definitions of their format are the stated ones.
//!
//! The tests stand above the crate that reads board files, which is proved once that way, and ask
//! for public items alone.
#![tactic(auto)]

#[cfg(test)]
mod boards;
