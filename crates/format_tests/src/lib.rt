//! Whole reports and whole preambles, tested: that the definitions of these formats are the stated ones.
//!
//! The tests stand above the crates that print and read them, which are proved once that way, and ask
//! for public items alone.
#![tactic(auto)]

#[cfg(test)]
mod preamble;
#[cfg(test)]
mod report;
