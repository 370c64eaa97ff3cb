//! Words and single steps of a hart, tested against results worked by hand: `rv_decode` and `rv_core`.
//!
//! The tests stand above the two crates, which are proved once that way, and ask for public items alone.
#![tactic(auto)]

#[cfg(test)]
mod plain;
#[cfg(test)]
mod steps;
#[cfg(test)]
mod words;
