//! Calls, tested: what no clause of `board_run` and of the crates below it says.
//!
//! The tests stand above these crates, which are proved once that way, and ask for public items alone.
//! Each test is a list of tables that one helper plays. Whole boards, and calls in which nothing fails,
//! are played by `tests/cli.sh`.
#![tactic(auto)]

#[cfg(test)]
mod calls;
#[cfg(test)]
mod files;
#[cfg(test)]
mod refusals;
#[cfg(test)]
mod sinks;
