//! Boards that are run live, with threads: what no clause of `board_live` says.
//!
//! That a call ends, that devices run beside the caller's loop and beside one another, that the log of a
//! run is replayed to the bytes that it printed, and where a log stops after a failed write. The tests
//! ask for public items alone.
#![tactic(auto)]

#[cfg(test)]
mod failing;
#[cfg(test)]
mod gated;
#[cfg(test)]
mod marks;
#[cfg(test)]
mod runs;
