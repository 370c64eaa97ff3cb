//! Histories and logs, tested: what no clause of `event_log` says.
//!
//! The tests stand above that crate, which is proved once that way, and ask for public items alone.
#![tactic(auto)]

#[cfg(test)]
mod histories;
#[cfg(test)]
mod lines;
#[cfg(test)]
mod logs;
