//! Histories of waits and of timers, worked by hand: `suspend_lists`, `soft_timers`.
//!
//! The tests stand above the two crates, which are proved once that way, and ask for public items
//! alone.
#![tactic(auto)]

#[cfg(test)]
mod timers;
#[cfg(test)]
mod waits;
