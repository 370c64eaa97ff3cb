//! Inbox and lane, tested: what no clause of `irq_inbox` and `log_lane` says.
//!
//! The tests stand above the two crates, which are proved once that way, and ask for public items alone.
#![tactic(auto)]

#[cfg(test)]
mod inbox;
#[cfg(test)]
mod lane;
