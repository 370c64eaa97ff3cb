//! The core under the kernel lock, tested: its devices raise between its turns, on one thread.
//!
//! The tests stand above `kernel_lock`, which is proved once that way, and ask for public items alone.
#![tactic(auto)]

#[cfg(test)]
mod bench;
#[cfg(test)]
mod moves;
#[cfg(test)]
mod parts;
