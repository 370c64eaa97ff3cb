//! The lane: it carries the closed entries of a history from the kernel to the writer of the log,
//! in their order, each once.
//!
//! A lane is made for as many entries as will ever be put, so putting one is never refused. Its two
//! passes say in contracts what was put and what was got.
#![tactic(auto)]

mod lane;
mod pass;
mod rule;

pub use lane::Lane;
pub use pass::{GetPass, PutPass};
