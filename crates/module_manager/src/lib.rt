//! The life of modules: loaded, started, and halted as a thread of theirs faults.
//!
//! The manager has a row for each module: its preamble, its place and its state. A start makes the
//! module's threads in object slots; a halt ends them and all that the module has in the kernel, and
//! touches no memory. What a thread does in between is not seen here.
#![tactic(auto)]

mod halt;
pub mod laws;
mod manager;
mod modules;
mod start;

pub use manager::Manager;
pub use modules::{Fault, Module, ModuleState};
