//! The machine: a board on which events are made, one after another.
//!
//! It makes the event that it is asked for; which event comes next is decided by its callers. It
//! opens no file, prints nothing, and starts no thread of the host.
#![tactic(auto)]

mod action;
mod boot;
mod bursts;
mod bus;
mod devices;
pub mod laws;
mod loading;
mod look;
mod machine;
mod parts;
mod placing;
mod replayer;
mod report_rows;
mod shows;
mod step;

pub use boot::BootErr;
pub use bursts::{BurstEnd, burst};
pub use bus::GuardBus;
pub use devices::{Device, Devices};
pub use machine::Machine;
pub use parts::Parts;
