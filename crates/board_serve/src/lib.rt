//! Devices on threads of their own, and the loop that takes their words and writes the log.
//!
//! The caller alone takes the kernel's lock and writes to the sink; a device's thread raises words
//! into the inbox and holds nothing of the kernel.
#![tactic(auto)]

mod device;
mod devices;
mod drive;
mod run;
mod served;
mod writer;

pub use run::serve;
pub use served::Served;
