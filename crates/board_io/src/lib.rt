//! The outside as the command line sees it: files that are read, a sink that is written, a gate that
//! delays devices, and the status that a call ends with.
//!
//! These are traits, so that what is read and written can be held in memory and named in contracts.
//! Files and sinks count their faults, so a higher count shows that a call failed by the outside.
#![tactic(auto)]

mod files;
mod gate;
mod sink;
mod status;

pub use files::{Files, MemFiles, ReadErr};
pub use gate::{Gate, OpenGate};
pub use sink::{MemSink, Sink, SureSink, WriteErr};
pub use status::Status;
