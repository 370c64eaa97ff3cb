//! The command line: its words, what is due for them, what it reads and writes, and how it ends.
//!
//! Files and sinks are the traits of `board_io`, whose names are handed on here.
#![tactic(auto)]

mod alone;
mod boards;
mod booting;
mod check;
mod command;
mod ending;
mod hart;
mod images;
pub mod laws;
pub mod logs;
mod placing;
mod reading;
mod refusal;
mod replay;
mod still;

pub use board_io::{
    Files, Gate, MemFiles, MemSink, OpenGate, ReadErr, Sink, Status, SureSink, WriteErr,
};
pub use boards::{Loaded, load_board};
pub use booting::{Booted, boot, boot_board};
pub use command::{Command, command_of};
pub use ending::{end, end_stopped, end_written};
pub use images::Images;
pub use refusal::{Refusal, Stop};
pub use replay::write_report;
pub use still::{board_still, usage};
