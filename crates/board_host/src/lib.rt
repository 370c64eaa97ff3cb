//! The host as the command line needs it: its files, its standard output, the words of the command
//! line, and what a call that failed says on standard error.
//!
//! What the host holds and takes is known nowhere. So what is proved of the adapters is that they are
//! safe, that exactly each fault is counted, and that they pass on the bytes of a reader or a writer
//! whose bytes are known.
#![tactic(auto)]

mod failure;
mod host_files;
mod host_out;
mod words;

pub use failure::{Failure, tell_end};
pub use host_files::{HostFiles, read_prefix};
pub use host_out::HostOut;
pub use words::words_of;
