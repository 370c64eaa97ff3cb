//! `run`: a board live, with its devices on threads, the log as it happens and the report at the end.
//!
//! What was printed says by itself which run it was: a history, which `replay` plays to the same text.
//! Words of other commands are refused here as wrong words.
#![tactic(auto)]

mod apart;
mod finish;
mod give_up;
mod laws;
mod live;
mod session;

pub use laws::{a_run_is_read_out_of_its_text, a_run_is_replayed_from_its_log};
pub use live::board_live;
