//! The log: what happened on a board, as a history of steps and interrupts, and its exact text.
//!
//! A history is kept in memory that it has from the start, so recording can't run out of it. Each
//! history has one text, and each text is that of one history or has a first bad line. A history
//! can be made again, event by event, on whatever stands for a world.
#![tactic(auto)]

mod entry;
mod history;
mod laws;
mod plain;
mod reading;
mod replayer;

pub use entry::{Entry, entry_line};
pub use history::History;
pub use laws::{
    a_history_grows_by_one_event, a_history_grows_by_steps, a_history_stays_one,
    a_log_is_read_out_of_a_run, a_text_falls_into_its_lines, an_interrupt_closes_an_entry,
    an_interrupt_is_one_word_more, each_history_has_one_text,
};
pub use plain::PlainReplayer;
pub use reading::{LogErr, read_log};
pub use replayer::{Replayer, replay};

/// The most steps that a history may have.
pub const MOST_STEPS: u32 = 100_000_000;

/// The most interrupts that a history may have.
pub const MOST_IRQS: u32 = 65_536;
