//! The text of a report, a line at a time.
//!
//! A line is made in a fixed room, so making one can't run out of memory, and no line of a
//! printable report is cut short. Nothing is written to a file or sink here.
#![tactic(auto)]

mod line_text;
mod parts;
mod report;
mod row_places;

pub use parts::{end_line, put_name, put_words};
pub use report::{lines, report_line};
