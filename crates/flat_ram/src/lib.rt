//! RAM: bytes by offset, the numbers that stand in them, and parts that are lent to be written.
//!
//! Every call has the condition that its range lies inside; it reads or changes that range alone.
#![tactic(auto)]

mod laws;
mod ram;

pub use laws::{a_number_lies_lowest_byte_first, a_write_changes_its_range_alone};
pub use ram::{NoMemory, Ram};
