//! The table of kernel object slots: references, owners, names and grants.
//!
//! There are 256 slots. A module names one by a reference, which holds the slot's generation, and a
//! slot that is allocated again has a higher one. What an object is apart from this stands elsewhere.
#![tactic(auto)]

mod laws;
mod objects;
mod slot;

pub use laws::{a_reference_dies_with_its_slot, calls_keep_the_table};
pub use objects::Objects;
pub use slot::{LAST_GENERATION, Slot, SlotState};

/// How many slots there are.
pub const SLOTS: u16 = 256;
