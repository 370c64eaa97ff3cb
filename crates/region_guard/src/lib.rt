//! Guarded memory: RAM, and up to 64 regions that say which module may fetch, load and store where.
//!
//! All that modules and services do to memory goes through here. Regions are only added, and never
//! meet; a range of addresses may be used where it lies in one region that allows it.
#![tactic(auto)]

mod guard;
mod laws;
mod region;
mod regions;

pub use guard::{AddErr, Guard};
pub use laws::{
    a_store_is_its_low_bytes, a_write_changes_its_bytes_alone, what_may_be_used_is_in_ram,
};
pub use region::{Access, Region, Rights};

/// The address of the first byte of RAM.
pub const RAM_BASE: u32 = 0x8000_0000;

/// How many regions there can be.
pub const MOST_REGIONS: u8 = 64;
