//! Where modules lie in memory, and how their threads begin.
//!
//! Each module wants memory for its code and for its data region; they take it from the free ranges,
//! first come, first served. Everything here is reckoned on addresses, and only `load` writes to RAM.
#![tactic(auto)]

mod image;
mod laws;
mod placement;
mod threads;
mod want;

pub use image::load;
pub use laws::what_is_placed_lies_apart;
pub use placement::{PlaceErr, Placed, Range, place};
pub use threads::opening;
pub use want::{Want, rounded_up, want_of};
