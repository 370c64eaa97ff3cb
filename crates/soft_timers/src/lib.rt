//! Which timeouts and timers are armed, and which of them are due at a tick.
//!
//! What happens at the turn of one that is due, and the clock that programs see, stand elsewhere.
#![tactic(auto)]

mod due;
mod id;
mod laws;
mod wheel;

pub use due::{Armed, Due};
pub use id::{TimerId, Whose};
pub use laws::{
    a_call_changes_its_own_alone, an_arming_is_over_once, calls_keep_the_wheel,
    each_has_a_tick_left,
};
pub use wheel::Wheel;

/// How many timeouts and timers there are: one for each thread, and one for each timer object.
pub const TIMERS: u16 = 512;
