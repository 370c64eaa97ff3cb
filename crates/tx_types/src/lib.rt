//! Plain values that every layer of the board shares.
//!
//! A type with a range never holds a value outside of it. What the services do with these values is
//! left to the crates above.
#![tactic(auto)]

mod code;
mod kind;
pub mod line;
mod message;
mod name;
mod no_memory;
mod numbers;
mod reference;
mod state;
mod waits;

pub use code::Code;
pub use kind::Kind;
pub use line::{Line, put_decimal, put_hex, put_hex_byte, put_long, put_small};
pub use message::Message;
pub use name::Name;
pub use no_memory::NoMemory;
pub use numbers::{ModNo, ObjNo, Prio, ThreadNo, Thresh};
pub use reference::ObjRef;
pub use state::State;
pub use waits::{End, Totals, WaitNo};

#[cfg(test)]
mod tests;
