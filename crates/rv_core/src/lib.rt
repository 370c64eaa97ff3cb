//! One RV32 hart: its registers, the bus that it fetches from, and the step of one instruction.
//!
//! A hart has x0 to x31 and pc, and no CSRs, privileged modes or memory of its own: it fetches,
//! loads and stores through its bus. What an ECALL asks for is answered elsewhere.
#![tactic(auto)]

mod arithmetic;
mod bus;
mod execute;
mod hart;
mod operation;
pub mod registers;

pub use bus::{Bus, Cause};
pub use execute::{Out, step};
pub use hart::Hart;
