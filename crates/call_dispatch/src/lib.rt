//! The way from a thread's ECALL to the service that it asks for.
//!
//! Register a7 has the number of the service, a0 to a6 its arguments, and a0 gets the answer. No other
//! register of the caller is written here.
#![tactic(auto)]

mod ecall;
pub mod laws;
mod services;

pub use ecall::dispatch;
