//! The services on object slots and on threads: one public function for each row of the table.
//!
//! A service tests its arguments from left to right, and then makes one change. Every one asks for a
//! sound kernel and leaves one, can't run out of memory, and returns.
#![tactic(auto)]

mod create;
pub mod laws;
mod numbers;
mod objects;
mod resuming;
mod services;
mod threads;
mod waits;

pub use create::thread_create;
pub use numbers::{
    thread_info_get, thread_preemption_change, thread_priority_change, thread_time_slice_change,
};
pub use objects::{object_allocate, object_deallocate, object_pointer_get};
pub use resuming::resume_object;
pub use services::serve;
pub use threads::{
    thread_complete, thread_delete, thread_identify, thread_relinquish, thread_reset,
    thread_resume, thread_suspend, thread_terminate,
};
pub use waits::{thread_sleep, thread_wait_abort};
