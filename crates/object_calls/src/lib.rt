//! The services on objects that hold something: message queues and counting semaphores. One public
//! function for each row of the table.
//!
//! A service tests its arguments from left to right, and then makes one change. Every one asks for a
//! kernel that serves and leaves one, can't run out of memory, and returns.
#![tactic(auto)]

mod instances;
pub mod laws;
mod messages;
mod objects;
mod queues;
mod receipts;
mod semaphores;
mod sends;
mod services;
mod waits;

pub use instances::put_object;
pub use messages::{queue_front_send, queue_receive, queue_send};
pub use objects::remove;
pub use queues::{queue_create, queue_delete, queue_flush, queue_info_get, queue_prioritize};
pub use semaphores::{
    semaphore_ceiling_put, semaphore_create, semaphore_delete, semaphore_get, semaphore_info_get,
    semaphore_prioritize, semaphore_put,
};
pub use sends::send_object;
pub use services::serve;
