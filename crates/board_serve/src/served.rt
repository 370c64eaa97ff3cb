//! How a board was served.
//!
//! Where a device was started, the passes of all devices come back, whatever failed afterwards.
use irq_inbox::DevPass;

/// All steps were made and all words were written, or a write failed; with both, the passes of all
/// devices come back. Or memory ran out before anything was started or written.
#[derive(Drop)]
pub enum Served {
    Done(Vec<DevPass>),
    WriteFault(Vec<DevPass>),
    NoMemory,
}
