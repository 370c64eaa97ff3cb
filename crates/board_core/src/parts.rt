//! The parts of a board that its events change, as one value.
//!
//! Steps, starts and device actions are calls of it, so what one of them changes more is no concern of
//! the layers above.
use crate::devices::Devices;
use kernel_state::Kernel;
use module_manager::Manager;
use region_guard::Guard;

/// The kernel, the guarded memory, the modules, and what is kept of the devices.
#[derive(Drop)]
pub struct Parts {
    pub kernel: Kernel,
    pub memory: Guard,
    pub modules: Manager,
    pub devices: Devices,
}
