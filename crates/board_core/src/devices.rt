//! What is kept of devices: how often each was heard, and what came of it.
//!
//! These are plain values; what an action does to the kernel and to memory is elsewhere.
ghost use Rattle.std.specs.Prelude.{◌≡◌, ◌<◌, length, IfOk, replicate};
ghost use Rattle.tx_types.specs.Limits.{interrupt_limit};
ghost use Rattle.board_core.specs.Devices.{device_at, fresh_device, noted};

use board_values::DevNo;
use std::alloc::{AllocError, Global};
use std::marker::Model;
use tx_types::Code;

/// How many interrupts of a device were taken, and the status of its last action.
#[derive(Clone, Copy, Debug, PartialEq, Eq)]
pub struct Device {
    pub taken: u32,
    pub last: Code,
}

/// What is kept of each device, by number.
#[derive(Drop)]
pub struct Devices {
    rows: Vec<Device>,
}

impl Model for Devices {
    ghost use Rattle.std.specs.Prelude.{List};
    ghost use Rattle.board_core.specs.declared.devices.Device.{Device};

    ghost Value = { List Device };

    ghost view = { λ d. d.rows.items };
}

impl Devices {
    /// The given number of devices of which nothing was taken.
    pub(crate) fn new(alloc: Global, n: usize) -> Result<Devices, AllocError>
        ensures { IfOk result (λ ds. ds ≡ replicate n fresh_device) }
    {
        let fresh = Device {
            taken: 0,
            last: Code::SUCCESS,
        };
        let rows = vec![in alloc; fresh; n]?;
        Ok(Devices { rows })
    }

    /// How many devices there are.
    pub fn len(&self) -> usize
        ensures { result ≡ length self.now }
    {
        self.rows.len()
    }

    /// What is kept of a device.
    pub fn row(&self, d: DevNo) -> Device
        requires { d < length self.now }
        ensures { result ≡ device_at self.now d }
    {
        self.rows[d.number() as usize]
    }

    /// How many interrupts of a device were taken; none where there is no such device.
    pub fn taken(&self, d: DevNo) -> u32
        ensures { result ≡ (device_at self.now d).taken }
    {
        match self.rows.get(d.number() as usize) {
            Some(row) => row.taken,
            None => 0,
        }
    }

    /// One interrupt more was taken of a device, and its action had this status.
    pub(crate) fn note(&mut self, d: DevNo, status: Code)
        requires device { d < length self.old }
        requires room { (device_at self.old d).taken < interrupt_limit }
        ensures { self.new ≡ noted self.old d status }
    {
        let row = &mut self.rows[d.number() as usize];
        row.taken += 1;
        row.last = status;
    }
}
