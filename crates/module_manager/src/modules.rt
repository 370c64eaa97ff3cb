//! One module: what its image says, where it lies, and its state.
//!
//! These are plain values and what can be read of a state; no state is changed here.
ghost use Rattle.std.specs.Prelude.{◌≡◌};
ghost use Rattle.module_manager.specs.Modules.{module_state_number, may_start, fault_in};

use module_loader::Placed;
use module_preamble::Preamble;
use rv_core::Cause;
use tx_types::ThreadNo;

/// Why a module was halted: the thread that couldn't execute its instruction, the cause, and the
/// instruction's address.
#[derive(Clone, Copy, Debug, PartialEq, Eq)]
pub struct Fault {
    pub thread: ThreadNo,
    pub cause: Cause,
    pub pc: u32,
}

/// The state of a module.
#[derive(Clone, Copy, Debug, PartialEq, Eq)]
pub enum ModuleState {
    Loaded,
    Started,
    Stopped,
    Faulted(Fault),
}

/// A module: its preamble, its place and its state.
#[derive(Clone, Copy, Debug)]
pub struct Module {
    pub preamble: Preamble,
    pub placed: Placed,
    pub state: ModuleState,
}

impl ModuleState {
    /// Its number, 0 to 3.
    pub fn number(&self) -> u8
        ensures { result ≡ module_state_number self.now }
    {
        match self {
            ModuleState::Loaded => 0,
            ModuleState::Started => 1,
            ModuleState::Stopped => 2,
            ModuleState::Faulted(_) => 3,
        }
    }

    /// Whether a module in this state can be started.
    pub fn may_start(&self) -> bool
        ensures { result ≡ may_start self.now }
    {
        matches!(self, ModuleState::Loaded | ModuleState::Stopped)
    }

    /// The fault of a faulted module.
    pub fn fault(&self) -> Option<Fault>
        ensures { result ≡ fault_in self.now }
    {
        match self {
            ModuleState::Faulted(fault) => Some(*fault),
            _ => None,
        }
    }
}
