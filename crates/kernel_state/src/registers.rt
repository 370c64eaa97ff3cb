//! The registers of a call: what a thread asks for, and where it finds the answer.
//!
//! Which registers a0 to a7 are is said in `rv_core`.
ghost use Rattle.std.specs.Prelude.{◌≡◌};
ghost use Rattle.kernel_state.specs.Registers.{number_asked, arguments, with_a0};
ghost use Rattle.kernel_state.specs.Kernel.{thread};
ghost use Rattle.kernel_state.specs.Sound.{IsSound};

use crate::answer::Args;
use crate::kernel::Kernel;
use crate::laws::a_kernel_stays_sound;
use rv_core::Hart;
use rv_core::registers::{A0, A1, A2, A3, A4, A5, A6, A7};
use tx_types::ThreadNo;

/// The number of what is asked for, a7.
pub fn number_asked(hart: &Hart) -> u32
    ensures { result ≡ number_asked hart.now }
{
    hart.get(A7)
}

/// The arguments of a call, a0 to a6.
pub fn arguments(hart: &Hart) -> Args
    ensures { result ≡ arguments hart.now }
{
    [
        hart.get(A0),
        hart.get(A1),
        hart.get(A2),
        hart.get(A3),
        hart.get(A4),
        hart.get(A5),
        hart.get(A6),
    ]
}

impl Kernel {
    /// Sets a thread's a0.
    pub fn set_a0(&mut self, t: ThreadNo, value: u32)
        requires sound { IsSound self.old }
        ensures after { self.new ≡ with_a0 self.old t value }
        ensures sound { IsSound self.new }
    {
        a_kernel_stays_sound();
        self.hart_mut(t).set(A0, value);
    }
}
