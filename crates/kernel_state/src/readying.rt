//! A thread becomes ready, or is ready no longer.
//!
//! The scheduler and the state of the thread change together; why they do isn't said here.
ghost use Rattle.std.specs.Prelude.{◌≡◌, true, false};
ghost use Rattle.ready_maps.specs.Sched.{is_ready};
ghost use Rattle.kernel_state.specs.Readying.{made_ready, made_unready};

use crate::kernel::Kernel;
use tx_types::{State, ThreadNo};

impl Kernel {
    /// A thread that isn't ready becomes so: its time slice is whole again.
    pub fn make_ready(&mut self, t: ThreadNo)
        requires absent { is_ready self.old.ready t ≡ false }
        ensures after { self.new ≡ made_ready self.old t }
        ensures levels { self.new.ready.levels ≡ self.old.ready.levels }
    {
        let thread = self.thread_mut(t);
        thread.state = State::Ready;
        thread.left = thread.slice;
        self.ready.ready(t);
    }

    /// A ready thread is ready no longer, and has another state.
    pub fn make_unready(&mut self, t: ThreadNo, state: State)
        requires ready { is_ready self.old.ready t ≡ true }
        ensures { self.new ≡ made_unready self.old t state }
    {
        self.thread_mut(t).state = state;
        self.ready.unready(t);
    }
}
