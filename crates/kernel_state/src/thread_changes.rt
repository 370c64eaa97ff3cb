//! How the state of a thread changes: it is started, suspended, ended, or begins anew.
//!
//! A thread that ends leaves its wait without an answer. What else ends a wait stands elsewhere.
ghost use Rattle.std.specs.Prelude.{◌≡◌, ◌⊎◌, true, false};
ghost use Rattle.tx_types.specs.declared.state.State.TheVariants.{Suspended};
ghost use Rattle.ready_maps.specs.Sched.{is_ready};
ghost use Rattle.kernel_state.specs.Kernel.{thread, is_thread};
ghost use Rattle.kernel_state.specs.Serves.{Serves};
ghost use Rattle.kernel_state.specs.Sound.{IsSound};
ghost use Rattle.kernel_state.specs.Thread.{is_over, is_state};
ghost use Rattle.kernel_state.specs.ThreadChanges.{with_fresh, with_held, started, suspended, ended, gone, over_by, reset};

use crate::kernel::Kernel;
use crate::laws::a_change_of_state_keeps_serving;
use crate::state::{is_over, is_waiting};
use region_guard::Guard;
use tx_types::{End, Message, State, ThreadNo};

impl Kernel {
    /// A suspension is held until the end of a wait, or isn't any more.
    pub fn set_held(&mut self, t: ThreadNo, held: bool)
        ensures { self.new ≡ with_held self.old t held }
    {
        self.thread_mut(t).held = held;
    }

    /// A thread was never started since it was created or reset, or was.
    fn set_fresh(&mut self, t: ThreadNo, fresh: bool)
        ensures { self.new ≡ with_fresh self.old t fresh }
    {
        self.thread_mut(t).fresh = fresh;
    }
}

/// Starts a suspended thread: it is ready, and its time slice is whole again.
pub fn start_thread(k: &mut Kernel, g: &mut Guard, t: ThreadNo)
    requires serves { Serves k.old g.old }
    requires live { is_thread k.old t ≡ true }
    requires suspended { is_state (thread k.old t).state Suspended ≡ true }
    ensures kernel { k.new ≡ (started k.old g.old t).kernel }
    ensures memory { g.new ≡ (started k.old g.old t).memory }
    ensures levels { k.new.ready.levels ≡ k.old.ready.levels }
    ensures serves { Serves k.new g.new }
{
    a_change_of_state_keeps_serving();
    let _ = &g;
    k.set_fresh(t, false);
    k.make_ready(t);
}

/// Suspends a ready thread at once, and a waiting one at the end of its wait.
pub fn suspend_thread(k: &mut Kernel, g: &mut Guard, t: ThreadNo)
    requires serves { Serves k.old g.old }
    requires live { is_thread k.old t ≡ true }
    ensures kernel { k.new ≡ (suspended k.old g.old t).kernel }
    ensures memory { g.new ≡ (suspended k.old g.old t).memory }
    ensures serves { Serves k.new g.new }
{
    a_change_of_state_keeps_serving();
    let _ = &g;
    let state = k.state(t);
    if state == State::Ready {
        k.make_unready(t, State::Suspended);
    } else if is_waiting(state) {
        k.set_held(t, true);
    }
}

/// Ends a thread, by the state COMPLETED or TERMINATED; nothing changes where it is over already.
pub fn end_thread(k: &mut Kernel, g: &mut Guard, t: ThreadNo, state: State)
    requires serves { Serves k.old g.old }
    requires live { is_thread k.old t ≡ true }
    requires over { (state ≡ State.Completed) ⊎ (state ≡ State.Terminated) }
    ensures kernel { k.new ≡ (ended k.old g.old t state).kernel }
    ensures memory { g.new ≡ (ended k.old g.old t state).memory }
    ensures serves { Serves k.new g.new }
{
    a_change_of_state_keeps_serving();
    let _ = &g;
    end_its_wait(k, g, t);
    end_now(k, t, state);
}

/// Ends the wait of a thread that is to end, where it is in one.
fn end_its_wait(k: &mut Kernel, g: &mut Guard, t: ThreadNo)
    requires sound { IsSound k.old }
    requires live { is_thread k.old t ≡ true }
    ensures kernel { k.new ≡ (gone k.old g.old t).kernel }
    ensures memory { g.new ≡ (gone k.old g.old t).memory }
{
    if is_waiting(k.state(t)) {
        k.end_wait(g, t, End::Gone, &Message::empty());
    }
}

/// Ends a thread, unless it is over.
fn end_now(k: &mut Kernel, t: ThreadNo, state: State)
    ensures { k.new ≡ over_by k.old t state }
{
    if is_over(k.state(t)) {
        return;
    }
    let thread = k.thread_mut(t);
    thread.state = state;
    thread.held = false;
    if k.ready.is_ready(t) {
        k.ready.unready(t);
    }
}

/// Makes a thread that is over begin anew, as it was created.
pub fn reset_thread(k: &mut Kernel, g: &mut Guard, t: ThreadNo)
    requires serves { Serves k.old g.old }
    requires live { is_thread k.old t ≡ true }
    requires over { is_over (thread k.old t).state ≡ true }
    ensures kernel { k.new ≡ (reset k.old g.old t).kernel }
    ensures memory { g.new ≡ (reset k.old g.old t).memory }
    ensures serves { Serves k.new g.new }
{
    a_change_of_state_keeps_serving();
    let _ = &g;
    let thread = k.thread_mut(t);
    thread.hart = thread.opening;
    thread.state = State::Suspended;
    thread.left = thread.slice;
    thread.fresh = true;
}
