//! How the wait of a thread begins, and how it ends.
//!
//! Whatever ends a wait comes through one function, which takes the same steps in the same order
//! each time. Who waits where is kept by the table of waits, and when time is up by the wheel.
ghost use Rattle.std.specs.Prelude.{◌≡◌, ◌≢◌, ◌↔◌, ◌<◌, ◌*◌, true, false, length, IsSome, IfSome, Some};
ghost use Rattle.region_guard.specs.Memory.{may};
ghost use Rattle.ready_maps.specs.Sched.{is_ready};
ghost use Rattle.soft_timers.specs.Timers.{IsRunning};
ghost use Rattle.suspend_lists.specs.Waits.{wait_of};
ghost use Rattle.kernel_state.specs.Contents.{IsAsked};
ghost use Rattle.kernel_state.specs.Kernel.{module_of};
ghost use Rattle.kernel_state.specs.Room.{HasRoom};
ghost use Rattle.kernel_state.specs.Sound.{IsSound};
ghost use Rattle.kernel_state.specs.Waiting.{state_of_ask, wanted_at, is_timed, result_of, with_result, answer_of, with_answer_to, left_wait, released, gone_on, suspended_at_last, wait_begun, wait_ended, MayHaveResult};

use crate::kernel::Kernel;
use crate::laws::{a_wait_keeps_sound, who_runs_is_a_thread};
use call_arguments::put_words;
use region_guard::{Access, Guard};
use soft_timers::{TimerId, Whose, each_has_a_tick_left};
use suspend_lists::{Asks, Wait};
use tx_types::{Code, End, Message, ModNo, State, ThreadNo};

/// By this number of ticks a wait that isn't a sleep goes on for ever (ThreadX User Guide,
/// TX_WAIT_FOREVER).
const WAIT_FOREVER: u32 = 0xFFFF_FFFF;

/// The state of a thread that waits, by what it asked for.
fn state_of_ask(asks: &Asks) -> State
    ensures { result ≡ state_of_ask asks.now }
{
    match asks {
        Asks::Sleep => State::Sleep,
        Asks::Receive { .. } | Asks::Send { .. } | Asks::Callback { .. } => State::QueueSusp,
        Asks::Instance => State::SemaphoreSusp,
        Asks::Own => State::MutexSusp,
        Asks::Flags { .. } => State::EventFlag,
        Asks::Bytes { .. } => State::ByteMemory,
        Asks::Block { .. } => State::BlockMemory,
    }
}

/// Where the caller wants what it asked for.
fn wanted_at(asks: &Asks) -> Option<u32>
    ensures { result ≡ wanted_at asks.now }
{
    match asks {
        Asks::Receive { to }
        | Asks::Flags { to, .. }
        | Asks::Bytes { to, .. }
        | Asks::Block { to }
        | Asks::Callback { to } => Some(*to),
        Asks::Sleep | Asks::Send { .. } | Asks::Instance | Asks::Own => None,
    }
}

/// Whether a wait ends by itself: a sleep does after every number of ticks.
fn is_timed(asks: &Asks, ticks: u32) -> bool
    ensures { result ≡ is_timed asks.now ticks }
{
    state_of_ask(asks) == State::Sleep || ticks != WAIT_FOREVER
}

/// Where the result goes of a wait that ends so.
fn result_of(wait: &Wait, e: End) -> Option<u32>
    ensures { result ≡ result_of (Some wait.now) e }
{
    match e {
        End::Satisfied => wanted_at(&wait.asks),
        End::TimedOut | End::Aborted | End::Deleted | End::Gone => None,
    }
}

/// What the call answers whose wait ends so; who is gone gets no answer.
fn answer_of(wait: &Wait, e: End) -> Option<Code>
    ensures { result ≡ answer_of (Some wait.now) e }
{
    match e {
        End::Satisfied => Some(Code::SUCCESS),
        End::TimedOut => Some(wait.code),
        End::Aborted => Some(Code::WAIT_ABORTED),
        End::Deleted => Some(Code::DELETED),
        End::Gone => None,
    }
}

/// Writes the result of a wait where its call asked.
fn put_result(g: &mut Guard, m: ModNo, to: Option<u32>, value: &Message)
    requires { IfSome to (λ x. may g.old m Access.Store x (4 * length value.now) ≡ true) }
    ensures { g.new ≡ with_result g.old to value.now }
{
    if let Some(x) = to {
        put_words(g, m, x, value.words());
    }
}

/// How many waits, armings and ticks there may have been before one more.
const COUNT_LIMIT: u64 = (1 << 63) - 1024;

impl Kernel {
    /// Whether there is room for more waits, armings and ticks, as there is on every board.
    pub fn has_room(&self) -> bool
        ensures { (result ≡ true) ↔ HasRoom self.now }
    {
        self.waits.totals().begun <= COUNT_LIMIT
            && self.wheel.armings() <= COUNT_LIMIT
            && self.wheel.ticks() <= COUNT_LIMIT
    }

    /// The running thread begins to wait, last at the place of its wait, and its timeout is armed:
    /// that of a sleep for every number of ticks, any other but for 0xFFFFFFFF.
    pub fn begin_wait(&mut self, t: ThreadNo, w: Wait, ticks: u32)
        requires sound { IsSound self.old }
        requires ready { is_ready self.old.ready t ≡ true }
        requires wait { IsAsked self.old.objects self.old.queues self.old.semas w }
        requires later { 0 < ticks }
        requires room { HasRoom self.old }
        ensures after { self.new ≡ wait_begun self.old t w ticks }
        ensures sound { IsSound self.new }
        ensures running { IsRunning self.old.wheel → IsRunning self.new.wheel }
    {
        a_wait_keeps_sound();
        who_runs_is_a_thread();
        each_has_a_tick_left();
        let timed = is_timed(&w.asks, ticks);
        self.make_unready(t, state_of_ask(&w.asks));
        self.waits.begin(t, w);
        let _ = self.waits.totals();
        if timed {
            self.wheel.arm(TimerId::of(Whose::Timeout(t)), ticks);
        }
    }

    /// The wait of a thread ends: it leaves its place, the result is written where its call asked,
    /// a0 is set, and the thread is ready, or suspended where that was held. One that is gone
    /// leaves its place, and nothing else happens to it here.
    pub fn end_wait(&mut self, g: &mut Guard, t: ThreadNo, e: End, value: &Message)
        requires sound { IsSound self.old }
        requires waits { IsSome (wait_of self.old.waits t) }
        requires result { MayHaveResult self.old g.old t e value.now }
        ensures kernel { self.new ≡ (wait_ended self.old g.old t e value.now).kernel }
        ensures memory { g.new ≡ (wait_ended self.old g.old t e value.now).memory }
        ensures sound { e ≢ End.Gone → IsSound self.new }
        ensures running { IsRunning self.old.wheel → IsRunning self.new.wheel }
    {
        a_wait_keeps_sound();
        each_has_a_tick_left();
        let wait = self.leave_wait(t, e);
        put_result(g, self.module_of(t), result_of(&wait, e), value);
        self.put_answer(t, answer_of(&wait, e));
        self.release(t, e);
    }

    /// A thread leaves its place, and its timeout is disarmed.
    fn leave_wait(&mut self, t: ThreadNo, e: End) -> Wait
        requires waits { IsSome (wait_of self.old.waits t) }
        ensures after { self.new ≡ left_wait self.old t e }
        ensures wait { wait_of self.old.waits t ≡ Some result }
    {
        self.wheel.disarm(TimerId::of(Whose::Timeout(t)));
        self.waits.end(t, e)
    }

    /// Sets the a0 of a thread whose wait ends.
    fn put_answer(&mut self, t: ThreadNo, answer: Option<Code>)
        ensures { self.new ≡ with_answer_to self.old t answer }
    {
        if let Some(code) = answer {
            self.hart_mut(t).set(10, u32::from(code.number()));
        }
    }

    /// A thread goes on after its wait, unless it is gone.
    fn release(&mut self, t: ThreadNo, e: End)
        requires absent { is_ready self.old.ready t ≡ false }
        ensures { self.new ≡ released self.old t e }
    {
        match e {
            End::Gone => {}
            End::Satisfied | End::TimedOut | End::Aborted | End::Deleted => self.go_on(t),
        }
    }

    /// A thread is suspended where that was held, and ready else.
    fn go_on(&mut self, t: ThreadNo)
        requires absent { is_ready self.old.ready t ≡ false }
        ensures { self.new ≡ gone_on self.old t }
    {
        if self.thread(t).held {
            self.suspend_at_last(t);
        } else {
            self.make_ready(t);
        }
    }

    /// A thread whose suspension was held is suspended.
    fn suspend_at_last(&mut self, t: ThreadNo)
        ensures { self.new ≡ suspended_at_last self.old t }
    {
        let thread = self.thread_mut(t);
        thread.state = State::Suspended;
        thread.held = false;
    }
}
