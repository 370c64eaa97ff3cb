//! A tick of the clock: what is due has its turn, and the running thread uses up its time slice.
//!
//! What is due is listed as the tick is counted, and each has its turn only where it is still armed
//! by the same arming. A timer object does nothing yet at its turn.
ghost use Rattle.std.specs.Prelude.{◌≡◌, ◌<◌, length, HoldsAt, IsSome, Some};
ghost use Rattle.soft_timers.specs.Timers.{armed, still, IsRunning};
ghost use Rattle.kernel_state.specs.Kernel.{thread};
ghost use Rattle.kernel_state.specs.Room.{HasRoom};
ghost use Rattle.kernel_state.specs.Serves.{Serves};
ghost use Rattle.kernel_state.specs.Sound.{IsSound};
ghost use Rattle.kernel_state.specs.Ticks.{tick_counted, expired, turn, turns, has_slice, with_left, slice_used, runs, slice_treated, advanced};

use crate::kernel::Kernel;
use crate::laws::a_tick_keeps_serving;
use crate::thread::Thread;
use region_guard::Guard;
use soft_timers::{TimerId, Whose, calls_keep_the_wheel};
use tx_types::{End, Message, ThreadNo};

/// Whether a thread shares the processor by time slices.
fn has_slice(thread: &Thread) -> bool
    ensures { result ≡ has_slice thread.now }
{
    thread.slice > 0 && thread.threshold.number() == thread.priority.number()
}

impl Kernel {
    /// A tick comes: the clock is one higher, each timeout that is due has its turn, in order of
    /// arming, and then the time slice is treated of the thread that ran before, where it still
    /// runs.
    pub fn advance_clock(&mut self, g: &mut Guard)
        requires serves { Serves self.old g.old }
        requires room { HasRoom self.old }
        ensures kernel { self.new ≡ (advanced self.old g.old).kernel }
        ensures memory { g.new ≡ (advanced self.old g.old).memory }
        ensures serves { Serves self.new g.new }
    {
        a_tick_keeps_serving();
        calls_keep_the_wheel();
        let ran = self.running();
        self.count_tick();
        self.take_turns(g);
        self.due.clear();
        self.treat_slice(ran);
    }

    /// Counts a tick, and lists what is due.
    fn count_tick(&mut self)
        requires running { IsRunning self.old.wheel }
        requires room { HasRoom self.old }
        ensures { self.new ≡ tick_counted self.old }
    {
        self.clock = self.clock.wrapping_add(1);
        self.wheel.tick(&mut self.due);
    }

    /// Each that is due has its turn, in order of arming.
    fn take_turns(&mut self, g: &mut Guard)
        requires sound { IsSound self.old }
        ensures kernel { self.new ≡ (turns self.old.due self.old g.old).kernel }
        ensures memory { g.new ≡ (turns self.old.due self.old g.old).memory }
        ensures sound { IsSound self.new }
    {
        for i in 0..self.due.len() {
            self.take_turn(g, i);
        }
    }

    /// What is due has its turn, where it is still armed by the same arming.
    fn take_turn(&mut self, g: &mut Guard, i: u16)
        requires sound { IsSound self.old }
        requires inside { i < length self.old.due }
        ensures kernel { HoldsAt (λ d. self.new ≡ (turn self.old g.old d).kernel) self.old.due i }
        ensures memory { HoldsAt (λ d. g.new ≡ (turn self.old g.old d).memory) self.old.due i }
        ensures sound { IsSound self.new }
    {
        if self.is_still_armed(i) {
            let id = self.due_at(i);
            self.expire(g, id);
        }
    }

    /// Whether what was due is still armed by the same arming.
    fn is_still_armed(&self, i: u16) -> bool
        requires { i < length self.now.due }
        ensures { HoldsAt (λ d. result ≡ still self.now.wheel d) self.now.due i }
    {
        self.wheel.still(&self.due, i)
    }

    /// The number of what is due.
    fn due_at(&self, i: u16) -> TimerId
        requires { i < length self.now.due }
        ensures { HoldsAt (λ d. result ≡ d.id) self.now.due i }
    {
        self.due.id(i)
    }

    /// A timeout ends the wait of its thread.
    fn expire(&mut self, g: &mut Guard, id: TimerId)
        requires sound { IsSound self.old }
        requires armed { IsSome (armed self.old.wheel id) }
        ensures kernel { self.new ≡ (expired self.old g.old id).kernel }
        ensures memory { g.new ≡ (expired self.old g.old id).memory }
        ensures sound { IsSound self.new }
    {
        if let Whose::Timeout(t) = id.whose() {
            self.end_wait(g, t, End::TimedOut, &Message::empty());
        }
    }

    /// Treats the time slice of the thread that ran as a tick came.
    fn treat_slice(&mut self, ran: Option<ThreadNo>)
        requires sound { IsSound self.old }
        ensures { self.new ≡ slice_treated ran self.old }
    {
        if let Some(t) = ran {
            if self.running() == Some(t) && has_slice(self.thread(t)) {
                self.use_slice(t);
            }
        }
    }

    /// One tick less is left of a time slice; where none is, it is whole again, and the thread
    /// yields.
    fn use_slice(&mut self, t: ThreadNo)
        requires runs { self.old.ready.run ≡ Some t }
        requires some { 0 < (thread self.old t).left }
        ensures { self.new ≡ slice_used self.old t }
    {
        let thread = self.thread_mut(t);
        thread.left -= 1;
        if thread.left == 0 {
            thread.left = thread.slice;
            self.ready.yield_run();
        }
    }
}
