//! Which thread runs: ready threads by priority, and the holders that were preempted by threshold.
//!
//! Every move is made of steps on the state's lists, and the type keeps the facts of `IsKept` over
//! all of them.
ghost use Rattle.std.specs.Prelude.{◌≡◌, ◌%◌, ◌<◌, ◌≤◌, ◌↔◌, [], replicate, true, false, None, IfOk, IsSome};
ghost use Rattle.tx_types.specs.Limits.{priority_group, priority_limit};
ghost use Rattle.ready_maps.specs.Sched.{Sched, new_sched, pr, th, is_ready, is_held, first_at, after};
ghost use Rattle.ready_maps.specs.Moves.{readied, unreadied, yielded, threshold_set, priority_set, restored};
ghost use Rattle.ready_maps.specs.Kept.{IsKept};

use crate::state::State;
use std::alloc::Global;
use std::marker::Model;
use tx_types::{NoMemory, Prio, ThreadNo, Thresh};

/// The ready threads, the running one and the holders. It has the memory for all of them from the
/// start.
#[derive(Drop)]
pub struct Ready {
    state: State,
}

impl Model for Ready {
    ghost use Rattle.ready_maps.specs.Sched.{Sched};

    ghost Value = { Sched };

    ghost use Rattle.ready_maps.specs.Kept.{IsKept};

    ghost view = { λ r. r.state };

    ghost invariant = { λ r. IsKept r.state };
}

impl Ready {
    /// No thread is ready, and every priority and threshold is 0.
    pub fn new(alloc: Global, priorities: u16) -> Result<Ready, NoMemory>
        requires at_least { priority_group ≤ priorities }
        requires at_most { priorities ≤ priority_limit }
        requires groups { priorities % priority_group ≡ 0 }
        ensures blank { IfOk result (λ s. s ≡ new_sched priorities) }
        ensures kept { IfOk result IsKept }
    {
        Ok(Ready {
            state: State::new(alloc, priorities)?,
        })
    }

    /// Thread t becomes ready, after the ready threads of its priority. It runs where nothing does,
    /// or where its priority is below the running thread's threshold.
    pub fn ready(&mut self, t: ThreadNo)
        requires { is_ready self.old t ≡ false }
        ensures after { self.new ≡ readied self.old t }
        ensures kept { IsKept self.new }
    {
        self.state.ready(t);
    }

    /// Thread t is ready no longer.
    pub fn unready(&mut self, t: ThreadNo)
        requires { is_ready self.old t ≡ true }
        ensures after { self.new ≡ unreadied self.old t }
        ensures kept { IsKept self.new }
    {
        if self.state.runs(t) {
            self.state.take_out(t);
            self.state.pick();
        } else {
            self.state.take_out(t);
        }
    }

    /// The running thread goes after the ready threads of its priority (ThreadX User Guide,
    /// `tx_thread_relinquish`).
    pub fn yield_run(&mut self)
        requires { IsSome self.old.run }
        ensures after { self.new ≡ yielded self.old }
        ensures kept { IsKept self.new }
    {
        if let Some(r) = self.state.running() {
            self.state.requeue(r);
            self.state.pick();
        }
    }

    /// A new threshold of thread t (ThreadX User Guide, `tx_thread_preemption_change`).
    pub fn set_threshold(&mut self, t: ThreadNo, threshold: Thresh)
        requires { threshold ≤ pr self.old t }
        ensures after { self.new ≡ threshold_set self.old t threshold }
        ensures kept { IsKept self.new }
    {
        let runs = self.state.runs(t);
        self.state.set_threshold(t, threshold);
        if runs {
            self.state.give_way(t);
        } else {
            self.state.release(t);
        }
    }

    /// A new priority and threshold of thread t.
    pub fn set_priority(&mut self, t: ThreadNo, priority: Prio, threshold: Thresh)
        requires at_most { threshold ≤ priority }
        requires level { priority < self.old.levels }
        ensures after { self.new ≡ priority_set self.old t priority threshold }
        ensures kept { IsKept self.new }
    {
        if self.state.runs(t) {
            self.state.renumber(t, priority, threshold);
            self.state.place_again(t);
            self.state.pick();
        } else if self.state.is_ready(t) {
            self.state.renumber(t, priority, threshold);
            self.state.ready(t);
        } else {
            self.state.set_numbers(t, priority, threshold);
        }
    }

    /// The running thread; none exactly where nothing is ready.
    pub fn running(&self) -> Option<ThreadNo>
        ensures value { result ≡ self.now.run }
        ensures none { (result ≡ None) ↔ (self.now.order ≡ []) }
        ensures kept { IsKept self.now }
    {
        self.state.running()
    }

    /// Whether thread t is ready.
    pub fn is_ready(&self, t: ThreadNo) -> bool
        ensures { result ≡ is_ready self.now t }
    {
        self.state.is_ready(t)
    }

    /// The priority of thread t.
    pub fn priority(&self, t: ThreadNo) -> Prio
        ensures { result ≡ pr self.now t }
    {
        self.state.priority(t)
    }

    /// The threshold of thread t.
    pub fn threshold(&self, t: ThreadNo) -> Thresh
        ensures { result ≡ th self.now t }
    {
        self.state.threshold(t)
    }

    /// How many priorities there are.
    pub fn priorities(&self) -> u16
        ensures { result ≡ self.now.levels }
    {
        self.state.priorities()
    }

    /// The first ready thread of a priority.
    pub fn first_at(&self, priority: Prio) -> Option<ThreadNo>
        ensures { result ≡ first_at self.now priority }
    {
        self.state.first_at(priority)
    }

    /// The next ready thread of the same priority after thread t.
    pub fn after(&self, t: ThreadNo) -> Option<ThreadNo>
        ensures { result ≡ after self.now t }
    {
        self.state.after(t)
    }

    /// Whether thread t is a holder.
    pub fn is_held(&self, t: ThreadNo) -> bool
        ensures { result ≡ is_held self.now t }
    {
        self.state.is_held(t)
    }

    /// The ready threads by priority, and in their order within one: those that run or are held too.
    pub fn ready_list(&self, alloc: Global) -> Result<Vec<ThreadNo>, NoMemory>
        ensures { IfOk result (λ ts. ts.items ≡ self.now.order) }
    {
        self.state.ready_list(alloc)
    }

    /// The holders by priority.
    pub fn held_list(&self, alloc: Global) -> Result<Vec<ThreadNo>, NoMemory>
        ensures { IfOk result (λ ts. ts.items ≡ self.now.held) }
    {
        self.state.held_list(alloc)
    }

    /// Sets up which threads are ready, which of them runs, and the holders by priority.
    pub fn restore(&mut self, ready: &[ThreadNo], run: Option<ThreadNo>, held: &[ThreadNo])
        requires nothing_ready { self.old.order ≡ [] }
        requires kept { IsKept (restored self.old ready.now run held.now) }
        ensures after { self.new ≡ restored self.old ready.now run held.now }
        ensures kept { IsKept self.new }
    {
        self.state.restore(ready, run, held);
    }
}
