//! The scheduler's state as plain lists, and the steps that its moves are made of.
//!
//! Each step is the one of its name in the definitions, and can't run out of memory. What a step
//! needs to know of the state is in its `requires`; the facts that last are kept a layer above.
ghost use Rattle.std.specs.Prelude.{◌≡◌, ◌≢◌, ◌<◌, ◌≤◌, ◌==◌, [], All, length, replicate, slice_index, slice_set, slice_get, drop, false, None, Some, IfOk, IfSome};
ghost use Rattle.std.specs.List.{list_any};
ghost use Rattle.tx_types.specs.Limits.{slot_limit};
ghost use Rattle.ready_maps.specs.Sched.{Sched, new_sched, pr, th, is_ready, is_held, runs, first_at, after, best, pick, picked_before, without, first_in};
ghost use Rattle.ready_maps.specs.Moves.{readied, taken_out, placed_last, placed_first, holding, challenged, giving_way, released, with_threshold, with_numbers, placed_again, placed_all, restored};
ghost use Rattle.ready_maps.specs.Kept.{IsLaidOut, IsKept};

use crate::lists;
use std::alloc::Global;
use std::marker::Model;
use tx_types::{NoMemory, Prio, ThreadNo, Thresh};

/// The numbers of all threads, the ready ones, the running one and the holders.
#[derive(Drop)]
pub(crate) struct State {
    levels: u16,
    priority: Vec<Prio>,
    threshold: Vec<Thresh>,
    order: Vec<ThreadNo>,
    run: Option<ThreadNo>,
    held: Vec<ThreadNo>,
}

impl Model for State {
    ghost use Rattle.std.specs.Prelude.{◌≡◌, ◌≤◌, length, vec_capacity};
    ghost use Rattle.tx_types.specs.Limits.{slot_limit};
    ghost use Rattle.ready_maps.specs.Sched.{Sched};

    ghost Value = { Sched };

    ghost view = { λ r. record {
      levels = r.levels;
      priority = r.priority.items;
      threshold = r.threshold.items;
      order = r.order.items;
      run = r.run;
      held = r.held.items;
    } };

    ghost invariant = { λ r. (length r.priority.items ≡ slot_limit)
        × (length r.threshold.items ≡ slot_limit)
        × (slot_limit ≤ vec_capacity r.order) × (slot_limit ≤ vec_capacity r.held) };
}

impl State {
    /// No thread is ready, and every priority and threshold is 0.
    pub(crate) fn new(alloc: Global, levels: u16) -> Result<State, NoMemory>
        ensures { IfOk result (λ s. s ≡ new_sched levels) }
    {
        let priority = vec![in alloc; Prio::new(0); 256]?;
        let threshold = vec![in alloc; Thresh::new(0); 256]?;
        let order = Vec::with_capacity(alloc, 256)?;
        let held = Vec::with_capacity(alloc, 256)?;
        Ok(State {
            levels,
            priority,
            threshold,
            order,
            run: None,
            held,
        })
    }

    /// How many priorities there are.
    pub(crate) fn priorities(&self) -> u16
        ensures { result ≡ self.now.levels }
    {
        self.levels
    }

    /// The running thread.
    pub(crate) fn running(&self) -> Option<ThreadNo>
        ensures { result ≡ self.now.run }
    {
        self.run
    }

    /// The priority of thread t.
    pub(crate) fn priority(&self, t: ThreadNo) -> Prio
        ensures { result ≡ pr self.now t }
    {
        self.priority[t.place()]
    }

    /// The threshold of thread t.
    pub(crate) fn threshold(&self, t: ThreadNo) -> Thresh
        ensures { result ≡ th self.now t }
    {
        self.threshold[t.place()]
    }

    /// Whether thread t is ready.
    pub(crate) fn is_ready(&self, t: ThreadNo) -> bool
        ensures { result ≡ is_ready self.now t }
    {
        lists::has(&self.order, t)
    }

    /// Whether thread t is a holder.
    pub(crate) fn is_held(&self, t: ThreadNo) -> bool
        ensures { result ≡ is_held self.now t }
    {
        lists::has(&self.held, t)
    }

    /// Whether thread t runs.
    pub(crate) fn runs(&self, t: ThreadNo) -> bool
        ensures { result ≡ runs self.now t }
    {
        match self.run {
            Some(r) => r == t,
            None => false,
        }
    }

    /// The first ready thread of a priority.
    pub(crate) fn first_at(&self, priority: Prio) -> Option<ThreadNo>
        ensures { result ≡ first_at self.now priority }
    {
        lists::first_at(&self.order, &self.priority, priority)
    }

    /// The next ready thread of the same priority after thread t.
    pub(crate) fn after(&self, t: ThreadNo) -> Option<ThreadNo>
        ensures { result ≡ after self.now t }
    {
        let priority = self.priority(t);
        lists::first_after(&self.order, &self.priority, priority, t)
    }

    /// The most urgent ready thread.
    fn best(&self) -> Option<ThreadNo>
        ensures { result ≡ best self.now }
    {
        self.order.get(0).copied()
    }

    /// Takes thread t from the ready threads and the holders.
    pub(crate) fn take_out(&mut self, t: ThreadNo)
        ensures { self.new ≡ taken_out self.old t }
    {
        lists::take_out(&mut self.order, t);
        lists::take_out(&mut self.held, t);
    }

    /// Takes thread t from the ready threads alone.
    fn leave(&mut self, t: ThreadNo)
        ensures { self.new ≡ record self.old { order = without t self.old.order } }
    {
        lists::take_out(&mut self.order, t);
    }

    /// Thread t goes last of its priority.
    pub(crate) fn place_last(&mut self, t: ThreadNo)
        requires laid_out { IsLaidOut self.old }
        requires unready { All (λ u. u ≢ t) self.old.order }
        ensures { self.new ≡ placed_last self.old t }
    {
        lists::put_last(&mut self.order, &self.priority, t);
    }

    /// Thread t goes first of its priority.
    pub(crate) fn place_first(&mut self, t: ThreadNo)
        requires laid_out { IsLaidOut self.old }
        requires unready { All (λ u. u ≢ t) self.old.order }
        ensures { self.new ≡ placed_first self.old t }
    {
        lists::put_first(&mut self.order, &self.priority, t);
    }

    /// The ready thread r goes last of its priority.
    #[tactic(auto, using(crate::proofs::ListFacts::without_is_not))]
    pub(crate) fn requeue(&mut self, r: ThreadNo)
        requires { IsLaidOut (record self.old { order = without r self.old.order }) }
        ensures { self.new ≡ placed_last (record self.old { order = without r self.old.order }) r }
    {
        self.leave(r);
        self.place_last(r);
    }

    /// Thread t runs.
    pub(crate) fn start(&mut self, t: ThreadNo)
        ensures { self.new ≡ record self.old { run = Some t } }
    {
        self.run = Some(t);
    }

    /// No thread runs.
    fn stop(&mut self)
        ensures { self.new ≡ record self.old { run = None } }
    {
        self.run = None;
    }

    /// Thread t joins the holders, where its threshold is below its priority.
    pub(crate) fn hold(&mut self, t: ThreadNo)
        requires laid_out { IsLaidOut self.old }
        requires other { All (λ k. pr self.old k ≢ pr self.old t) self.old.held }
        ensures { self.new ≡ holding self.old t }
    {
        if self.threshold(t).number() < self.priority(t).number() {
            self.join(t);
        }
    }

    /// Thread t joins the holders.
    fn join(&mut self, t: ThreadNo)
        requires laid_out { IsLaidOut self.old }
        requires other { All (λ k. pr self.old k ≢ pr self.old t) self.old.held }
        ensures { self.new ≡ record self.old { held = first_in (pr self.old) t self.old.held } }
    {
        lists::put_first(&mut self.held, &self.priority, t);
    }

    /// Thread t runs in the place of thread r, where its priority is below that one's threshold.
    pub(crate) fn preempt(&mut self, r: ThreadNo, t: ThreadNo)
        requires laid_out { IsLaidOut self.old }
        requires below { All (λ k. pr self.old r < pr self.old k) self.old.held }
        ensures { self.new ≡ challenged self.old t (Some r) }
    {
        if self.priority(t).number() < self.threshold(r).number() {
            self.hold(r);
            self.start(t);
        }
    }

    /// Thread t runs where nothing does, or preempts the running thread.
    pub(crate) fn challenge(&mut self, t: ThreadNo)
        requires laid_out { IsLaidOut self.old }
        requires below { IfSome self.old.run
            (λ r. All (λ k. pr self.old r < pr self.old k) self.old.held) }
        ensures { self.new ≡ challenged self.old t self.old.run }
    {
        match self.running() {
            Some(r) => self.preempt(r, t),
            None => self.start(t),
        }
    }

    /// Thread t becomes ready.
    pub(crate) fn ready(&mut self, t: ThreadNo)
        requires kept { IsKept self.old }
        requires unready { is_ready self.old t ≡ false }
        ensures { self.new ≡ readied self.old t }
    {
        self.place_last(t);
        self.challenge(t);
    }

    /// The running thread t gives way to the best one.
    pub(crate) fn give_way(&mut self, t: ThreadNo)
        requires laid_out { IsLaidOut self.old }
        requires below { All (λ k. pr self.old t < pr self.old k) self.old.held }
        ensures { self.new ≡ giving_way self.old t (best self.old) }
    {
        if let Some(b) = self.best() {
            self.preempt(t, b);
        }
    }

    /// The first holder.
    fn first_held(&self) -> Option<ThreadNo>
        ensures { result ≡ slice_get self.now.held 0 }
    {
        self.held.get(0).copied()
    }

    /// The first holder k runs again and leaves the holders.
    fn resume(&mut self, k: ThreadNo)
        requires { slice_get self.old.held 0 ≡ Some k }
        ensures { self.new ≡ record self.old { run = Some k; held = drop 1 self.old.held } }
    {
        self.run = Some(k);
        lists::take_first(&mut self.held);
    }

    /// The first holder k runs again, or thread h, where it has a priority below that one's threshold.
    fn pick_of(&mut self, h: ThreadNo, k: ThreadNo)
        requires { slice_get self.old.held 0 ≡ Some k }
        ensures { self.new ≡ picked_before self.old h (Some k) }
    {
        if self.threshold(k).number() <= self.priority(h).number() {
            self.resume(k);
        } else {
            self.start(h);
        }
    }

    /// The first holder runs again, or the best thread h.
    fn pick_before(&mut self, h: ThreadNo)
        ensures { self.new ≡ picked_before self.old h (slice_get self.old.held 0) }
    {
        match self.first_held() {
            Some(k) => self.pick_of(h, k),
            None => self.start(h),
        }
    }

    /// The first holder runs again, or the best thread.
    pub(crate) fn pick(&mut self)
        ensures { self.new ≡ pick self.old }
    {
        match self.best() {
            Some(h) => self.pick_before(h),
            None => self.stop(),
        }
    }

    /// A threshold of thread t.
    pub(crate) fn set_threshold(&mut self, t: ThreadNo, threshold: Thresh)
        ensures { self.new ≡ with_threshold self.old t threshold }
    {
        self.threshold[t.place()] = threshold;
    }

    /// A priority and a threshold of thread t.
    pub(crate) fn set_numbers(&mut self, t: ThreadNo, priority: Prio, threshold: Thresh)
        ensures { self.new ≡ with_numbers self.old t priority threshold }
    {
        self.priority[t.place()] = priority;
        self.threshold[t.place()] = threshold;
    }

    /// Thread t is taken from the ready threads and the holders, and gets other numbers.
    pub(crate) fn renumber(&mut self, t: ThreadNo, priority: Prio, threshold: Thresh)
        ensures { self.new ≡ with_numbers (taken_out self.old t) t priority threshold }
    {
        self.take_out(t);
        self.set_numbers(t, priority, threshold);
    }

    /// Thread t leaves the holders.
    fn unhold(&mut self, t: ThreadNo)
        ensures { self.new ≡ record self.old { held = without t self.old.held } }
    {
        lists::take_out(&mut self.held, t);
    }

    /// Thread t leaves the holders, where its threshold is its priority.
    pub(crate) fn release(&mut self, t: ThreadNo)
        ensures { self.new ≡ released self.old t }
    {
        if self.threshold(t).number() == self.priority(t).number() {
            self.unhold(t);
        }
    }

    /// Whether a holder has the priority of thread t.
    fn is_after_holder(&self, t: ThreadNo) -> bool
        ensures { result ≡ list_any (λ k. pr self.now k == pr self.now t) self.now.held }
    {
        lists::has_priority(&self.held, &self.priority, self.priority(t))
    }

    /// Thread t goes first and is held, but after a holder of its priority it goes last.
    pub(crate) fn place_again(&mut self, t: ThreadNo)
        requires laid_out { IsLaidOut self.old }
        requires unready { All (λ u. u ≢ t) self.old.order }
        ensures { self.new ≡ placed_again self.old t }
    {
        if self.is_after_holder(t) {
            self.place_last(t);
        } else {
            self.place_first(t);
            self.hold(t);
        }
    }

    /// These threads go last of their priorities, one after another.
    fn place_all(&mut self, ready: &[ThreadNo])
        requires nothing_ready { self.old.order ≡ [] }
        requires room { length ready.now ≤ slot_limit }
        ensures { self.new ≡ placed_all self.old ready.now }
    {
        lists::put_all(&mut self.order, &self.priority, ready);
    }

    /// This thread runs, and these are the holders.
    fn set_run(&mut self, run: Option<ThreadNo>, held: &[ThreadNo])
        requires { length held.now ≤ slot_limit }
        ensures { self.new ≡ record self.old { run = run; held = held.now } }
    {
        self.run = run;
        lists::copy(&mut self.held, held);
    }

    /// The ready threads by priority, and in their order within one.
    pub(crate) fn ready_list(&self, alloc: Global) -> Result<Vec<ThreadNo>, NoMemory>
        ensures { IfOk result (λ ts. ts.items ≡ self.now.order) }
    {
        Ok(self.order.to_vec(alloc)?)
    }

    /// The holders by priority.
    pub(crate) fn held_list(&self, alloc: Global) -> Result<Vec<ThreadNo>, NoMemory>
        ensures { IfOk result (λ ts. ts.items ≡ self.now.held) }
    {
        Ok(self.held.to_vec(alloc)?)
    }

    /// Sets up which threads are ready, which of them runs, and the holders by priority.
    pub(crate) fn restore(&mut self, ready: &[ThreadNo], run: Option<ThreadNo>, held: &[ThreadNo])
        requires nothing_ready { self.old.order ≡ [] }
        requires kept { IsKept (restored self.old ready.now run held.now) }
        ensures { self.new ≡ restored self.old ready.now run held.now }
    {
        self.place_all(ready);
        self.set_run(run, held);
    }
}
