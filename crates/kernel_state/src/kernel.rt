//! The kernel's state as one value, and what every layer above reads of it.
//!
//! The tables are public fields, so a service says which of them it changes. `IsSound` is what every
//! service asks for and leaves.
ghost use Rattle.std.specs.Prelude.{◌≡◌, ◌≢◌, ◌≤◌, ◌<◌, ◌↔◌, [], None, true, false, All, IfOk};
ghost use Rattle.std.specs.Borrow.{sem};
ghost use Rattle.ready_maps.specs.Sched.{is_ready};
ghost use Rattle.object_grants.specs.Slot.{is_in, is_kind};
ghost use Rattle.object_grants.specs.Table.{slot};
ghost use Rattle.object_grants.specs.declared.slot.SlotState.TheVariants.{Free, Empty};
ghost use Rattle.kernel_state.specs.Kernel.{thread, is_thread, spot, with_spot, module_of, made_thread, placed, slot_emptied, removed_thread, blank_kernel, effective_priority, effective_threshold};
ghost use Rattle.kernel_state.specs.Lending.{LendsThread, LendsHart};
ghost use Rattle.kernel_state.specs.Sound.{IsSound, IsSpot};
ghost use Rattle.kernel_state.specs.Thread.{is_state};

use crate::laws::a_kernel_stays_sound;
use crate::spot::{Spot, Spots};
use crate::thread::{Thread, ThreadSpec};
use crate::threads::Threads;
use msg_queues::Queues;
use object_grants::{Objects, SlotState};
use ready_maps::Ready;
use rv_core::Hart;
use soft_timers::{Due, Wheel, calls_keep_the_wheel};
use std::alloc::Global;
use suspend_lists::{Waits, calls_keep_the_table};
use sync_objects::{Semas, calls_keep_the_counts};
use tx_types::{Kind, ModNo, Name, NoMemory, ObjNo, Prio, State, ThreadNo, Thresh};

/// How many priorities a new kernel has.
const PRIORITIES: u16 = 32;

/// The object slots, the threads, the scheduler, the spots of modules, the waits, the timeouts and
/// the clock that programs see. It has all memory that a service ever needs; `due` is room for what
/// is due at a tick, and empty but during one.
#[derive(Drop)]
pub struct Kernel {
    pub ready: Ready,
    pub objects: Objects,
    pub threads: Threads,
    pub spots: Spots,
    pub waits: Waits,
    pub queues: Queues,
    pub semas: Semas,
    pub wheel: Wheel,
    pub clock: u32,
    pub due: Due,
}

impl Kernel {
    /// No object, no thread, and no module's spot; nothing waits, and no tick came.
    pub fn new(alloc: Global) -> Result<Kernel, NoMemory>
        ensures blank { IfOk result (λ k. k ≡ blank_kernel) }
        ensures sound { IfOk result IsSound }
    {
        calls_keep_the_table();
        calls_keep_the_wheel();
        msg_queues::calls_keep_the_table();
        calls_keep_the_counts();
        let ready = Ready::new(alloc, PRIORITIES)?;
        let objects = Objects::new(alloc)?;
        let threads = Threads::new(alloc)?;
        let spots = Spots::new(alloc)?;
        let waits = Waits::new(alloc)?;
        let queues = Queues::new(alloc)?;
        let semas = Semas::new(alloc)?;
        let wheel = Wheel::new(alloc)?;
        let due = Due::new(alloc)?;
        Ok(Kernel {
            ready,
            objects,
            threads,
            spots,
            waits,
            queues,
            semas,
            wheel,
            clock: 0,
            due,
        })
    }

    /// A thread's entry.
    #[inline]
    pub fn thread(&self, t: ThreadNo) -> &Thread
        ensures { result.now ≡ thread self.now t }
    {
        self.threads.at(t)
    }

    /// A thread's entry, to be changed.
    #[inline]
    pub fn thread_mut(&mut self, t: ThreadNo) -> &mut Thread
        ensures* writes_back { sem 𝓛 (LendsThread self.entry t result) }
        ensures value { result.now ≡ thread self.old t }
    {
        self.threads.at_mut(t)
    }

    /// A thread's registers.
    #[inline]
    pub fn hart(&self, t: ThreadNo) -> &Hart
        ensures { result.now ≡ (thread self.now t).hart }
    {
        &self.thread(t).hart
    }

    /// A thread's registers, to be changed.
    #[inline]
    pub fn hart_mut(&mut self, t: ThreadNo) -> &mut Hart
        ensures* writes_back { sem 𝓛 (LendsHart self.entry t result) }
        ensures value { result.now ≡ (thread self.old t).hart }
    {
        let thread = self.thread_mut(t);
        &mut thread.hart
    }

    /// A thread's state.
    #[inline]
    pub fn state(&self, t: ThreadNo) -> State
        ensures { result ≡ (thread self.now t).state }
    {
        self.thread(t).state
    }

    /// A thread's module.
    #[inline]
    pub fn module_of(&self, t: ThreadNo) -> ModNo
        ensures { result ≡ module_of self.now t }
    {
        self.thread(t).module
    }

    /// The running thread; none exactly where no thread is ready.
    #[inline]
    pub fn running(&self) -> Option<ThreadNo>
        ensures value { result ≡ self.now.ready.run }
        ensures none { (result ≡ None) ↔ (self.now.ready.order ≡ []) }
    {
        self.ready.running()
    }

    /// Where a module's threads begin.
    pub fn spot(&self, m: ModNo) -> Spot
        ensures { result ≡ spot self.now m }
    {
        self.spots.at(m)
    }

    /// Sets where a module's threads begin.
    pub fn set_spot(&mut self, m: ModNo, now: Spot)
        ensures after { self.new ≡ with_spot self.old m now }
        ensures sound { IsSound self.old → IsSpot self.old m now → IsSound self.new }
    {
        let _ = &self.spots;
        self.spots.set(m, now);
    }

    /// A thread is made in a slot: suspended, with its numbers in the scheduler.
    pub fn make_thread(&mut self, t: ThreadNo, s: ThreadSpec)
        requires not_ready { is_ready self.old.ready t ≡ false }
        requires at_most { s.threshold ≤ s.priority }
        requires level { s.priority < self.old.ready.levels }
        ensures { self.new ≡ made_thread self.old t s }
    {
        self.threads.set(t, s.thread());
        self.ready.set_priority(t, s.priority, s.threshold);
    }

    /// A thread's object is created in an Empty slot of its module's own, suspended.
    pub fn place_thread(&mut self, o: ObjNo, name: Name, s: ThreadSpec)
        requires sound { IsSound self.old }
        requires empty { is_in Empty (slot self.old.objects o) ≡ true }
        requires kind { is_kind Kind.Thread (slot self.old.objects o) ≡ true }
        requires own { (slot self.old.objects o).owner ≡ s.module }
        requires name { All (λ b. b ≢ 0) name }
        requires at_most { s.threshold ≤ s.priority }
        requires level { s.priority < self.old.ready.levels }
        ensures after { self.new ≡ placed self.old o name s }
        ensures live { is_thread self.new o ≡ true }
        ensures levels { self.new.ready.levels ≡ self.old.ready.levels }
        ensures suspended { is_state (thread self.new o).state State.Suspended ≡ true }
        ensures sound { IsSound self.new }
    {
        a_kernel_stays_sound();
        self.objects.make_live(o, name);
        self.make_thread(o, s);
    }

    /// How many priorities there are.
    pub fn priorities(&self) -> u16
        ensures { result ≡ self.now.ready.levels }
    {
        self.ready.priorities()
    }

    /// The priority that a thread has in the scheduler.
    #[inline]
    #[tactic(auto, unfolding(crate::specs::Kernel::effective_priority))]
    pub fn effective_priority(&self, t: ThreadNo) -> Prio
        ensures { result ≡ effective_priority self.now t }
    {
        self.thread(t).priority
    }

    /// The threshold that a thread has in the scheduler: the user's, but never above its priority there.
    #[inline]
    #[tactic(auto, unfolding(crate::specs::Kernel::effective_threshold))]
    pub fn effective_threshold(&self, t: ThreadNo) -> Thresh
        ensures value { result ≡ effective_threshold self.now t }
        ensures at_most { result ≤ effective_priority self.now t }
    {
        let threshold = self.thread(t).threshold.number();
        Thresh::new(threshold.min(self.effective_priority(t).number()))
    }

    /// Whether a slot has a thread.
    #[inline]
    pub fn is_thread(&self, o: ObjNo) -> bool
        ensures { result ≡ is_thread self.now o }
    {
        let slot = self.objects.slot(o);
        slot.is_in(SlotState::Live) && slot.is_kind(Kind::Thread)
    }

    /// The slot of an object that ends is Empty, without grants and name.
    pub(crate) fn empty_slot(&mut self, o: ObjNo)
        requires { is_in Free (slot self.old.objects o) ≡ false }
        ensures { self.new ≡ slot_emptied self.old o }
    {
        self.objects.make_empty(o);
    }

    /// Removes a thread's object, which is no module's callback thread any more.
    pub fn remove_thread(&mut self, t: ThreadNo)
        requires { is_in Free (slot self.old.objects t) ≡ false }
        ensures { self.new ≡ removed_thread self.old t }
    {
        let m = self.module_of(t);
        let spot = self.spot(m);
        let callback = spot.callback.filter(|u| *u != t);
        self.set_spot(m, Spot { callback, ..spot });
        self.empty_slot(t);
    }
}
