//! How all waits for an object end, how an object is removed, and who of its waiters goes first.
//!
//! What a thread has besides its slot ends elsewhere: nobody waits for a thread, and its removal is not
//! this one.
ghost use Rattle.std.specs.Prelude.{◌≡◌, ◌≢◌, true, false, All, nat_lt, if◌then◌else◌};
ghost use Rattle.object_grants.specs.Slot.{is_in};
ghost use Rattle.object_grants.specs.Table.{slot};
ghost use Rattle.object_grants.specs.declared.slot.SlotState.TheVariants.{Live};
ghost use Rattle.region_guard.specs.Memory.{Memory};
ghost use Rattle.kernel_state.specs.Kernel.{effective_priority, is_thread};
ghost use Rattle.kernel_state.specs.ObjectLaws.{HasNoResult};
ghost use Rattle.kernel_state.specs.Objects.{all_ended, most_urgent, prioritized, removed, waiters_of};
ghost use Rattle.kernel_state.specs.Serves.{Serves};
ghost use Rattle.kernel_state.specs.Sound.{IsSound};

use crate::kernel::Kernel;
use crate::laws::{
    a_removal_keeps_serving, a_wait_keeps_serving, a_wait_keeps_sound, all_ends_end_waits_alone,
};
use region_guard::Guard;
use suspend_lists::{On, who_waits_at_a_place};
use tx_types::{End, Message, ObjNo, ThreadNo};

impl Kernel {
    /// All waits for an object end in the same way, in order. None of them has a result.
    pub fn end_all(&mut self, g: &mut Guard, o: ObjNo, e: End)
        requires serves { Serves self.old g.old }
        requires stays { e ≢ End.Gone }
        requires nothing { All (HasNoResult self.old e) (waiters_of self.old o) }
        ensures kernel { self.new ≡ (all_ended e (waiters_of self.old o) self.old g.old).kernel }
        ensures memory { g.new ≡ (all_ended e (waiters_of self.old o) self.old g.old).memory }
        ensures serves { Serves self.new g.new }
    {
        a_wait_keeps_sound();
        a_wait_keeps_serving();
        who_waits_at_a_place();
        let none = Message::empty();
        while let Some(t) = self.waits.first(On::Object(o)) {
            self.end_wait(g, t, e, &none);
        }
    }

    /// Removes an object that is no thread: the waits for it end as Deleted, in order, what is in it
    /// is gone, its grants and its name end, and its slot is Empty.
    #[tactic(auto, unfolding(crate::specs::Objects::removed))]
    pub fn remove_object(&mut self, g: &mut Guard, o: ObjNo)
        requires serves { Serves self.old g.old }
        requires live { is_in Live (slot self.old.objects o) ≡ true }
        requires no_thread { is_thread self.old o ≡ false }
        ensures kernel { self.new ≡ (removed self.old g.old o).kernel }
        ensures memory { g.new ≡ (removed self.old g.old o).memory }
        ensures serves { Serves self.new g.new }
    {
        a_removal_keeps_serving();
        all_ends_end_waits_alone();
        self.end_all(g, o, End::Deleted);
        self.queues.remove(o);
        self.semas.remove(o);
        self.empty_slot(o);
    }

    /// The most urgent waiter of an object goes first, the first of equals, and the others stay in
    /// order.
    #[tactic(auto, unfolding(crate::specs::Objects::prioritized))]
    pub fn prioritize(&mut self, o: ObjNo)
        requires sound { IsSound self.old }
        ensures after { self.new ≡ prioritized self.old o }
        ensures serves { (g : Memory) → Serves self.old g → Serves self.new g }
    {
        a_wait_keeps_serving();
        who_waits_at_a_place();
        if let Some(t) = self.most_urgent(o) {
            self.waits.to_front(t);
        }
    }

    /// The waiter of an object of the least effective priority, the first of equals.
    fn most_urgent(&self, o: ObjNo) -> Option<ThreadNo>
        requires sound { IsSound self.now }
        ensures { result ≡ most_urgent self.now (waiters_of self.now o) }
    {
        who_waits_at_a_place();
        let mut best = self.waits.first(On::Object(o))?;
        let mut next = self.waits.after(best);
        while let Some(t) = next {
            best = self.more_urgent(best, t);
            next = self.waits.after(t);
        }
        Some(best)
    }

    /// The more urgent of two threads, by their effective priorities, and the first of equals.
    fn more_urgent(&self, t: ThreadNo, u: ThreadNo) -> ThreadNo
        ensures { result ≡ (if nat_lt (effective_priority self.now u)
            (effective_priority self.now t) then u else t) }
    {
        if self.effective_priority(u).number() < self.effective_priority(t).number() {
            u
        } else {
            t
        }
    }
}
