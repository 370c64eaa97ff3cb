//! What a report says of an object that isn't a thread.
//!
//! The kernel is read and never changed. The three numbers of an object are 0 where no service of its
//! kind is built yet.
ghost use Rattle.std.specs.Prelude.{◌≡◌, ◌<◌, ◌≤◌, ◌++◌, ◌∷◌, [], All, IfOk, IfSome, OnOk, length};
ghost use Rattle.object_grants.specs.Table.{slot};
ghost use Rattle.tx_types.specs.Limits.{slot_limit};
ghost use Rattle.kernel_state.specs.ObjectReport.{first_number, has_object, object_row, row_of_object, second_number, third_number};

use crate::Kernel;
use board_values::{Nums, ObjectRow, Rows};
use object_grants::{Slot, SlotState};
use std::alloc::{AllocError, Global};
use suspend_lists::On;
use tx_types::{Kind, NoMemory, ObjNo, ThreadNo};

/// One number more.
fn put(ns: &mut Vec<u16>, n: u16) -> Result<(), AllocError>
    ensures { OnOk result (ns.new.items ≡ ns.old.items ++ n ∷ []) }
{
    Ok(ns.push(n)?)
}

/// The numbers of threads.
pub fn thread_numbers(alloc: Global, threads: &[ThreadNo]) -> Result<Nums, NoMemory>
    ensures same { IfOk result (λ ns. ns ≡ threads.now) }
    ensures small { IfOk result (All (λ n. n < slot_limit)) }
{
    let mut ns = Vec::new(alloc);
    for t in threads {
        put(&mut ns, t.number())?;
    }
    Ok(Rows::new(ns))
}

/// Whether a slot has an object of another kind than a thread.
fn has_object(slot: &Slot) -> bool
    ensures { result ≡ has_object slot.now }
{
    slot.is_in(SlotState::Live) && !slot.is_kind(Kind::Thread)
}

impl Kernel {
    /// The row of a report on the object of a slot. None exactly where the slot has no object, or a
    /// thread.
    #[tactic(auto, unfolding(crate::specs::ObjectReport::object_row))]
    pub fn object_row(&self, alloc: Global, o: ObjNo) -> Result<Option<ObjectRow>, NoMemory>
        ensures row { IfOk result (λ row. row ≡ object_row self.now o) }
        ensures few { IfOk result (λ row. IfSome row (λ r. length r.waits ≤ slot_limit)) }
        ensures small { IfOk result (λ row. IfSome row (λ r. All (λ n. n < slot_limit) r.waits)) }
    {
        if has_object(self.objects.slot(o)) {
            Ok(Some(self.row_of_object(alloc, o)?))
        } else {
            Ok(None)
        }
    }

    /// The first number of an object: how many messages are in a queue, the count of a semaphore.
    fn first_number(&self, o: ObjNo) -> u32
        ensures { result ≡ first_number self.now o (slot self.now.objects o).kind }
    {
        match self.objects.slot(o).kind {
            Some(Kind::Queue) => self.queues.len(o),
            Some(Kind::Semaphore) => self.semas.get(o),
            _ => 0,
        }
    }

    /// The second number of an object: how many messages more a queue has room for.
    fn second_number(&self, o: ObjNo) -> u32
        ensures { result ≡ second_number self.now o (slot self.now.objects o).kind }
    {
        match self.objects.slot(o).kind {
            Some(Kind::Queue) => self.queues.room(o),
            _ => 0,
        }
    }

    /// The third number of an object: the words of a message of a queue.
    fn third_number(&self, o: ObjNo) -> u32
        ensures { result ≡ third_number self.now o (slot self.now.objects o).kind }
    {
        match self.objects.slot(o).kind {
            Some(Kind::Queue) => self.queues.words(o),
            _ => 0,
        }
    }

    /// The row of the object of a slot.
    fn row_of_object(&self, alloc: Global, o: ObjNo) -> Result<ObjectRow, NoMemory>
        ensures row { IfOk result (λ row. row ≡ row_of_object self.now o) }
        ensures few { IfOk result (λ row. length row.waits ≤ slot_limit) }
        ensures small { IfOk result (λ row. All (λ n. n < slot_limit) row.waits) }
    {
        let slot = self.objects.slot(o);
        let waiters = self.waits.waiters(alloc, On::Object(o))?;
        Ok(ObjectRow {
            object: o.number(),
            module: slot.owner.number(),
            kind: slot.kind.map_or(0, |kind| kind.number()),
            name: slot.name.clone()?,
            a: self.first_number(o),
            b: self.second_number(o),
            c: self.third_number(o),
            waits: thread_numbers(alloc, &waiters)?,
        })
    }
}
