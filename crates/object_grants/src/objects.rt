//! The table of 256 slots.
//!
//! A call that takes a slot's number is for the services, which have found it by `resolve` or
//! `empty`; the calls that take a reference are the tests themselves.
ghost use Rattle.std.specs.Prelude.{◌≡◌, ◌<◌, true, false, replicate, position, IfOk, IfSome};
ghost use Rattle.std.specs.Option.{option_map};
ghost use Rattle.tx_types.specs.Limits.{slot_limit};
ghost use Rattle.object_grants.specs.Slot.{IsSlot, is_in, is_usable, is_own_empty, is_empty_for, is_live_for, has_name, owns, free_slot, last_generation};
ghost use Rattle.object_grants.specs.Table.{IsTable, slot, ref_of, named, named_slot, with_slot, after_allocate, after_make_live, after_make_empty, after_free, after_deallocate, after_grant, after_revoke};
ghost use Rattle.object_grants.specs.declared.slot.SlotState.TheVariants.{Free};

use crate::SLOTS;
use crate::slot::{Slot, SlotState};
use std::alloc::Global;
use std::marker::Model;
use tx_types::{Kind, ModNo, Name, NoMemory, ObjNo, ObjRef};

/// The slots, by number.
#[derive(Drop)]
pub struct Objects {
    slots: Vec<Slot>,
}

impl Model for Objects {
    ghost use Rattle.std.specs.Prelude.{List};
    ghost use Rattle.object_grants.specs.declared.slot.Slot.{Slot};
    ghost use Rattle.object_grants.specs.Table.{IsTable};

    ghost Value = { List Slot };

    ghost view = { λ t. t.slots.items };

    ghost invariant = { λ t. IsTable t.slots.items };
}

impl Objects {
    /// All slots Free, at generation 0.
    pub fn new(alloc: Global) -> Result<Objects, NoMemory>
        ensures { IfOk result (λ t. t ≡ replicate slot_limit (free_slot 0)) }
    {
        let mut slots = Vec::with_capacity(alloc, usize::from(SLOTS))?;
        for _ in 0..SLOTS {
            slots.push_reserved(Slot::free(0));
        }
        Ok(Objects { slots })
    }

    /// A slot.
    pub fn slot(&self, o: ObjNo) -> &Slot
        ensures value { result.now ≡ slot self.now o }
        ensures sound { IsTable self.now }
    {
        &self.slots[o.place()]
    }

    /// The reference that names a slot now.
    pub fn ref_of(&self, o: ObjNo) -> ObjRef
        ensures { result ≡ ref_of self.now o }
    {
        ObjRef::of(o, self.slots[o.place()].generation)
    }

    /// Whether a module owns a slot.
    pub fn may_delete(&self, m: ModNo, o: ObjNo) -> bool
        ensures { result ≡ owns m (slot self.now o) }
    {
        self.slots[o.place()].owns(m)
    }

    /// The slot that a reference names, where it is Empty, of a kind, and owned by a module.
    pub fn empty(&self, m: ModNo, r: ObjRef, k: Kind) -> Option<ObjNo>
        ensures { result ≡ named_slot self.now r (is_empty_for m k) }
    {
        let slot = &self.slots[r.slot().place()];
        (slot.is_named(r) && slot.is_own_empty(m) && slot.is_kind(k)).then_some(r.slot())
    }

    /// The slot that a reference names, where it is Live, of a kind, and owned by a module or granted
    /// to it.
    pub fn resolve(&self, m: ModNo, r: ObjRef, k: Kind) -> Option<ObjNo>
        ensures { result ≡ named_slot self.now r (is_live_for m k) }
    {
        let slot = &self.slots[r.slot().place()];
        (slot.is_named(r) && slot.is_live_for(m, k)).then_some(r.slot())
    }

    /// The lowest Live slot of a kind and name.
    pub fn find(&self, k: Kind, name: &Name) -> Option<ObjNo>
        ensures { result ≡ position (has_name k name.now) self.now }
    {
        let i = first_with_name(&self.slots, k, name)?;
        Some(ObjNo::new(i as u16))
    }

    /// Makes the lowest usable slot Empty, for a kind and a module, and gives its reference. None
    /// exactly where no slot is usable.
    pub fn allocate(&mut self, m: ModNo, k: Kind) -> Option<ObjRef>
        ensures after { self.new ≡ after_allocate self.old m k }
        ensures answer { result ≡ option_map (ref_of self.new) (position is_usable self.old) }
    {
        let i = first_usable(&self.slots)?;
        let slot = &mut self.slots[i];
        let generation = slot.generation + 1;
        *slot = Slot {
            state: SlotState::Empty,
            generation,
            kind: Some(k),
            owner: m,
            grants: 0,
            name: Name::empty(),
        };
        Some(ObjRef::of(ObjNo::new(i as u16), generation))
    }

    /// Frees the slot that a reference names. False exactly where that isn't an Empty slot of the
    /// module's own.
    pub fn deallocate(&mut self, m: ModNo, r: ObjRef) -> bool
        ensures after { self.new ≡ after_deallocate self.old m r }
        ensures answer { result ≡ named self.old r (is_own_empty m) }
    {
        let slot = &self.slots[r.slot().place()];
        let may = slot.is_named(r) && slot.is_own_empty(m);
        if may {
            self.free(r.slot());
        }
        may
    }

    /// Frees a slot: all but its generation ends.
    pub fn free(&mut self, o: ObjNo)
        ensures { self.new ≡ after_free self.old o }
    {
        let slot = &mut self.slots[o.place()];
        *slot = Slot::free(slot.generation);
    }

    /// Makes a slot Live, with a name.
    pub fn make_live(&mut self, o: ObjNo, name: Name)
        requires { is_in Free (slot self.old o) ≡ false }
        ensures { self.new ≡ after_make_live self.old o name }
    {
        let slot = &mut self.slots[o.place()];
        slot.state = SlotState::Live;
        slot.name = name;
    }

    /// Makes a slot Empty: the grants of its object and its name end.
    pub fn make_empty(&mut self, o: ObjNo)
        requires { is_in Free (slot self.old o) ≡ false }
        ensures { self.new ≡ after_make_empty self.old o }
    {
        let slot = &mut self.slots[o.place()];
        slot.state = SlotState::Empty;
        slot.grants = 0;
        slot.name = Name::empty();
    }

    /// Grants the object of a slot to a module.
    pub fn grant(&mut self, m: ModNo, o: ObjNo)
        ensures { self.new ≡ after_grant self.old m o }
    {
        let slot = &mut self.slots[o.place()];
        slot.grants |= 1 << m.number();
    }

    /// Ends a module's grant of the object of a slot, where it has one.
    pub fn revoke(&mut self, m: ModNo, o: ObjNo)
        ensures { self.new ≡ after_revoke self.old m o }
    {
        self.slots[o.place()].revoke(m);
    }

    /// Sets up a slot that was never used.
    pub fn restore(&mut self, o: ObjNo, s: Slot)
        requires free { is_in Free (slot self.old o) ≡ true }
        requires unused { (slot self.old o).generation ≡ 0 }
        requires sound { IsSlot s }
        ensures { self.new ≡ with_slot self.old o s }
    {
        self.slots[o.place()] = s;
    }
}

/// The place of the first slot that can be allocated.
fn first_usable(slots: &[Slot]) -> Option<usize>
    ensures first { result ≡ position is_usable slots.now }
    ensures below_last { IfSome result (λ i. (slot slots.now i).generation < last_generation) }
{
    slots.iter().position(|s| s.is_usable())
}

/// The place of the first Live slot of a kind and name.
fn first_with_name(slots: &[Slot], k: Kind, name: &Name) -> Option<usize>
    ensures { result ≡ position (has_name k name.now) slots.now }
{
    slots.iter().position(|s| s.has_name(k, name))
}
