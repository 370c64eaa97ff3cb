//! One slot: its state and generation, what it is allocated for, whose it is, and who else may use it.
//!
//! A slot is Free, or Empty once it is allocated, or Live once its object is created.
ghost use Rattle.std.specs.Prelude.{◌≡◌, ◌==◌};
ghost use Rattle.tx_types.specs.Reference.{generation_of};
ghost use Rattle.object_grants.specs.Slot.{slot_state_number, is_in, is_kind, is_usable, is_granted, without_grant, owns, free_slot, is_own_empty, is_live_for, has_name};

use tx_types::{Kind, ModNo, Name, ObjRef};

/// The highest generation. A slot that was freed at it is never allocated again.
pub const LAST_GENERATION: u32 = 0xFF_FFFF;

/// The state of a slot.
#[derive(Clone, Copy, Debug, PartialEq, Eq)]
pub enum SlotState {
    Free,
    /// Allocated, with no object in it.
    Empty,
    /// With an object in it.
    Live,
}

impl SlotState {
    /// Its number, 0 to 2.
    pub fn number(self) -> u32
        ensures { result ≡ slot_state_number self }
    {
        match self {
            SlotState::Free => 0,
            SlotState::Empty => 1,
            SlotState::Live => 2,
        }
    }
}

/// A slot. Bit m of `grants` says that module m was granted the object.
#[derive(Clone, Debug, Drop)]
pub struct Slot {
    pub state: SlotState,
    pub generation: u32,
    pub kind: Option<Kind>,
    pub owner: ModNo,
    pub grants: u16,
    pub name: Name,
}

impl Slot {
    /// A Free slot at a generation.
    pub fn free(generation: u32) -> Slot
        ensures { result ≡ free_slot generation }
    {
        Slot {
            state: SlotState::Free,
            generation,
            kind: None,
            owner: ModNo::new(0),
            grants: 0,
            name: Name::empty(),
        }
    }

    /// Whether the slot is in a state.
    #[inline]
    pub fn is_in(&self, state: SlotState) -> bool
        ensures { result ≡ is_in state self.now }
    {
        self.state.number() == state.number()
    }

    /// Whether it is allocated for a kind of object.
    pub fn is_kind(&self, kind: Kind) -> bool
        ensures { result ≡ is_kind kind self.now }
    {
        match self.kind {
            Some(own) => own.number() == kind.number(),
            None => false,
        }
    }

    /// Whether it can be allocated.
    pub fn is_usable(&self) -> bool
        ensures { result ≡ is_usable self.now }
    {
        self.is_in(SlotState::Free) && self.generation < LAST_GENERATION
    }

    /// Whether a module owns it.
    pub fn owns(&self, m: ModNo) -> bool
        ensures { result ≡ owns m self.now }
    {
        !self.is_in(SlotState::Free) && self.owner.number() == m.number()
    }

    /// Whether a module was granted its object.
    pub fn is_granted(&self, m: ModNo) -> bool
        ensures { result ≡ is_granted m self.now }
    {
        self.grants >> m.number() & 1 == 1
    }

    /// Ends a module's grant of its object.
    pub fn revoke(&mut self, m: ModNo)
        ensures { self.new ≡ without_grant m self.old }
    {
        if self.is_granted(m) {
            self.grants -= 1 << m.number();
        }
    }

    /// Whether it is at the generation of a reference.
    pub fn is_named(&self, r: ObjRef) -> bool
        ensures { result ≡ (self.now.generation == generation_of r) }
    {
        self.generation == r.generation()
    }

    /// Whether it is Empty, and a module owns it.
    pub fn is_own_empty(&self, m: ModNo) -> bool
        ensures { result ≡ is_own_empty m self.now }
    {
        self.is_in(SlotState::Empty) && self.owns(m)
    }

    /// Whether it is Live, of a kind, and a module owns it or was granted it.
    pub fn is_live_for(&self, m: ModNo, k: Kind) -> bool
        ensures { result ≡ is_live_for m k self.now }
    {
        self.is_in(SlotState::Live) && self.is_kind(k) && (self.owns(m) || self.is_granted(m))
    }

    /// Whether it is Live, of a kind, and has a name.
    pub fn has_name(&self, k: Kind, name: &Name) -> bool
        ensures { result ≡ has_name k name.now self.now }
    {
        self.is_in(SlotState::Live) && self.is_kind(k) && self.name.same(name)
    }
}
