//! Histories of a table: what each call answers, and what can be found after it.
//!
//! Modules and objects are numbers: there is no kernel and no memory of a module. A step that may
//! not be made, or is answered otherwise, ends its history.

use object_grants::{LAST_GENERATION, Objects, Slot, SlotState};
use std::test::Fail;
use tx_types::{Kind, ModNo, Name, ObjNo, ObjRef};

/// A call, by the numbers of its module and its slot or the word of its reference, and what it answers.
#[derive(Clone, Copy)]
enum Step {
    Allocate(u8, Kind, Option<u32>),
    Deallocate(u8, u32, bool),
    /// Makes a slot Live under a name.
    Create(u8, &'static str),
    /// Makes a slot Empty.
    Delete(u8),
    Free(u8),
    Grant(u8, u8),
    Resolve(u8, u32, Kind, Option<u16>),
    Empty(u8, u32, Kind, Option<u16>),
    Find(Kind, &'static str, Option<u16>),
    MayDelete(u8, u8, bool),
    Reference(u8, u32),
    /// Sets up a slot with its generation and kind, which is module 2's and granted to module 3.
    Restore(u8, SlotState, u32, Option<Kind>),
}

fn module(m: u8) -> ModNo {
    ModNo::new(m % 16)
}

fn slot(o: u8) -> ObjNo {
    ObjNo::new(u16::from(o))
}

/// Makes a slot Live, where it isn't Free.
fn create(t: &mut Objects, o: ObjNo, name: &str) -> bool {
    let bytes = name.as_bytes();
    let may = !t.slot(o).is_in(SlotState::Free) && bytes.len() <= 31;
    if may {
        t.make_live(o, Name::from_bytes(bytes));
    }
    may
}

/// Makes a slot Empty, where it isn't Free.
fn delete(t: &mut Objects, o: ObjNo) -> bool {
    let may = !t.slot(o).is_in(SlotState::Free);
    if may {
        t.make_empty(o);
    }
    may
}

fn find(t: &Objects, k: Kind, name: &str) -> Option<u16> {
    let bytes = name.as_bytes();
    if bytes.len() > 31 {
        return None;
    }
    t.find(k, &Name::from_bytes(bytes)).map(|o| o.number())
}

/// Sets up a slot that was never used, where it follows the rules.
fn restore(
    t: &mut Objects,
    o: ObjNo,
    state: SlotState,
    generation: u32,
    kind: Option<Kind>,
) -> bool {
    let s = Slot {
        state,
        generation,
        kind,
        owner: ModNo::new(2),
        grants: 0b1000,
        name: Name::empty(),
    };
    let unused = t.slot(o).is_in(SlotState::Free) && t.slot(o).generation == 0;
    let free = s.is_in(SlotState::Free);
    let may = unused
        && generation <= LAST_GENERATION
        && s.kind.is_some() != free
        && (free || generation > 0);
    if may {
        t.restore(o, s);
    }
    may
}

/// Makes a call, and says whether it could be made and answered so.
fn make(t: &mut Objects, step: Step) -> bool {
    match step {
        Step::Allocate(m, k, due) => t.allocate(module(m), k) == due.map(ObjRef::new),
        Step::Deallocate(m, word, due) => t.deallocate(module(m), ObjRef::new(word)) == due,
        Step::Create(o, name) => create(t, slot(o), name),
        Step::Delete(o) => delete(t, slot(o)),
        Step::Free(o) => {
            t.free(slot(o));
            true
        }
        Step::Grant(m, o) => {
            t.grant(module(m), slot(o));
            true
        }
        Step::Resolve(m, word, k, due) => {
            t.resolve(module(m), ObjRef::new(word), k)
                .map(|o| o.number())
                == due
        }
        Step::Empty(m, word, k, due) => {
            t.empty(module(m), ObjRef::new(word), k).map(|o| o.number()) == due
        }
        Step::Find(k, name, due) => find(t, k, name) == due,
        Step::MayDelete(m, o, due) => t.may_delete(module(m), slot(o)) == due,
        Step::Reference(o, due) => t.ref_of(slot(o)) == ObjRef::new(due),
        Step::Restore(o, state, generation, kind) => restore(t, slot(o), state, generation, kind),
    }
}

/// The place of the first step that comes out otherwise, if there is one.
fn follow(t: &mut Objects, steps: &[Step]) -> Option<usize> {
    for (i, step) in steps.iter().enumerate() {
        if !make(t, *step) {
            return Some(i);
        }
    }
    None
}

#[rattlefmt::skip]
const REFERENCES: [Step; 20] = [
    Step::Allocate(3, Kind::Timer, Some(0x100)),
    Step::Allocate(3, Kind::Timer, Some(0x101)),
    Step::Allocate(3, Kind::Timer, Some(0x102)),
    Step::Allocate(3, Kind::Timer, Some(0x103)),
    Step::Allocate(3, Kind::Timer, Some(0x104)),
    Step::Allocate(3, Kind::Timer, Some(0x105)),
    Step::Create(5, "tick"),
    Step::Resolve(3, 0x105, Kind::Timer, Some(5)),
    Step::Deallocate(3, 0x105, false),
    Step::Delete(5),
    Step::Deallocate(2, 0x105, false),
    Step::Deallocate(3, 0x105, true),
    Step::Deallocate(3, 0x105, false),
    // the slot comes back in its next generation
    Step::Allocate(3, Kind::Timer, Some(0x205)),
    Step::Create(5, "tock"),
    Step::Resolve(3, 0x105, Kind::Timer, None),
    Step::Resolve(3, 0x205, Kind::Timer, Some(5)),
    Step::Resolve(3, 0x205, Kind::Queue, None),
    Step::Reference(5, 0x205),
    Step::Reference(4, 0x104),
];

#[rattlefmt::skip]
const GRANTS: [Step; 19] = [
    Step::Allocate(1, Kind::Queue, Some(0x100)),
    Step::Empty(1, 0x100, Kind::Queue, Some(0)),
    Step::Empty(15, 0x100, Kind::Queue, None),
    Step::Create(0, "q"),
    Step::Empty(1, 0x100, Kind::Queue, None),
    Step::Resolve(15, 0x100, Kind::Queue, None),
    Step::Grant(15, 0),
    Step::Resolve(15, 0x100, Kind::Queue, Some(0)),
    Step::Resolve(14, 0x100, Kind::Queue, None),
    Step::MayDelete(1, 0, true),
    Step::MayDelete(15, 0, false),
    // a grant ends with its object
    Step::Delete(0),
    Step::Resolve(15, 0x100, Kind::Queue, None),
    Step::Create(0, "q"),
    Step::Resolve(15, 0x100, Kind::Queue, None),
    Step::Resolve(1, 0x100, Kind::Queue, Some(0)),
    Step::Free(0),
    Step::MayDelete(1, 0, false),
    Step::MayDelete(0, 0, false),
];

#[rattlefmt::skip]
const SET_UP: [Step; 14] = [
    Step::Restore(0, SlotState::Free, LAST_GENERATION, None),
    Step::Restore(1, SlotState::Live, 7, Some(Kind::Events)),
    Step::Restore(2, SlotState::Free, LAST_GENERATION - 1, None),
    Step::Resolve(2, 0x701, Kind::Events, Some(1)),
    Step::Resolve(3, 0x701, Kind::Events, Some(1)),
    Step::Find(Kind::Events, "", Some(1)),
    Step::Find(Kind::Thread, "", None),
    Step::Allocate(2, Kind::Thread, Some(0xFFFF_FF02)),
    Step::Deallocate(2, 0xFFFF_FF02, true),
    Step::Allocate(2, Kind::Thread, Some(0x103)),
    Step::Create(3, "a"),
    Step::Create(1, "a"),
    Step::Find(Kind::Thread, "a", Some(3)),
    Step::Find(Kind::Events, "a", Some(1)),
];

#[test]
fn histories_of_a_table(rt: HostRuntime) -> Result<(), Fail> {
    let table: [&[Step]; 3] = [&REFERENCES, &GRANTS, &SET_UP];
    for steps in table {
        let mut t = Objects::new(rt.alloc()).map_err(|_| "no memory")?;
        assert_eq!(rt; follow(&mut t, steps), None);
    }
    Ok(())
}

/// What is allocated where all slots are taken but two, which were freed.
#[rattlefmt::skip]
const FULL: [Step; 6] = [
    Step::Allocate(0, Kind::Mutex, None),
    Step::Free(200),
    Step::Free(100),
    Step::Allocate(0, Kind::Mutex, Some(0x264)),
    Step::Allocate(0, Kind::Mutex, Some(0x2C8)),
    Step::Allocate(0, Kind::Mutex, None),
];

#[test]
fn all_slots_taken(rt: HostRuntime) -> Result<(), Fail> {
    let mut t = Objects::new(rt.alloc()).map_err(|_| "no memory")?;
    for o in 0..256 {
        let r = t.allocate(ModNo::new(0), Kind::Mutex);
        assert_eq!(rt; r, Some(ObjRef::new(0x100 + o)));
    }
    assert_eq!(rt; follow(&mut t, &FULL), None);
    Ok(())
}
