//! What a report reads of a kernel, in ample memory: the row of an object, the ready threads, the
//! holders.
//!
//! The kernel is asked directly: no report is printed, and no allocation is made to fail.

use crate::names::{
    OBJECT_ALLOCATE, SUCCESS, THREAD_CREATE, THREAD_PREEMPTION_CHANGE, THREAD_PRIORITY_CHANGE,
    THREAD_RESUME,
};
use crate::pair::{BLOCK, DATA, MAIN, WORDS, board};
use crate::steps::{Step, Test, play};
use kernel_state::Kernel;
use object_grants::SlotState;
use std::alloc::Global;
use std::test::Fail;
use tx_types::{Kind, ModNo, Name, ObjNo, ThreadNo};

/// MAIN, with threshold 4, is preempted by thread 2, of priority 3.
const STEPS: &[Step] = &[
    Step::Put(0, BLOCK, &WORDS),
    Step::Call(OBJECT_ALLOCATE, [1, DATA, 0], SUCCESS),
    Step::Call(THREAD_CREATE, [0x102, 0, BLOCK], SUCCESS),
    Step::Call(THREAD_PRIORITY_CHANGE, [0x102, 3, DATA], SUCCESS),
    Step::Call(THREAD_PREEMPTION_CHANGE, [MAIN, 4, DATA], SUCCESS),
    Step::Call(THREAD_RESUME, [0x102, 0, 0], SUCCESS),
    Step::Runs(Some(2)),
];

const PREEMPTED: Test = Test::Of("MAIN is preempted", &[STEPS]);

/// Whether these are the threads of a list.
fn are(threads: &[ThreadNo], numbers: &[u16]) -> bool {
    if threads.len() != numbers.len() {
        return false;
    }
    for (i, t) in threads.iter().enumerate() {
        if t.number() != numbers[i] {
            return false;
        }
    }
    true
}

#[test]
fn ready_threads_and_holders_are_listed(rt: HostRuntime) -> Result<(), Fail> {
    let mut b = board(rt.alloc())?;
    play(&rt, &mut b, &PREEMPTED);
    let ready = b
        .kernel()
        .ready
        .ready_list(rt.alloc())
        .map_err(|_| "no memory")?;
    let held = b
        .kernel()
        .ready
        .held_list(rt.alloc())
        .map_err(|_| "no memory")?;
    assert!(rt; are(&ready, &[2, 0, 1]) && are(&held, &[0]));
    Ok(())
}

/// Slot 0 has a queue with a name, slot 1 a thread, slot 2 no object yet, and slot 3 is free.
fn with_a_queue(alloc: Global) -> Result<Kernel, Fail> {
    let mut k = Kernel::new(alloc).map_err(|_| "no memory")?;
    for (o, kind) in [(0, Kind::Queue), (1, Kind::Thread), (2, Kind::Queue)] {
        let made = k.objects.allocate(ModNo::new(5), kind);
        if o < 2 && made.is_some() {
            make(&mut k, ObjNo::new(o));
        }
    }
    Ok(k)
}

/// The object of an allocated slot is created.
fn make(k: &mut Kernel, o: ObjNo) {
    let mut name = Name::empty();
    name.push(b'q');
    if !k.objects.slot(o).is_in(SlotState::Free) {
        k.objects.make_live(o, name);
    }
}

/// The number of a slot's row, its module and its kind, and how many wait for it.
fn row_of(k: &Kernel, alloc: Global, o: u16) -> Result<Option<(u16, u8, u32, usize)>, Fail> {
    let row = k
        .object_row(alloc, ObjNo::new(o % 256))
        .map_err(|_| "no memory")?;
    Ok(row.map(|r| (r.object, r.module, r.kind, r.waits.as_slice().len())))
}

#[test]
fn an_object_has_a_row(rt: HostRuntime) -> Result<(), Fail> {
    let k = with_a_queue(rt.alloc())?;
    assert_eq!(rt; row_of(&k, rt.alloc(), 0)?, Some((0, 5, 2, 0)));
    for o in 1..4 {
        assert_eq!(rt; row_of(&k, rt.alloc(), o)?, None);
    }
    Ok(())
}
