//! Two modules, one of them with a callback thread, are started and fault. The numbers are worked by hand
//! from the two preambles.

use crate::board::{Area, Board};
use crate::names::{START_ERROR, SUCCESS};
use crate::steps::{Mark, Step, Test, play};
use module_loader::Placed;
use module_manager::Manager;
use module_preamble::Preamble;
use object_grants::SlotState;
use region_guard::Rights;
use rv_core::Cause;
use std::alloc::Global;
use std::test::Fail;
use tx_types::{ModNo, State};

/// Module 0: 256 bytes of code, 64 of data, a start stack of 64; no callback.
const PLAIN: Preamble = Preamble {
    id: 0x4D4F_4455,
    major: 5,
    minor: 0,
    words: 32,
    app: 0,
    props: 3,
    shell: 0x80,
    start: 0x84,
    stop: 0,
    start_prio: 10,
    start_stack: 64,
    callback: 0,
    callback_prio: 0,
    callback_stack: 0,
    code_size: 0x100,
    data_size: 64,
};

/// Module 1: 256 bytes of code, 100 of data, which are rounded up to 112, stacks of 64 and 80.
const WITH_CALLBACK: Preamble = Preamble {
    id: 0x4D4F_4455,
    major: 5,
    minor: 0,
    words: 32,
    app: 0,
    props: 3,
    shell: 0x80,
    start: 0x84,
    stop: 0,
    start_prio: 20,
    start_stack: 64,
    callback: 0x88,
    callback_prio: 5,
    callback_stack: 80,
    code_size: 0x100,
    data_size: 100,
};

/// Module 0's data region: 128 bytes.
const DATA: u32 = 0x8000_0200;

/// Module 1's data region: 256 bytes.
const OTHER_DATA: u32 = 0x8000_0400;

const AREAS: [Area; 2] = [
    (DATA, 0x80, Rights::ReadWrite, 1),
    (OTHER_DATA, 0x100, Rights::ReadWrite, 2),
];

const ROWS: [(Preamble, Placed); 2] = [
    (
        PLAIN,
        Placed {
            code_base: 0x8000_0000,
            data_base: DATA,
        },
    ),
    (
        WITH_CALLBACK,
        Placed {
            code_base: 0x8000_0100,
            data_base: OTHER_DATA,
        },
    ),
];

fn manager(alloc: Global) -> Result<Manager, Fail> {
    Manager::new(alloc, &ROWS).map_err(|_| "no memory".into())
}

/// A module without a callback is started, once, and writes no byte but its own data.
const STARTED_ALONE: &[Step] = &[
    Step::ModuleState(0, 0),
    Step::ModuleState(1, 0),
    Step::Put(0, DATA, &[1]),
    Step::Put(0, DATA + 124, &[2]),
    Step::Put(1, OTHER_DATA, &[3]),
    Step::Start(0, SUCCESS),
    Step::ModuleState(0, 1),
    Step::ModuleState(1, 0),
    Step::Words(0, DATA, &[0]),
    Step::Words(0, DATA + 124, &[0]),
    Step::Words(1, OTHER_DATA, &[3]),
];

const ITS_THREAD: &[Step] = &[
    Step::Slot(0, SlotState::Live, 1, 0, 0),
    Step::Name(0, b"start"),
    Step::Module(0, 0),
    Step::State(0, State::Ready, Mark::None),
    Step::Numbers(0, [10, 10, 10, 10, 0, 0]),
    Step::Opening(0, 0x8000_0080, [0x8000_0280, DATA, 0x8000_0084, 0]),
    Step::Slot(1, SlotState::Free, 0, 0, 0),
    Step::Runs(Some(0)),
    Step::Callback(0, None),
];

const NOT_STARTED_AGAIN: &[Step] = &[
    Step::Put(0, DATA, &[1]),
    Step::Start(0, START_ERROR),
    Step::Words(0, DATA, &[1]),
    Step::Slot(1, SlotState::Free, 0, 0, 0),
];

/// A module with a callback is started.
const BOTH_STARTED: &[Step] = &[
    Step::Start(0, SUCCESS),
    Step::Start(1, SUCCESS),
    Step::Slot(1, SlotState::Live, 1, 1, 0),
    Step::Slot(2, SlotState::Live, 1, 1, 0),
    Step::Name(1, b"start"),
    Step::Name(2, b"callback"),
    Step::Module(1, 1),
    Step::Module(2, 1),
    Step::State(1, State::Ready, Mark::None),
    Step::State(2, State::Ready, Mark::None),
];

const THEIR_THREADS: &[Step] = &[
    Step::Numbers(1, [20, 20, 20, 20, 0, 0]),
    Step::Numbers(2, [5, 5, 5, 5, 0, 0]),
    Step::Opening(1, 0x8000_0180, [0x8000_04B0, OTHER_DATA, 0x8000_0184, 0]),
    Step::Opening(2, 0x8000_0180, [0x8000_0500, OTHER_DATA, 0x8000_0188, 0]),
    Step::Runs(Some(2)),
    Step::Callback(1, Some(2)),
];

/// Its start thread faults: both threads and its Empty slot are gone, and so is what it was granted, and
/// no more.
const FAULTED: &[Step] = &[
    Step::Reserve(1, 1),
    Step::Reserve(0, 1),
    Step::Grant(1, 0),
    Step::Grant(7, 0),
    Step::Put(1, OTHER_DATA, &[3]),
    Step::Fault(1, Cause::LoadOutside, 0x8000_0190),
    Step::ModuleState(1, 3),
    Step::ModuleFault(1, Some((1, Cause::LoadOutside, 0x8000_0190))),
    Step::ModuleState(0, 1),
    Step::ModuleFault(0, None),
    Step::Words(1, OTHER_DATA, &[3]),
];

const ITS_SLOTS_ARE_FREE: &[Step] = &[
    Step::Slot(0, SlotState::Live, 1, 0, 0x80),
    Step::Slot(1, SlotState::Free, 1, 0, 0),
    Step::Slot(2, SlotState::Free, 1, 0, 0),
    Step::Slot(3, SlotState::Free, 1, 0, 0),
    Step::Slot(4, SlotState::Empty, 1, 0, 0),
    Step::Name(1, b""),
    Step::Name(2, b""),
    Step::State(0, State::Ready, Mark::None),
    Step::State(1, State::Terminated, Mark::None),
    Step::State(2, State::Terminated, Mark::None),
    Step::Runs(Some(0)),
    Step::Callback(1, None),
];

const BOTH_FAULTED: &[Step] = &[
    Step::Start(1, START_ERROR),
    Step::Fault(0, Cause::Illegal, 0x8000_0084),
    Step::ModuleState(0, 3),
    Step::ModuleFault(0, Some((0, Cause::Illegal, 0x8000_0084))),
    Step::ModuleFault(1, Some((1, Cause::LoadOutside, 0x8000_0190))),
    Step::Runs(None),
];

/// With one usable slot a module with a callback can't be started, and one without can; and with none
/// neither can.
const FEW_SLOTS: &[Step] = &[
    Step::Reserve(7, 255),
    Step::Start(1, START_ERROR),
    Step::ModuleState(1, 0),
    Step::Slot(255, SlotState::Free, 0, 0, 0),
    Step::Start(0, SUCCESS),
    Step::Slot(255, SlotState::Live, 1, 0, 0),
    Step::Name(255, b"start"),
    Step::Start(1, START_ERROR),
    Step::Fault(255, Cause::Breakpoint, 0),
    Step::Reserve(7, 1),
    Step::Slot(255, SlotState::Empty, 2, 7, 0),
];

/// The tests, each on a new board.
const TESTS: [Test; 3] = [
    Test::Of(
        "a module is started",
        &[STARTED_ALONE, ITS_THREAD, NOT_STARTED_AGAIN],
    ),
    Test::Of(
        "two modules are started and fault",
        &[
            BOTH_STARTED,
            THEIR_THREADS,
            FAULTED,
            ITS_SLOTS_ARE_FREE,
            BOTH_FAULTED,
        ],
    ),
    Test::Of("few slots are usable", &[FEW_SLOTS]),
];

#[test]
fn modules_are_started_and_fault(rt: HostRuntime) -> Result<(), Fail> {
    for test in &TESTS {
        let mut b = Board::of_modules(rt.alloc(), manager(rt.alloc())?, &AREAS)?;
        play(&rt, &mut b, test);
    }
    Ok(())
}

#[test]
fn rows_are_read(rt: HostRuntime) -> Result<(), Fail> {
    let modules = manager(rt.alloc())?;
    assert_eq!(rt; modules.len(), 2);
    let row = modules.row(ModNo::new(1));
    assert!(rt; row.preamble == WITH_CALLBACK && row.placed.data_base == OTHER_DATA);
    Ok(())
}
