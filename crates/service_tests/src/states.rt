//! Threads are suspended, resumed, ended, reset and deleted.
//!
//! The only waits are sleeps.

use crate::names::{
    CALLER_ERROR, DELETE_ERROR, NOT_DONE, OBJECT_ALLOCATE, OBJECT_DEALLOCATE, OBJECT_POINTER_GET,
    RESUME_ERROR, SUCCESS, SUSPEND_ERROR, SUSPEND_LIFTED, THREAD_COMPLETE, THREAD_CREATE,
    THREAD_DELETE, THREAD_ERROR, THREAD_IDENTIFY, THREAD_INFO_GET, THREAD_PREEMPTION_CHANGE,
    THREAD_PRIORITY_CHANGE, THREAD_RELINQUISH, THREAD_RESET, THREAD_RESUME, THREAD_SLEEP,
    THREAD_SUSPEND, THREAD_TERMINATE, THREAD_TIME_SLICE_CHANGE, THREAD_WAIT_ABORT,
};
use crate::pair::{BLOCK, CODE, DATA, MAIN, OTHER, OTHER_DATA, WORDS};
use crate::steps::{Mark, Step, Test};
use object_grants::SlotState;
use tx_types::State;

/// MAIN allocates the slots 2 and 3 for threads, and writes the block.
pub const SLOTS: &[Step] = &[
    Step::Call(OBJECT_ALLOCATE, [1, DATA, 0], SUCCESS),
    Step::Call(OBJECT_ALLOCATE, [1, DATA, 0], SUCCESS),
    Step::Put(0, BLOCK, &WORDS),
];

/// Thread 0x102 of a priority and threshold is ready.
pub const AT_5: &[Step] = &[
    Step::Put(0, BLOCK + 16, &[5]),
    Step::Put(0, BLOCK + 20, &[5]),
    Step::Put(0, BLOCK + 28, &[1]),
    Step::Call(THREAD_CREATE, [0x102, 0, BLOCK], SUCCESS),
];

pub const AT_10: &[Step] = &[
    Step::Put(0, BLOCK + 16, &[10]),
    Step::Put(0, BLOCK + 20, &[10]),
    Step::Put(0, BLOCK + 28, &[1]),
    Step::Call(THREAD_CREATE, [0x102, 0, BLOCK], SUCCESS),
];

const AT_15: &[Step] = &[
    Step::Put(0, BLOCK + 16, &[15]),
    Step::Put(0, BLOCK + 20, &[15]),
    Step::Put(0, BLOCK + 28, &[1]),
    Step::Call(THREAD_CREATE, [0x102, 0, BLOCK], SUCCESS),
];

const A_THREAD_IS_SUSPENDED_AND_RESUMED: &[Step] = &[
    Step::Call(THREAD_RESUME, [0x102, 0, 0], RESUME_ERROR),
    Step::Call(THREAD_RESUME, [MAIN, 0, 0], RESUME_ERROR),
    Step::Call(THREAD_SUSPEND, [0x102, 0, 0], SUCCESS),
    Step::State(2, State::Suspended, Mark::None),
    Step::Ready(2, false),
    Step::Call(THREAD_SUSPEND, [0x102, 0, 0], SUCCESS),
    Step::State(2, State::Suspended, Mark::None),
    Step::Ready(2, false),
    Step::Call(THREAD_RESUME, [0x102, 0, 0], SUCCESS),
    Step::State(2, State::Ready, Mark::None),
    Step::Ready(2, true),
    Step::Holds(2, false),
];

const THE_CALLER_IS_SUSPENDED_AND_RESUMED: &[Step] = &[
    Step::Call(THREAD_SUSPEND, [MAIN, 0, 0], SUCCESS),
    Step::State(0, State::Suspended, Mark::None),
    Step::Runs(Some(2)),
    Step::Call(THREAD_RESUME, [MAIN, 0, 0], SUCCESS),
    Step::Runs(Some(0)),
    Step::Numbers(0, [10, 10, 10, 10, 5, 5]),
];

const A_WAITING_THREAD_IS_SUSPENDED_LATER: &[Step] = &[
    Step::Runs(Some(2)),
    Step::Call(THREAD_SLEEP, [2, 0, 0], 2),
    Step::Runs(Some(0)),
    Step::Call(THREAD_RESUME, [0x102, 0, 0], RESUME_ERROR),
    Step::Call(THREAD_DELETE, [0x102, 0, 0], DELETE_ERROR),
    Step::Call(THREAD_RESET, [0x102, 0, 0], NOT_DONE),
    Step::Call(THREAD_SUSPEND, [0x102, 0, 0], SUCCESS),
    Step::State(2, State::Sleep, Mark::Held),
    Step::Call(THREAD_SUSPEND, [0x102, 0, 0], SUCCESS),
    Step::State(2, State::Sleep, Mark::Held),
];

const ITS_SUSPENSION_IS_LIFTED: &[Step] = &[
    Step::Call(THREAD_INFO_GET, [0x102, DATA, 0], SUCCESS),
    Step::Words(0, DATA, &[4]),
    Step::Words(0, DATA + 4, &[1]),
    Step::Call(THREAD_RESUME, [0x102, 0, 0], SUSPEND_LIFTED),
    Step::State(2, State::Sleep, Mark::None),
    Step::Call(THREAD_RESUME, [0x102, 0, 0], RESUME_ERROR),
];

const IT_IS_SUSPENDED_AT_LAST: &[Step] = &[
    Step::Call(THREAD_SUSPEND, [0x102, 0, 0], SUCCESS),
    Step::Ticks(1),
    Step::State(2, State::Sleep, Mark::Held),
    Step::Ticks(1),
    Step::State(2, State::Suspended, Mark::None),
    Step::Register(2, 10, SUCCESS),
    Step::Runs(Some(0)),
    Step::Call(THREAD_RESUME, [0x102, 0, 0], SUCCESS),
    Step::Runs(Some(2)),
];

const ITS_SUSPENSION_ENDS_WITH_IT: &[Step] = &[
    Step::Call(THREAD_SLEEP, [1, 0, 0], 1),
    Step::Call(THREAD_SUSPEND, [0x102, 0, 0], SUCCESS),
    Step::Call(THREAD_TERMINATE, [0x102, 0, 0], SUCCESS),
    Step::Ticks(1),
    Step::State(2, State::Terminated, Mark::None),
    Step::Waits([2, 0, 1, 0, 0, 1]),
    Step::Call(THREAD_RESUME, [0x102, 0, 0], RESUME_ERROR),
    Step::Call(THREAD_RESET, [0x102, 0, 0], SUCCESS),
    Step::Call(THREAD_RESUME, [0x102, 0, 0], SUCCESS),
    Step::Runs(Some(2)),
];

const A_THREAD_ENDS_ONCE: &[Step] = &[
    Step::Call(THREAD_COMPLETE, [7, 8, 9], 7),
    Step::State(2, State::Completed, Mark::None),
    Step::Ready(2, false),
    Step::Runs(Some(0)),
    Step::Call(THREAD_TERMINATE, [0x102, 0, 0], SUCCESS),
    Step::State(2, State::Completed, Mark::None),
    Step::Call(THREAD_SUSPEND, [0x102, 0, 0], SUSPEND_ERROR),
    Step::Call(THREAD_RESUME, [0x102, 0, 0], RESUME_ERROR),
];

const THE_LAST_THREAD_ENDS: &[Step] = &[
    Step::Call(THREAD_TERMINATE, [MAIN, 0, 0], MAIN),
    Step::State(0, State::Terminated, Mark::None),
    Step::Slot(0, SlotState::Live, 1, 0, 0),
    Step::Runs(Some(1)),
    Step::Call(THREAD_COMPLETE, [7, 8, 9], 7),
    Step::Runs(None),
    Step::NobodyCalls,
];

const ANOTHER_THREAD_IS_TERMINATED: &[Step] = &[
    Step::Call(THREAD_TERMINATE, [0x102, 0, 0], SUCCESS),
    Step::State(2, State::Terminated, Mark::None),
    Step::Ready(2, false),
    Step::Call(THREAD_SUSPEND, [0x102, 0, 0], SUSPEND_ERROR),
    Step::Runs(Some(0)),
];

const A_THREAD_IS_RESET: &[Step] = &[
    Step::Sets(5, 9),
    Step::Register(2, 5, 9),
    Step::Call(THREAD_RESET, [0x102, 0, 0], NOT_DONE),
    Step::Call(THREAD_SUSPEND, [0x102, 0, 0], SUCCESS),
    Step::Call(THREAD_RESET, [0x102, 0, 0], NOT_DONE),
    Step::Call(THREAD_TERMINATE, [0x102, 0, 0], SUCCESS),
    Step::Register(2, 5, 9),
];

const A_THREAD_HAS_ITS_OPENING_REGISTERS: &[Step] = &[
    Step::Call(THREAD_PRIORITY_CHANGE, [0x102, 16, DATA], SUCCESS),
    Step::Call(THREAD_RESET, [0x102, 0, 0], SUCCESS),
    Step::State(2, State::Suspended, Mark::Fresh),
    Step::Numbers(2, [16, 16, 16, 16, 3, 3]),
    Step::Register(2, 5, 0),
    Step::Opening(2, CODE + 0x84, [DATA + 0x240, DATA, CODE + 0x80, 7]),
    Step::Ready(2, false),
];

const A_THREAD_IS_DELETED: &[Step] = &[
    Step::Call(THREAD_DELETE, [MAIN, 0, 0], DELETE_ERROR),
    Step::Call(THREAD_DELETE, [0x102, 0, 0], DELETE_ERROR),
    Step::Call(THREAD_SUSPEND, [0x102, 0, 0], SUCCESS),
    Step::Call(THREAD_DELETE, [0x102, 0, 0], DELETE_ERROR),
    Step::PutName(0, DATA + 0x60, b"late"),
    Step::Call(THREAD_CREATE, [0x103, DATA + 0x60, BLOCK], SUCCESS),
];

const A_GRANTED_THREAD_IS_KEPT: &[Step] = &[
    Step::PutName(1, OTHER_DATA + 0x60, b"late"),
    Step::Call(THREAD_SUSPEND, [MAIN, 0, 0], SUCCESS),
    Step::Runs(Some(3)),
    Step::Call(THREAD_SUSPEND, [0x103, 0, 0], SUCCESS),
    Step::Call(
        OBJECT_POINTER_GET,
        [1, OTHER_DATA + 0x60, OTHER_DATA],
        SUCCESS,
    ),
    Step::Call(OBJECT_POINTER_GET, [1, 0, OTHER_DATA], SUCCESS),
    Step::Call(THREAD_DELETE, [0x103, 0, 0], CALLER_ERROR),
    Step::Call(THREAD_TERMINATE, [0x103, 0, 0], SUCCESS),
    Step::Call(THREAD_DELETE, [0x103, 0, 0], CALLER_ERROR),
    Step::Slot(3, SlotState::Live, 1, 0, 2),
];

const ITS_OWNER_DELETES_IT: &[Step] = &[
    Step::Call(THREAD_RESUME, [MAIN, 0, 0], SUCCESS),
    Step::Call(THREAD_DELETE, [0x103, 0, 0], SUCCESS),
    Step::Slot(3, SlotState::Empty, 1, 0, 0),
    Step::Name(3, b""),
    Step::Call(THREAD_DELETE, [0x103, 0, 0], THREAD_ERROR),
    Step::Call(OBJECT_DEALLOCATE, [0x103, 0, 0], SUCCESS),
];

const THE_CALLER_GOES_BEHIND_ITS_PRIORITY: &[Step] = &[
    Step::Runs(Some(0)),
    Step::After(0, Some(2)),
    Step::Call(THREAD_RELINQUISH, [0, 0, 0], SUCCESS),
    Step::Runs(Some(2)),
    Step::After(2, Some(0)),
    Step::Call(THREAD_RELINQUISH, [0, 0, 0], SUCCESS),
    Step::Runs(Some(0)),
    Step::After(0, Some(2)),
    Step::Numbers(0, [10, 10, 10, 10, 5, 5]),
];

/// The services on a thread that a0 names.
const ON_A_THREAD: &[u32] = &[
    THREAD_DELETE,
    THREAD_TERMINATE,
    THREAD_SUSPEND,
    THREAD_RESUME,
    THREAD_INFO_GET,
    THREAD_PREEMPTION_CHANGE,
    THREAD_PRIORITY_CHANGE,
    THREAD_TIME_SLICE_CHANGE,
    THREAD_WAIT_ABORT,
    THREAD_RESET,
];

const NO_THREADS: &[Step] = &[
    Step::Each(ON_A_THREAD, [0, 0, 0], THREAD_ERROR),
    Step::Each(ON_A_THREAD, [OTHER, 0, 0], THREAD_ERROR),
    Step::Each(ON_A_THREAD, [0x002, 0, 0], THREAD_ERROR),
    Step::Each(ON_A_THREAD, [0x202, 0, 0], THREAD_ERROR),
    Step::Each(ON_A_THREAD, [0x103, 0, 0], THREAD_ERROR),
    Step::Each(ON_A_THREAD, [0x104, 0, 0], THREAD_ERROR),
];

const STILL_READY: &[Step] = &[
    Step::State(1, State::Ready, Mark::None),
    Step::State(2, State::Ready, Mark::None),
];

/// MAIN, then a caller of slot 3's second generation, and then module 1's thread.
const CALLERS: &[Step] = &[
    Step::Call(THREAD_IDENTIFY, [0, 0, 0], MAIN),
    Step::Call(OBJECT_DEALLOCATE, [0x103, 0, 0], SUCCESS),
    Step::Call(OBJECT_ALLOCATE, [1, DATA, 0], SUCCESS),
    Step::Put(0, BLOCK + 16, &[2, 2]),
    Step::Call(THREAD_CREATE, [0x203, 0, BLOCK], SUCCESS),
    Step::Call(THREAD_IDENTIFY, [0, 0, 0], 0x203),
    Step::Call(THREAD_SUSPEND, [0x203, 0, 0], SUCCESS),
    Step::Call(THREAD_SUSPEND, [0x102, 0, 0], SUCCESS),
    Step::Call(THREAD_SUSPEND, [MAIN, 0, 0], SUCCESS),
    Step::Call(THREAD_IDENTIFY, [0, 0, 0], OTHER),
];

/// The tests, each on a new board.
pub const TESTS: &[Test] = &[
    Test::Of(
        "a thread is suspended and resumed",
        &[
            SLOTS,
            AT_15,
            A_THREAD_IS_SUSPENDED_AND_RESUMED,
            THE_CALLER_IS_SUSPENDED_AND_RESUMED,
        ],
    ),
    Test::Of(
        "a waiting thread is suspended later",
        &[
            SLOTS,
            AT_5,
            A_WAITING_THREAD_IS_SUSPENDED_LATER,
            ITS_SUSPENSION_IS_LIFTED,
            IT_IS_SUSPENDED_AT_LAST,
            ITS_SUSPENSION_ENDS_WITH_IT,
        ],
    ),
    Test::Of(
        "a thread ends once",
        &[SLOTS, AT_5, A_THREAD_ENDS_ONCE, THE_LAST_THREAD_ENDS],
    ),
    Test::Of(
        "another thread is terminated",
        &[SLOTS, AT_15, ANOTHER_THREAD_IS_TERMINATED],
    ),
    Test::Of(
        "a thread is reset",
        &[
            SLOTS,
            AT_5,
            A_THREAD_IS_RESET,
            A_THREAD_HAS_ITS_OPENING_REGISTERS,
        ],
    ),
    Test::Of(
        "a thread is deleted",
        &[
            SLOTS,
            AT_15,
            A_THREAD_IS_DELETED,
            A_GRANTED_THREAD_IS_KEPT,
            ITS_OWNER_DELETES_IT,
        ],
    ),
    Test::Of(
        "the caller goes behind its priority",
        &[SLOTS, AT_10, THE_CALLER_GOES_BEHIND_ITS_PRIORITY],
    ),
    Test::Of(
        "a reference must name a thread",
        &[SLOTS, AT_15, NO_THREADS, STILL_READY],
    ),
    Test::Of("the caller is told its reference", &[SLOTS, AT_10, CALLERS]),
];
