//! A thread's numbers are read and changed.
//!
//! Refused calls have to leave each number as it was. No tick comes here, so no time slice runs down.

use crate::names::{
    INVALID_MEMORY, OBJECT_ALLOCATE, PRIORITY_ERROR, PTR_ERROR, SUCCESS, THREAD_CREATE,
    THREAD_INFO_GET, THREAD_PREEMPTION_CHANGE, THREAD_PRIORITY_CHANGE, THREAD_RESUME,
    THREAD_TIME_SLICE_CHANGE, THRESH_ERROR,
};
use crate::pair::{BLOCK, CODE, DATA, MAIN, OTHER_DATA, WORDS};
use crate::steps::{Step, Test};

/// MAIN makes the suspended threads 0x102 and 0x103 of priority 15, threshold 12 and slice 3.
const WORKERS: &[Step] = &[
    Step::Put(0, BLOCK, &WORDS),
    Step::Call(OBJECT_ALLOCATE, [1, DATA, 0], SUCCESS),
    Step::Call(OBJECT_ALLOCATE, [1, DATA, 0], SUCCESS),
    Step::Call(THREAD_CREATE, [0x102, 0, BLOCK], SUCCESS),
    Step::Call(THREAD_CREATE, [0x103, 0, BLOCK], SUCCESS),
];

/// Where the eight words of thread 0x102 can't be written.
const NO_PLACES: &[Step] = &[
    Step::Call(THREAD_INFO_GET, [0x102, 0, 0], PTR_ERROR),
    Step::Call(THREAD_INFO_GET, [0x102, DATA + 2, 0], PTR_ERROR),
    Step::Call(THREAD_INFO_GET, [0x102, DATA + 0x3FF, 0], PTR_ERROR),
    Step::Call(THREAD_INFO_GET, [0x102, DATA + 0x3E4, 0], INVALID_MEMORY),
    Step::Call(THREAD_INFO_GET, [0x102, DATA + 0x3FC, 0], INVALID_MEMORY),
    Step::Call(THREAD_INFO_GET, [0x102, DATA + 0x400, 0], INVALID_MEMORY),
    Step::Call(THREAD_INFO_GET, [0x102, CODE, 0], INVALID_MEMORY),
    Step::Call(THREAD_INFO_GET, [0x102, OTHER_DATA, 0], INVALID_MEMORY),
    Step::Call(THREAD_INFO_GET, [0x102, 0xFFFF_FFE0, 0], INVALID_MEMORY),
];

/// Where they can: at the data's start, and at its end.
const PLACES: &[Step] = &[
    Step::Call(THREAD_INFO_GET, [0x102, DATA, 0], SUCCESS),
    Step::Call(THREAD_INFO_GET, [0x102, DATA + 0x3E0, 0], SUCCESS),
];

const TOLD: &[Step] = &[
    Step::Call(THREAD_PREEMPTION_CHANGE, [MAIN, 4, DATA], SUCCESS),
    Step::Call(THREAD_INFO_GET, [MAIN, DATA, 0], SUCCESS),
    Step::Words(0, DATA, &[0, 0, 10, 4, 10, 4, 5, 5]),
    Step::Words(0, DATA + 0x3E0, &[3, 0, 15, 12, 15, 12, 3, 3]),
    Step::Words(0, BLOCK, &[CODE + 0x80]),
];

/// Where the old number can't be written: before a threshold that is too high, before a priority that
/// is, and before a slice.
const NO_OLD_THRESHOLD: &[Step] = &[
    Step::Call(THREAD_PREEMPTION_CHANGE, [0x102, 16, 0], PTR_ERROR),
    Step::Call(THREAD_PREEMPTION_CHANGE, [0x102, 16, DATA + 1], PTR_ERROR),
    Step::Call(
        THREAD_PREEMPTION_CHANGE,
        [0x102, 16, DATA + 0x3FE],
        PTR_ERROR,
    ),
    Step::Call(
        THREAD_PREEMPTION_CHANGE,
        [0x102, 16, DATA + 0x400],
        INVALID_MEMORY,
    ),
    Step::Call(
        THREAD_PREEMPTION_CHANGE,
        [0x102, 16, CODE + 0xFC],
        INVALID_MEMORY,
    ),
    Step::Call(
        THREAD_PREEMPTION_CHANGE,
        [0x102, 16, OTHER_DATA],
        INVALID_MEMORY,
    ),
    Step::Call(
        THREAD_PREEMPTION_CHANGE,
        [0x102, 16, 0xFFFF_FFFC],
        INVALID_MEMORY,
    ),
];

const NO_OLD_PRIORITY: &[Step] = &[
    Step::Call(THREAD_PRIORITY_CHANGE, [0x102, 32, 0], PTR_ERROR),
    Step::Call(THREAD_PRIORITY_CHANGE, [0x102, 32, DATA + 1], PTR_ERROR),
    Step::Call(THREAD_PRIORITY_CHANGE, [0x102, 32, DATA + 0x3FE], PTR_ERROR),
    Step::Call(
        THREAD_PRIORITY_CHANGE,
        [0x102, 32, DATA + 0x400],
        INVALID_MEMORY,
    ),
    Step::Call(
        THREAD_PRIORITY_CHANGE,
        [0x102, 32, CODE + 0xFC],
        INVALID_MEMORY,
    ),
    Step::Call(
        THREAD_PRIORITY_CHANGE,
        [0x102, 32, OTHER_DATA],
        INVALID_MEMORY,
    ),
    Step::Call(
        THREAD_PRIORITY_CHANGE,
        [0x102, 32, 0xFFFF_FFFC],
        INVALID_MEMORY,
    ),
];

const NO_OLD_SLICE: &[Step] = &[
    Step::Call(THREAD_TIME_SLICE_CHANGE, [0x102, 9, 0], PTR_ERROR),
    Step::Call(THREAD_TIME_SLICE_CHANGE, [0x102, 9, DATA + 1], PTR_ERROR),
    Step::Call(
        THREAD_TIME_SLICE_CHANGE,
        [0x102, 9, DATA + 0x3FE],
        PTR_ERROR,
    ),
    Step::Call(
        THREAD_TIME_SLICE_CHANGE,
        [0x102, 9, DATA + 0x400],
        INVALID_MEMORY,
    ),
    Step::Call(
        THREAD_TIME_SLICE_CHANGE,
        [0x102, 9, CODE + 0xFC],
        INVALID_MEMORY,
    ),
    Step::Call(
        THREAD_TIME_SLICE_CHANGE,
        [0x102, 9, OTHER_DATA],
        INVALID_MEMORY,
    ),
    Step::Call(
        THREAD_TIME_SLICE_CHANGE,
        [0x102, 9, 0xFFFF_FFFC],
        INVALID_MEMORY,
    ),
];

const KEPT: &[Step] = &[Step::Numbers(2, [15, 12, 15, 12, 3, 3])];

/// Then what is too high; no slice is.
const NO_THRESHOLDS: &[Step] = &[
    Step::Call(
        THREAD_PREEMPTION_CHANGE,
        [0x103, 16, DATA + 0x3FC],
        THRESH_ERROR,
    ),
    Step::Call(
        THREAD_PREEMPTION_CHANGE,
        [0x103, u32::MAX, DATA + 0x3FC],
        THRESH_ERROR,
    ),
];

const NO_PRIORITIES: &[Step] = &[
    Step::Call(
        THREAD_PRIORITY_CHANGE,
        [0x103, 32, DATA + 0x3FC],
        PRIORITY_ERROR,
    ),
    Step::Call(
        THREAD_PRIORITY_CHANGE,
        [0x103, u32::MAX, DATA + 0x3FC],
        PRIORITY_ERROR,
    ),
];

const SLICES: &[Step] = &[
    Step::Call(THREAD_TIME_SLICE_CHANGE, [0x103, 9, DATA + 0x3FC], SUCCESS),
    Step::Call(
        THREAD_TIME_SLICE_CHANGE,
        [0x103, u32::MAX, DATA + 0x3FC],
        SUCCESS,
    ),
];

const ONLY_A_SLICE_HAS_NO_MOST: &[Step] = &[
    Step::Words(0, DATA + 0x3FC, &[9]),
    Step::Numbers(3, [15, 12, 15, 12, u32::MAX, u32::MAX]),
];

const A_THRESHOLD_IS_CHANGED: &[Step] = &[
    Step::Call(THREAD_PREEMPTION_CHANGE, [0x102, 15, DATA], SUCCESS),
    Step::Words(0, DATA, &[12]),
    Step::Numbers(2, [15, 15, 15, 15, 3, 3]),
    Step::Call(THREAD_PREEMPTION_CHANGE, [0x102, 0, DATA], SUCCESS),
    Step::Words(0, DATA, &[15]),
    Step::Numbers(2, [15, 0, 15, 0, 3, 3]),
    Step::Call(THREAD_PREEMPTION_CHANGE, [0x102, 7, DATA], SUCCESS),
    Step::Words(0, DATA, &[0]),
    Step::Numbers(2, [15, 7, 15, 7, 3, 3]),
    Step::Call(THREAD_PREEMPTION_CHANGE, [0x102, 7, DATA], SUCCESS),
    Step::Words(0, DATA, &[7]),
    Step::Numbers(2, [15, 7, 15, 7, 3, 3]),
];

const A_THRESHOLD_HOLDS_OFF_THE_OTHERS: &[Step] = &[
    Step::Call(THREAD_PRIORITY_CHANGE, [0x102, 5, DATA], SUCCESS),
    Step::Call(THREAD_PREEMPTION_CHANGE, [MAIN, 3, DATA], SUCCESS),
    Step::Call(THREAD_RESUME, [0x102, 0, 0], SUCCESS),
    Step::Runs(Some(0)),
    Step::Call(THREAD_PREEMPTION_CHANGE, [MAIN, 5, DATA], SUCCESS),
    Step::Runs(Some(0)),
    Step::Call(THREAD_PREEMPTION_CHANGE, [MAIN, 6, DATA], SUCCESS),
    Step::Words(0, DATA, &[5]),
    Step::Runs(Some(2)),
    Step::Ready(0, true),
    Step::Holds(0, true),
    Step::Call(THREAD_PREEMPTION_CHANGE, [MAIN, 10, DATA], SUCCESS),
    Step::Ready(0, true),
    Step::Holds(0, false),
];

const A_PRIORITY_IS_CHANGED: &[Step] = &[
    Step::Call(THREAD_PRIORITY_CHANGE, [0x102, 31, DATA], SUCCESS),
    Step::Words(0, DATA, &[15]),
    Step::Numbers(2, [31, 31, 31, 31, 3, 3]),
    Step::Call(THREAD_PRIORITY_CHANGE, [0x102, 0, DATA], SUCCESS),
    Step::Words(0, DATA, &[31]),
    Step::Numbers(2, [0, 0, 0, 0, 3, 3]),
    Step::Call(THREAD_PRIORITY_CHANGE, [0x102, 15, DATA], SUCCESS),
    Step::Words(0, DATA, &[0]),
    Step::Numbers(2, [15, 15, 15, 15, 3, 3]),
    Step::Call(THREAD_PRIORITY_CHANGE, [0x102, 15, DATA], SUCCESS),
    Step::Words(0, DATA, &[15]),
    Step::Numbers(2, [15, 15, 15, 15, 3, 3]),
];

const A_THREAD_GOES_BEHIND_THOSE_OF_ITS_PRIORITY: &[Step] = &[
    Step::Call(THREAD_RESUME, [0x102, 0, 0], SUCCESS),
    Step::Call(THREAD_RESUME, [0x103, 0, 0], SUCCESS),
    Step::After(2, Some(3)),
    Step::After(3, None),
    Step::Call(THREAD_PRIORITY_CHANGE, [0x102, 15, DATA], SUCCESS),
    Step::After(2, None),
    Step::After(3, Some(2)),
    Step::Call(THREAD_PRIORITY_CHANGE, [MAIN, 16, DATA], SUCCESS),
    Step::Words(0, DATA, &[10]),
    Step::Runs(Some(3)),
    Step::Call(THREAD_PRIORITY_CHANGE, [MAIN, 11, DATA], SUCCESS),
    Step::Runs(Some(0)),
];

const A_SLICE_IS_CHANGED: &[Step] = &[
    Step::Call(THREAD_TIME_SLICE_CHANGE, [0x102, 9, DATA + 0x3FC], SUCCESS),
    Step::Words(0, DATA + 0x3FC, &[3]),
    Step::Numbers(2, [15, 12, 15, 12, 9, 9]),
    Step::Call(THREAD_TIME_SLICE_CHANGE, [0x102, 0, DATA + 0x3FC], SUCCESS),
    Step::Words(0, DATA + 0x3FC, &[9]),
    Step::Numbers(2, [15, 12, 15, 12, 0, 0]),
    Step::Call(
        THREAD_TIME_SLICE_CHANGE,
        [0x102, u32::MAX, DATA + 0x3FC],
        SUCCESS,
    ),
    Step::Words(0, DATA + 0x3FC, &[0]),
    Step::Numbers(2, [15, 12, 15, 12, u32::MAX, u32::MAX]),
    Step::Call(THREAD_TIME_SLICE_CHANGE, [0x102, 1, DATA + 0x3FC], SUCCESS),
    Step::Words(0, DATA + 0x3FC, &[u32::MAX]),
    Step::Numbers(2, [15, 12, 15, 12, 1, 1]),
];

/// The tests, each on a new board.
pub const TESTS: &[Test] = &[
    Test::Of("a thread is told", &[WORKERS, NO_PLACES, PLACES, TOLD]),
    Test::Of(
        "numbers are refused",
        &[
            WORKERS,
            NO_OLD_THRESHOLD,
            KEPT,
            NO_THRESHOLDS,
            NO_OLD_PRIORITY,
            KEPT,
            NO_PRIORITIES,
            NO_OLD_SLICE,
            KEPT,
            SLICES,
            ONLY_A_SLICE_HAS_NO_MOST,
        ],
    ),
    Test::Of(
        "a threshold is changed",
        &[
            WORKERS,
            A_THRESHOLD_IS_CHANGED,
            A_THRESHOLD_HOLDS_OFF_THE_OTHERS,
        ],
    ),
    Test::Of(
        "a priority is changed",
        &[
            WORKERS,
            A_PRIORITY_IS_CHANGED,
            A_THREAD_GOES_BEHIND_THOSE_OF_ITS_PRIORITY,
        ],
    ),
    Test::Of("a slice is changed", &[WORKERS, A_SLICE_IS_CHANGED]),
];
