//! Object slots are allocated, freed and found by name.
//!
//! The objects that are found are threads; slots for other kinds are allocated, and no object is
//! created in them.

use crate::names::{
    CALLER_ERROR, INVALID_MEMORY, NO_INSTANCE, NO_MEMORY, OBJECT_ALLOCATE, OBJECT_DEALLOCATE,
    OBJECT_POINTER_GET, OPTION_ERROR, PTR_ERROR, SUCCESS, THREAD_CREATE, THREAD_DELETE,
    THREAD_ERROR, THREAD_RESUME, THREAD_SUSPEND,
};
use crate::pair::{BLOCK, CODE, DATA, MAIN, OTHER, OTHER_CODE, OTHER_DATA, WORDS};
use crate::steps::{Mark, Step, Test};
use object_grants::SlotState;
use tx_types::State;

/// A kind, where to write the reference, nothing, and the answer: what is no kind.
const NO_KINDS: &[Step] = &[
    Step::Call(OBJECT_ALLOCATE, [0, DATA, 0], OPTION_ERROR),
    Step::Call(OBJECT_ALLOCATE, [9, DATA, 0], OPTION_ERROR),
    Step::Call(OBJECT_ALLOCATE, [u32::MAX, DATA, 0], OPTION_ERROR),
    Step::Call(OBJECT_ALLOCATE, [0, 0, 0], OPTION_ERROR),
];

/// Then where the reference can't be written.
const NO_PLACES: &[Step] = &[
    Step::Call(OBJECT_ALLOCATE, [1, 0, 0], PTR_ERROR),
    Step::Call(OBJECT_ALLOCATE, [1, DATA + 2, 0], PTR_ERROR),
    Step::Call(OBJECT_ALLOCATE, [1, DATA + 0x3FF, 0], PTR_ERROR),
    Step::Call(OBJECT_ALLOCATE, [1, CODE, 0], INVALID_MEMORY),
    Step::Call(OBJECT_ALLOCATE, [1, CODE + 0xFC, 0], INVALID_MEMORY),
    Step::Call(OBJECT_ALLOCATE, [1, DATA + 0x400, 0], INVALID_MEMORY),
    Step::Call(OBJECT_ALLOCATE, [1, OTHER_DATA, 0], INVALID_MEMORY),
    Step::Call(OBJECT_ALLOCATE, [1, 0xFFFF_FFFC, 0], INVALID_MEMORY),
];

const FREE: &[Step] = &[Step::Slot(2, SlotState::Free, 0, 0, 0)];

const SLOTS_ARE_ALLOCATED: &[Step] = &[
    Step::Words(0, DATA, &[0]),
    Step::Call(OBJECT_ALLOCATE, [1, DATA, 0], SUCCESS),
    Step::Call(OBJECT_ALLOCATE, [8, DATA + 0x3FC, 0], SUCCESS),
    Step::Words(0, DATA, &[0x102]),
    Step::Words(0, DATA + 0x3FC, &[0x103]),
    Step::Slot(2, SlotState::Empty, 1, 0, 0),
    Step::Slot(3, SlotState::Empty, 1, 0, 0),
];

const ALL_SLOTS: &[Step] = &[Step::Slots(2, 256)];

const NO_SLOT_IS_LEFT: &[Step] = &[
    Step::Call(OBJECT_ALLOCATE, [4, DATA, 0], NO_MEMORY),
    Step::Call(OBJECT_ALLOCATE, [4, 0, 0], PTR_ERROR),
    Step::Call(OBJECT_ALLOCATE, [0, DATA, 0], OPTION_ERROR),
    Step::Words(0, DATA, &[0x1FF]),
    Step::Call(OBJECT_DEALLOCATE, [0x1C8, 0, 0], SUCCESS),
    Step::Call(OBJECT_ALLOCATE, [1, DATA, 0], SUCCESS),
    Step::Words(0, DATA, &[0x2C8]),
];

const NO_EMPTY_SLOTS: &[Step] = &[
    Step::Call(OBJECT_DEALLOCATE, [0, 0, 0], PTR_ERROR),
    Step::Call(OBJECT_DEALLOCATE, [0x102, 0, 0], PTR_ERROR),
    Step::Call(OBJECT_DEALLOCATE, [MAIN, 0, 0], PTR_ERROR),
    Step::Call(OBJECT_DEALLOCATE, [OTHER, 0, 0], PTR_ERROR),
];

const A_SLOT_IS_FREED: &[Step] = &[
    Step::Slot(0, SlotState::Live, 1, 0, 0),
    Step::Call(OBJECT_ALLOCATE, [2, DATA, 0], SUCCESS),
    Step::Call(OBJECT_DEALLOCATE, [0x202, 0, 0], PTR_ERROR),
    Step::Slot(2, SlotState::Empty, 1, 0, 0),
    Step::Call(OBJECT_DEALLOCATE, [0x102, 0, 0], SUCCESS),
    Step::Slot(2, SlotState::Free, 1, 0, 0),
    Step::Call(OBJECT_DEALLOCATE, [0x102, 0, 0], PTR_ERROR),
];

const A_SLOT_IS_FREED_BY_ITS_OWNER: &[Step] = &[
    Step::Call(OBJECT_ALLOCATE, [3, DATA, 0], SUCCESS),
    Step::Words(0, DATA, &[0x202]),
    Step::Call(OBJECT_DEALLOCATE, [0x102, 0, 0], PTR_ERROR),
    Step::Call(THREAD_SUSPEND, [MAIN, 0, 0], SUCCESS),
    Step::Runs(Some(1)),
    Step::Call(OBJECT_DEALLOCATE, [0x202, 0, 0], PTR_ERROR),
    Step::Call(OBJECT_ALLOCATE, [3, OTHER_DATA, 0], SUCCESS),
    Step::Slot(3, SlotState::Empty, 1, 1, 0),
    Step::Call(OBJECT_DEALLOCATE, [0x103, 0, 0], SUCCESS),
    Step::Slot(3, SlotState::Free, 1, 0, 0),
];

/// Module 1's name of module 0's threads, and what has no end in 32 bytes.
const SOUGHT: u32 = OTHER_DATA + 0x40;

const ENDLESS: u32 = OTHER_DATA + 0x80;

/// Module 0 has two threads of one name, and module 1's thread runs.
const NAMESAKES: &[Step] = &[
    Step::Put(0, BLOCK, &WORDS),
    Step::PutName(0, DATA + 0x40, b"worker"),
    Step::Call(OBJECT_ALLOCATE, [1, DATA, 0], SUCCESS),
    Step::Call(THREAD_CREATE, [0x102, DATA + 0x40, BLOCK], SUCCESS),
    Step::Call(OBJECT_ALLOCATE, [1, DATA, 0], SUCCESS),
    Step::Call(THREAD_CREATE, [0x103, DATA + 0x40, BLOCK], SUCCESS),
    Step::Call(THREAD_SUSPEND, [MAIN, 0, 0], SUCCESS),
];

const NAMES: &[Step] = &[
    Step::PutName(1, SOUGHT, b"worker"),
    Step::PutName(1, SOUGHT + 0x20, b"work"),
    Step::PutName(1, ENDLESS, &[b'n'; 32]),
    Step::PutName(1, OTHER_DATA + 0x3FF, b"n"),
];

/// A kind, a name, where to write the reference, and the answer: what is no kind or no name.
const NO_NAMES: &[Step] = &[
    Step::Call(OBJECT_POINTER_GET, [0, SOUGHT, OTHER_DATA], OPTION_ERROR),
    Step::Call(OBJECT_POINTER_GET, [9, ENDLESS, 0], OPTION_ERROR),
    Step::Call(OBJECT_POINTER_GET, [1, ENDLESS, 0], PTR_ERROR),
    Step::Call(OBJECT_POINTER_GET, [1, DATA + 0x40, 0], INVALID_MEMORY),
    Step::Call(
        OBJECT_POINTER_GET,
        [1, OTHER_DATA + 0x3FF, OTHER_DATA],
        INVALID_MEMORY,
    ),
    Step::Call(
        OBJECT_POINTER_GET,
        [1, 0xFFFF_FFFF, OTHER_DATA],
        INVALID_MEMORY,
    ),
];

/// Then where the reference can't be written.
const NO_PLACES_FOR_THE_FOUND: &[Step] = &[
    Step::Call(OBJECT_POINTER_GET, [2, SOUGHT, 0], PTR_ERROR),
    Step::Call(OBJECT_POINTER_GET, [1, SOUGHT, OTHER_DATA + 2], PTR_ERROR),
    Step::Call(OBJECT_POINTER_GET, [1, SOUGHT, OTHER_CODE], INVALID_MEMORY),
    Step::Call(
        OBJECT_POINTER_GET,
        [1, SOUGHT, OTHER_DATA + 0x400],
        INVALID_MEMORY,
    ),
    Step::Call(OBJECT_POINTER_GET, [1, SOUGHT, 0xFFFF_FFFC], INVALID_MEMORY),
];

/// Then what has another kind or name.
const NOT_FOUND: &[Step] = &[
    Step::Call(OBJECT_POINTER_GET, [2, SOUGHT, OTHER_DATA], NO_INSTANCE),
    Step::Call(
        OBJECT_POINTER_GET,
        [1, SOUGHT + 0x20, OTHER_DATA],
        NO_INSTANCE,
    ),
    Step::Call(OBJECT_POINTER_GET, [1, SOUGHT + 1, OTHER_DATA], NO_INSTANCE),
    Step::Call(OBJECT_POINTER_GET, [2, 0, OTHER_DATA], NO_INSTANCE),
];

const FOUND: &[Step] = &[
    Step::Words(1, OTHER_DATA, &[0]),
    Step::Slot(2, SlotState::Live, 1, 0, 0),
    Step::Call(THREAD_RESUME, [0x102, 0, 0], THREAD_ERROR),
    Step::Call(OBJECT_POINTER_GET, [1, SOUGHT, OTHER_DATA], SUCCESS),
    Step::Words(1, OTHER_DATA, &[0x102]),
    Step::Slot(2, SlotState::Live, 1, 0, 2),
    Step::Slot(3, SlotState::Live, 1, 0, 0),
    Step::Call(THREAD_DELETE, [0x102, 0, 0], CALLER_ERROR),
    Step::Call(THREAD_RESUME, [0x102, 0, 0], SUCCESS),
    Step::State(2, State::Ready, Mark::None),
];

const FOUND_WITHOUT_A_NAME: &[Step] = &[
    Step::Call(OBJECT_POINTER_GET, [1, 0, DATA + 0x3FC], SUCCESS),
    Step::Words(0, DATA + 0x3FC, &[MAIN]),
    Step::Slot(0, SlotState::Live, 1, 0, 1),
    Step::Call(THREAD_SUSPEND, [MAIN, 0, 0], SUCCESS),
    Step::Call(OBJECT_POINTER_GET, [1, OTHER_CODE, OTHER_DATA], SUCCESS),
    Step::Words(1, OTHER_DATA, &[MAIN]),
    Step::Slot(0, SlotState::Live, 1, 0, 3),
    Step::Call(THREAD_RESUME, [MAIN, 0, 0], SUCCESS),
    Step::Runs(Some(0)),
];

/// The tests, each on a new board.
pub const TESTS: &[Test] = &[
    Test::Of(
        "slots are allocated",
        &[NO_KINDS, FREE, NO_PLACES, FREE, SLOTS_ARE_ALLOCATED],
    ),
    Test::Of("all slots are taken", &[ALL_SLOTS, NO_SLOT_IS_LEFT]),
    Test::Of(
        "slots are freed",
        &[
            NO_EMPTY_SLOTS,
            A_SLOT_IS_FREED,
            A_SLOT_IS_FREED_BY_ITS_OWNER,
        ],
    ),
    Test::Of(
        "objects are found by name",
        &[
            NAMESAKES,
            NAMES,
            NO_NAMES,
            NO_PLACES_FOR_THE_FOUND,
            NOT_FOUND,
            FOUND,
        ],
    ),
    Test::Of(
        "no name finds the lowest object without one",
        &[FOUND_WITHOUT_A_NAME],
    ),
];
