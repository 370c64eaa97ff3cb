//! Threads are created: each refusal in its order, and what a created thread is.
//!
//! What is created is read from the kernel; no instruction is executed, so no thread uses its
//! stack.

use crate::names::{
    INVALID_MEMORY, OBJECT_ALLOCATE, PRIORITY_ERROR, PTR_ERROR, SIZE_ERROR, START_ERROR, SUCCESS,
    THREAD_CREATE, THREAD_ERROR, THREAD_SUSPEND, THRESH_ERROR,
};
use crate::pair::{BLOCK, CODE, DATA, MAIN, NAME, OTHER, OTHER_CODE, OTHER_DATA, WORDS};
use crate::steps::{Mark, Step, Test};
use object_grants::SlotState;
use tx_types::State;

/// Where words of the block stand.
const ENTRY: u32 = BLOCK;

const STACK: u32 = BLOCK + 8;

const SIZE: u32 = BLOCK + 12;

const PRIORITY: u32 = BLOCK + 16;

const THRESHOLD: u32 = BLOCK + 20;

const AUTO: u32 = BLOCK + 28;

/// MAIN allocates a thread's slot 2 and a semaphore's slot 3, and writes the block and the name.
const PREPARED: &[Step] = &[
    Step::Call(OBJECT_ALLOCATE, [1, DATA, 0], SUCCESS),
    Step::Call(OBJECT_ALLOCATE, [3, DATA, 0], SUCCESS),
    Step::Put(0, BLOCK, &WORDS),
    Step::PutName(0, NAME, b"worker"),
];

/// A name without an end in 32 bytes, and one that ends with the data.
const LONG_NAMES: &[Step] = &[
    Step::PutName(0, DATA + 0x80, &[b'n'; 32]),
    Step::PutName(0, DATA + 0x3FF, b"n"),
];

/// A reference, a name, a block, and the answer: what is no Empty slot for a thread.
const NO_SLOTS: &[Step] = &[
    Step::Call(THREAD_CREATE, [0, NAME, BLOCK], THREAD_ERROR),
    Step::Call(THREAD_CREATE, [MAIN, NAME, BLOCK], THREAD_ERROR),
    Step::Call(THREAD_CREATE, [OTHER, NAME, BLOCK], THREAD_ERROR),
    Step::Call(THREAD_CREATE, [0x103, DATA + 0x80, 0], THREAD_ERROR),
    Step::Call(THREAD_CREATE, [0x202, NAME, BLOCK], THREAD_ERROR),
];

/// Then the name.
const NO_NAMES: &[Step] = &[
    Step::Call(THREAD_CREATE, [0x102, DATA + 0x80, 0], PTR_ERROR),
    Step::Call(THREAD_CREATE, [0x102, DATA + 0x3FF, BLOCK], INVALID_MEMORY),
    Step::Call(THREAD_CREATE, [0x102, OTHER_DATA, 0], INVALID_MEMORY),
];

/// Then where the block stands.
const NO_BLOCKS: &[Step] = &[
    Step::Call(THREAD_CREATE, [0x102, NAME, 0], PTR_ERROR),
    Step::Call(THREAD_CREATE, [0x102, NAME, BLOCK + 2], PTR_ERROR),
    Step::Call(THREAD_CREATE, [0x102, NAME, DATA + 0x3E4], INVALID_MEMORY),
    Step::Call(THREAD_CREATE, [0x102, NAME, DATA + 0x400], INVALID_MEMORY),
    Step::Call(THREAD_CREATE, [0x102, NAME, OTHER_DATA], INVALID_MEMORY),
    Step::Call(THREAD_CREATE, [0x102, NAME, CODE + 0xE4], INVALID_MEMORY),
    Step::Call(THREAD_CREATE, [0x102, NAME, 0xFFFF_FFE0], INVALID_MEMORY),
    Step::Call(THREAD_CREATE, [0x102, NAME, CODE + 0xE0], PTR_ERROR),
];

const STILL_EMPTY: &[Step] = &[
    Step::Slot(2, SlotState::Empty, 1, 0, 0),
    Step::Slot(3, SlotState::Empty, 1, 0, 0),
];

const A_FOREIGN_EMPTY_SLOT_IS_REFUSED: &[Step] = &[
    Step::Call(THREAD_SUSPEND, [MAIN, 0, 0], SUCCESS),
    Step::Put(1, OTHER_DATA, &WORDS),
    Step::Call(THREAD_CREATE, [0x102, 0, OTHER_DATA], THREAD_ERROR),
    Step::Slot(2, SlotState::Empty, 1, 0, 0),
];

const ENTRIES: &[Step] = &[
    Step::Create([(ENTRY, 0), (SIZE, 0)], PTR_ERROR),
    Step::Create([(ENTRY, CODE + 0x82), (SIZE, 0)], PTR_ERROR),
    Step::Create([(ENTRY, CODE + 0x81), (AUTO, 0)], PTR_ERROR),
    Step::Create([(ENTRY, CODE + 0x100), (SIZE, 0)], INVALID_MEMORY),
    Step::Create([(ENTRY, DATA), (AUTO, 0)], INVALID_MEMORY),
    Step::Create([(ENTRY, OTHER_CODE), (AUTO, 0)], INVALID_MEMORY),
    Step::Create([(ENTRY, 0xFFFF_FFFC), (AUTO, 0)], INVALID_MEMORY),
];

const SIZES: &[Step] = &[
    Step::Create([(SIZE, 63), (STACK, 0)], SIZE_ERROR),
    Step::Create([(SIZE, 0), (PRIORITY, 32)], SIZE_ERROR),
];

const STACKS: &[Step] = &[
    Step::Create([(STACK, 0), (PRIORITY, 32)], PTR_ERROR),
    Step::Create([(STACK, DATA + 0x205), (AUTO, 0)], PTR_ERROR),
    Step::Create([(STACK, CODE), (PRIORITY, 32)], INVALID_MEMORY),
    Step::Create([(STACK, DATA + 0x3BC), (AUTO, 0)], INVALID_MEMORY),
    Step::Create([(STACK, DATA + 0x400), (AUTO, 0)], INVALID_MEMORY),
    Step::Create([(STACK, OTHER_DATA), (AUTO, 0)], INVALID_MEMORY),
    Step::Create([(STACK, 0xFFFF_FFC0), (SIZE, 64)], INVALID_MEMORY),
    Step::Create([(SIZE, u32::MAX), (AUTO, 0)], INVALID_MEMORY),
];

const NUMBERS: &[Step] = &[
    Step::Create([(PRIORITY, 32), (THRESHOLD, 33)], PRIORITY_ERROR),
    Step::Create([(PRIORITY, u32::MAX), (AUTO, 0)], PRIORITY_ERROR),
    Step::Create([(THRESHOLD, 16), (AUTO, 2)], THRESH_ERROR),
    Step::Create([(THRESHOLD, u32::MAX), (AUTO, 0)], THRESH_ERROR),
    Step::Create([(AUTO, 2), (AUTO, 2)], START_ERROR),
    Step::Create([(AUTO, u32::MAX), (AUTO, u32::MAX)], START_ERROR),
];

const NOT_CREATED: &[Step] = &[Step::Slot(2, SlotState::Empty, 1, 0, 0), Step::Name(2, b"")];

const CREATED: &[Step] = &[
    Step::Call(THREAD_CREATE, [0x102, NAME, BLOCK], SUCCESS),
    Step::Call(THREAD_CREATE, [0x102, NAME, BLOCK], THREAD_ERROR),
    Step::Slot(2, SlotState::Live, 1, 0, 0),
    Step::Name(2, b"worker"),
    Step::State(2, State::Suspended, Mark::Fresh),
    Step::Ready(2, false),
    Step::Numbers(2, [15, 12, 15, 12, 3, 3]),
    Step::Runs(Some(0)),
    Step::Module(2, 0),
    Step::Opening(2, CODE + 0x84, [DATA + 0x240, DATA, CODE + 0x80, 7]),
];

/// A name of 31 bytes, a block at the data's end and a stack at the data's end.
const THE_FURTHEST: &[Step] = &[
    Step::PutName(0, DATA + 0x81, &[b'n'; 31]),
    Step::Put(
        0,
        DATA + 0x3E0,
        &[CODE + 0xFC, 0, DATA + 0x3C0, 64, 31, 31, 0, 0],
    ),
    Step::Put(0, DATA + 0x3C0, &[CODE, 0, DATA, 0x400, 0, 0, u32::MAX, 0]),
    Step::Call(THREAD_CREATE, [0x102, DATA + 0x81, DATA + 0x3E0], SUCCESS),
    Step::Name(2, &[b'n'; 31]),
    Step::Numbers(2, [31, 31, 31, 31, 0, 0]),
    Step::Register(2, 2, DATA + 0x400),
];

/// No name, the code's first word, a stack of all the data, and the lowest numbers.
const THE_LOWEST: &[Step] = &[
    Step::Call(OBJECT_ALLOCATE, [1, DATA, 0], SUCCESS),
    Step::Call(THREAD_CREATE, [0x104, 0, DATA + 0x3C0], SUCCESS),
    Step::Name(4, b""),
    Step::Numbers(4, [0, 0, 0, 0, u32::MAX, u32::MAX]),
    Step::Runs(Some(0)),
];

const STARTED_BEHIND_THE_CALLER: &[Step] = &[
    Step::Put(0, BLOCK + 28, &[1]),
    Step::Call(THREAD_CREATE, [0x102, NAME, BLOCK], SUCCESS),
    Step::State(2, State::Ready, Mark::None),
    Step::Ready(2, true),
    Step::Holds(2, false),
    Step::Runs(Some(0)),
];

const STARTED_BEFORE_THE_CALLER: &[Step] = &[
    Step::Call(OBJECT_ALLOCATE, [1, DATA, 0], SUCCESS),
    Step::Put(0, BLOCK + 16, &[9, 9]),
    Step::Call(THREAD_CREATE, [0x104, 0, BLOCK], SUCCESS),
    Step::State(4, State::Ready, Mark::None),
    Step::Numbers(4, [9, 9, 9, 9, 3, 3]),
    Step::Runs(Some(4)),
    Step::Ready(0, true),
    Step::Holds(0, false),
];

/// The tests, each on a new board.
pub const TESTS: &[Test] = &[
    Test::Of(
        "arguments are refused",
        &[
            PREPARED,
            LONG_NAMES,
            NO_SLOTS,
            NO_NAMES,
            NO_BLOCKS,
            STILL_EMPTY,
        ],
    ),
    Test::Of(
        "a foreign empty slot is refused",
        &[PREPARED, A_FOREIGN_EMPTY_SLOT_IS_REFUSED],
    ),
    Test::Of(
        "blocks are refused",
        &[PREPARED, ENTRIES, SIZES, STACKS, NUMBERS, NOT_CREATED],
    ),
    Test::Of("a created thread is suspended", &[PREPARED, CREATED]),
    Test::Of(
        "names and ranges at their edges",
        &[PREPARED, THE_FURTHEST, THE_LOWEST],
    ),
    Test::Of(
        "a created thread starts at once",
        &[
            PREPARED,
            STARTED_BEHIND_THE_CALLER,
            STARTED_BEFORE_THE_CALLER,
        ],
    ),
];
