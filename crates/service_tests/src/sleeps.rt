//! Threads sleep, ticks come, and waits are aborted.
//!
//! MAIN has priority 10 and a time slice of 5, thread 0x102 that of its table and a time slice of 3.

use crate::names::{
    SUCCESS, THREAD_PREEMPTION_CHANGE, THREAD_RELINQUISH, THREAD_SLEEP, THREAD_WAIT_ABORT,
    WAIT_ABORT_ERROR, WAIT_ABORTED,
};
use crate::pair::{DATA, MAIN};
use crate::states::{AT_5, AT_10, SLOTS};
use crate::steps::{Mark, Step, Test};
use tx_types::State;

/// A thread sleeps one tick, is aborted, and then the tick comes: its wait ends once.
const A_SLEEPER_IS_ABORTED: &[Step] = &[
    Step::Call(THREAD_SLEEP, [1, 0, 0], 1),
    Step::State(2, State::Sleep, Mark::None),
    Step::Waits([1, 0, 0, 0, 0, 0]),
    Step::Call(THREAD_WAIT_ABORT, [0x102, 0, 0], SUCCESS),
    Step::Register(2, 10, WAIT_ABORTED),
    Step::Runs(Some(2)),
    Step::Ticks(1),
    Step::Register(2, 10, WAIT_ABORTED),
    Step::Waits([1, 0, 0, 1, 0, 0]),
    Step::Call(THREAD_WAIT_ABORT, [0x102, 0, 0], WAIT_ABORT_ERROR),
];

/// Thread 2 is armed first, and both are due at one tick.
const TWO_ARE_DUE_AT_ONCE: &[Step] = &[
    Step::Call(THREAD_RELINQUISH, [0, 0, 0], SUCCESS),
    Step::Call(THREAD_SLEEP, [2, 0, 0], 2),
    Step::Call(THREAD_SLEEP, [2, 0, 0], 2),
    Step::Ticks(1),
    Step::Runs(Some(1)),
    Step::Ticks(1),
    Step::Runs(Some(2)),
    Step::After(2, Some(0)),
    Step::Waits([2, 0, 2, 0, 0, 0]),
];

/// Ten ticks: MAIN has five of them, thread 2 three, and MAIN two of its next slice.
const SLICES_ARE_USED_UP: &[Step] = &[
    Step::Ticks(4),
    Step::Numbers(0, [10, 10, 10, 10, 5, 1]),
    Step::Ticks(1),
    Step::Numbers(0, [10, 10, 10, 10, 5, 5]),
    Step::Runs(Some(2)),
    Step::After(2, Some(0)),
    Step::Ticks(3),
    Step::Numbers(2, [10, 10, 10, 10, 3, 3]),
    Step::Runs(Some(0)),
    Step::Ticks(2),
    Step::Numbers(0, [10, 10, 10, 10, 5, 3]),
];

/// A thread with a threshold below its priority keeps its slice; one that slept has a whole one.
const SLICES_ARE_KEPT: &[Step] = &[
    Step::Call(THREAD_PREEMPTION_CHANGE, [MAIN, 9, DATA], SUCCESS),
    Step::Ticks(7),
    Step::Numbers(0, [10, 9, 10, 9, 5, 3]),
    Step::Call(THREAD_SLEEP, [1, 0, 0], 1),
    Step::Ticks(1),
    Step::Numbers(0, [10, 9, 10, 9, 5, 5]),
];

/// The clock begins anew, and the sleeper wakes all the same.
const THE_CLOCK_GOES_ROUND: &[Step] = &[
    Step::Clock(0),
    Step::SetClock(u32::MAX - 1),
    Step::Call(THREAD_SLEEP, [2, 0, 0], 2),
    Step::Ticks(1),
    Step::Clock(u32::MAX),
    Step::State(0, State::Sleep, Mark::None),
    Step::Ticks(1),
    Step::Clock(0),
    Step::State(0, State::Ready, Mark::None),
];

/// The tests, each on a new board.
pub const TESTS: &[Test] = &[
    Test::Of("a sleeper is aborted", &[SLOTS, AT_5, A_SLEEPER_IS_ABORTED]),
    Test::Of("two are due at once", &[SLOTS, AT_10, TWO_ARE_DUE_AT_ONCE]),
    Test::Of(
        "slices are used up",
        &[SLOTS, AT_10, SLICES_ARE_USED_UP, SLICES_ARE_KEPT],
    ),
    Test::Of("the clock goes round", &[THE_CLOCK_GOES_ROUND]),
];
