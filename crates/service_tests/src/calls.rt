//! The number of a call: those that name no service.
//!
//! Such a call changes the caller's a0 and nothing else that is looked at here: other registers, a
//! word of memory, and who runs.

use crate::names::FEATURE_NOT_ENABLED;
use crate::pair::DATA;
use crate::steps::{Step, Test};

/// Numbers below, between and above those of the services, and two whose low byte is one of theirs.
const NO_SERVICES: &[u32] = &[0x00, 0x05, 0x0F, 0x92, 0xFF, 0x117, 0x100_0001, u32::MAX];

/// The caller's a0 alone changes.
const REFUSED: &[Step] = &[
    Step::Sets(5, 9),
    Step::Each(NO_SERVICES, [1, DATA, DATA], FEATURE_NOT_ENABLED),
    Step::Register(0, 5, 9),
    Step::Register(0, 11, DATA),
    Step::Words(0, DATA, &[0]),
    Step::Runs(Some(0)),
];

/// The tests, each on a new board.
pub const TESTS: &[Test] = &[Test::Of("a number without a row is refused", &[REFUSED])];
