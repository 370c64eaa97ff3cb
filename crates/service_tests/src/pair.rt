//! Two modules that have a ready thread each.
//!
//! Each test of a service is played on a new board of them. No image is loaded, and no instruction is
//! executed.

use crate::board::{Area, Board, Running};
use crate::steps::{Test, play};
use crate::{calls, create, numbers, objects, sleeps, states};
use region_guard::Rights;
use std::alloc::Global;
use std::process::Abort;
use std::test::Fail;

/// Module 0's code: 0x80000000 to 0x800000FF.
pub const CODE: u32 = 0x8000_0000;

/// Module 0's data: 0x80000100 to 0x800004FF.
pub const DATA: u32 = 0x8000_0100;

/// Module 1's code: 0x80000500 to 0x800005FF.
pub const OTHER_CODE: u32 = 0x8000_0500;

/// Module 1's data: 0x80000600 to 0x800009FF.
pub const OTHER_DATA: u32 = 0x8000_0600;

/// The reference to module 0's first thread: priority and threshold 10, slice 5. It runs first.
pub const MAIN: u32 = 0x100;

/// The reference to module 1's first thread: priority and threshold 20, slice 5.
pub const OTHER: u32 = 0x101;

/// Where the block of a thread stands that MAIN creates, and its name.
pub const BLOCK: u32 = DATA + 0x20;

pub const NAME: u32 = DATA + 0x40;

/// The block: entry, input, stack, size, priority, threshold, slice, auto.
pub const WORDS: [u32; 8] = [CODE + 0x80, 7, DATA + 0x204, 70, 15, 12, 3, 0];

const AREAS: [Area; 4] = [
    (CODE, 0x100, Rights::Code, 1),
    (DATA, 0x400, Rights::ReadWrite, 1),
    (OTHER_CODE, 0x100, Rights::Code, 2),
    (OTHER_DATA, 0x400, Rights::ReadWrite, 2),
];

const RUNNING: [Running; 2] = [
    (0, CODE + 0x84, DATA, 10),
    (1, OTHER_CODE + 0x84, OTHER_DATA, 20),
];

/// Both modules' threads are ready, and MAIN runs.
pub fn board(alloc: Global) -> Result<Board, Fail> {
    Board::of_threads(alloc, &AREAS, &RUNNING)
}

/// Each test goes right, on a new board.
fn play_each(rt: &impl Abort, alloc: Global, tests: &[Test]) -> Result<(), Fail> {
    for test in tests {
        let mut b = board(alloc)?;
        play(rt, &mut b, test);
    }
    Ok(())
}

#[test]
fn services_answer_as_told(rt: HostRuntime) -> Result<(), Fail> {
    for tests in [
        objects::TESTS,
        create::TESTS,
        numbers::TESTS,
        states::TESTS,
        sleeps::TESTS,
        calls::TESTS,
    ] {
        play_each(&rt, rt.alloc(), tests)?;
    }
    Ok(())
}
