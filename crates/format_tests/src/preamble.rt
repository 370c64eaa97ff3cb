//! Images made by hand from one accepted module, each with a word or two changed, or cut or grown.
//!
//! Each row has the refusal of the first rule that its image breaks, or none. No image is placed or
//! executed.

use byteorder::{ByteOrder, LittleEndian};
use module_preamble::PreErr::{
    BadCode, BadData, BadEntry, BadId, BadMajor, BadPrio, BadProps, BadSize, BadStack, Short,
};
use module_preamble::{PreErr, Preamble, read};
use std::process::Abort;

/// A preamble of 32 words, one instruction, and a word more for an image that is grown.
const MODULE: [u32; 34] = [
    0x4D4F_4455,
    6,
    0,
    32,
    1,
    3,
    128,
    128,
    0,
    10,
    256,
    0,
    0,
    0,
    132,
    64,
    0,
    0,
    0,
    0,
    0,
    0,
    0,
    0,
    0,
    0,
    0,
    0,
    0,
    0,
    0,
    0,
    0x0070_0293,
    0,
];

/// The first bytes of the module with two words changed.
fn image(changes: [(usize, u32); 2]) -> [u8; 136] {
    let mut words = MODULE;
    for (i, w) in changes {
        if let Some(word) = words.get_mut(i) {
            *word = w;
        }
    }
    let mut bytes = [0u8; 136];
    LittleEndian::write_u32_into(&words, &mut bytes);
    bytes
}

#[test]
fn reads_the_words(rt: HostRuntime) {
    let bytes = image([NONE, NONE]);
    let bytes = bytes.get(..132).expect(&rt, "a length up to 136");
    let want = Preamble {
        id: 0x4D4F_4455,
        major: 6,
        minor: 0,
        words: 32,
        app: 1,
        props: 3,
        shell: 128,
        start: 128,
        stop: 0,
        start_prio: 10,
        start_stack: 256,
        callback: 0,
        callback_prio: 0,
        callback_stack: 0,
        code_size: 132,
        data_size: 64,
    };
    assert_eq!(rt; read(bytes), Ok(want));
    assert!(rt; !want.has_callback());
}

/// A refusal has this name, number and word.
fn has(e: PreErr, name: &str, number: Option<u32>, word: Option<u32>) -> bool {
    e.name() == name && e.number() == number && e.word() == word
}

#[test]
fn names_the_refusals(rt: HostRuntime) {
    let short = has(Short(127), "Short", Some(127), None);
    let id = has(BadId(0x4D4F_4456), "BadId", None, Some(0x4D4F_4456));
    let entry = has(BadEntry(3, 132), "BadEntry", Some(3), Some(132));
    assert!(rt; short && id && entry);
}

#[test]
fn refuses_by_the_first_broken_rule(rt: HostRuntime) {
    let rules: [&[Case]; 10] = [
        &LENGTH,
        &ID,
        &VERSION,
        &SIZE,
        &PROPERTIES,
        &CODE,
        &DATA,
        &ENTRIES,
        &PRIORITIES,
        &STACKS,
    ];
    for cases in rules {
        refused_as_told(&rt, cases);
    }
}

/// The length of an image, the place and the value of each changed word, and the refusal.
enum Case {
    As(usize, Option<PreErr>),
    One(usize, usize, u32, Option<PreErr>),
    Two(usize, usize, u32, usize, u32, Option<PreErr>),
}

/// No change: the module's number is 1 as it was.
const NONE: (usize, u32) = (4, 1);

/// The length of a case's image, two words of it, and its refusal.
fn parts(case: &Case) -> (usize, [(usize, u32); 2], Option<PreErr>) {
    match *case {
        Case::As(len, refusal) => (len, [NONE, NONE], refusal),
        Case::One(len, i, w, refusal) => (len, [(i, w), NONE], refusal),
        Case::Two(len, i, w, j, v, refusal) => (len, [(i, w), (j, v)], refusal),
    }
}

/// Reading the image of each case is refused so, or it isn't.
fn refused_as_told(rt: &impl Abort, cases: &[Case]) {
    for case in cases {
        let (len, changes, refusal) = parts(case);
        let bytes = image(changes);
        let bytes = bytes.get(..len).expect(rt, "a length up to 136");
        assert_eq!(rt; read(bytes).err(), refusal, "{len} bytes with {changes:?}");
    }
}

const LENGTH: [Case; 7] = [
    Case::As(132, None),
    Case::As(0, Some(Short(0))),
    Case::As(127, Some(Short(127))),
    Case::One(127, 0, 0, Some(Short(127))),
    Case::As(128, Some(BadCode(132))),
    Case::As(136, Some(BadCode(132))),
    Case::One(136, 14, 136, None),
];

const ID: [Case; 3] = [
    Case::One(132, 0, 0x4D4F_4454, Some(BadId(0x4D4F_4454))),
    Case::Two(132, 0, 0x4D4F_4456, 1, 9, Some(BadId(0x4D4F_4456))),
    Case::One(132, 0, 0x5544_4F4D, Some(BadId(0x5544_4F4D))),
];

const VERSION: [Case; 5] = [
    Case::One(132, 1, 0, Some(BadMajor(0))),
    Case::One(132, 1, 1, None),
    Case::One(132, 1, 7, Some(BadMajor(7))),
    Case::Two(132, 1, 7, 3, 31, Some(BadMajor(7))),
    Case::One(132, 2, 0xFFFF_FFFF, None),
];

const SIZE: [Case; 4] = [
    Case::One(132, 3, 31, Some(BadSize(31))),
    Case::One(132, 3, 33, Some(BadSize(33))),
    Case::Two(132, 3, 128, 5, 0, Some(BadSize(128))),
    Case::One(132, 4, 0xFFFF_FFFF, None),
];

const PROPERTIES: [Case; 8] = [
    Case::One(132, 5, 0, Some(BadProps(0))),
    Case::One(132, 5, 1, Some(BadProps(1))),
    Case::One(132, 5, 2, Some(BadProps(2))),
    Case::One(132, 5, 7, None),
    Case::One(132, 5, 0xFFFF_FFFF, None),
    Case::One(132, 5, 0xFFFF_FFFE, Some(BadProps(0xFFFF_FFFE))),
    Case::One(132, 5, 0xFFFF_FFFD, Some(BadProps(0xFFFF_FFFD))),
    Case::Two(132, 5, 0, 14, 128, Some(BadProps(0))),
];

const CODE: [Case; 5] = [
    Case::One(128, 14, 128, Some(BadEntry(0, 128))),
    Case::One(132, 14, 128, Some(BadCode(128))),
    Case::One(132, 14, 136, Some(BadCode(136))),
    Case::One(133, 14, 133, Some(BadCode(133))),
    Case::Two(132, 14, 128, 15, 1_048_577, Some(BadCode(128))),
];

const DATA: [Case; 4] = [
    Case::One(132, 15, 0, None),
    Case::One(132, 15, 1_048_576, None),
    Case::One(132, 15, 1_048_577, Some(BadData(1_048_577))),
    Case::Two(132, 15, 1_048_577, 6, 0, Some(BadData(1_048_577))),
];

const ENTRIES: [Case; 16] = [
    Case::One(132, 6, 0, Some(BadEntry(0, 0))),
    Case::One(132, 6, 124, Some(BadEntry(0, 124))),
    Case::One(132, 6, 129, Some(BadEntry(0, 129))),
    Case::One(132, 6, 132, Some(BadEntry(0, 132))),
    Case::Two(136, 6, 132, 14, 136, None),
    Case::Two(132, 6, 0, 7, 0, Some(BadEntry(0, 0))),
    Case::One(132, 7, 0, Some(BadEntry(1, 0))),
    Case::One(132, 7, 124, Some(BadEntry(1, 124))),
    Case::One(132, 7, 130, Some(BadEntry(1, 130))),
    Case::Two(132, 7, 132, 8, 132, Some(BadEntry(1, 132))),
    Case::One(132, 8, 128, None),
    Case::One(132, 8, 124, Some(BadEntry(2, 124))),
    Case::One(132, 8, 131, Some(BadEntry(2, 131))),
    Case::Two(132, 8, 132, 11, 132, Some(BadEntry(2, 132))),
    Case::One(132, 11, 1, Some(BadEntry(3, 1))),
    Case::Two(132, 11, 132, 9, 32, Some(BadEntry(3, 132))),
];

const PRIORITIES: [Case; 7] = [
    Case::One(132, 9, 0, None),
    Case::One(132, 9, 31, None),
    Case::One(132, 9, 32, Some(BadPrio(0, 32))),
    Case::Two(132, 9, 32, 10, 63, Some(BadPrio(0, 32))),
    Case::Two(132, 11, 128, 12, 31, Some(BadStack(1, 0))),
    Case::Two(132, 11, 128, 12, 32, Some(BadPrio(1, 32))),
    Case::One(132, 12, 32, None),
];

const STACKS: [Case; 10] = [
    Case::One(132, 10, 63, Some(BadStack(0, 63))),
    Case::Two(132, 10, 63, 11, 128, Some(BadStack(0, 63))),
    Case::One(132, 10, 64, None),
    Case::One(132, 10, 65_536, None),
    Case::One(132, 10, 65_537, Some(BadStack(0, 65_537))),
    Case::Two(132, 11, 128, 13, 63, Some(BadStack(1, 63))),
    Case::Two(132, 11, 128, 13, 64, None),
    Case::Two(132, 11, 128, 13, 65_536, None),
    Case::Two(132, 11, 128, 13, 65_537, Some(BadStack(1, 65_537))),
    Case::One(132, 13, 65_537, None),
];
