//! Arguments at the edges of one module's code and data.
//!
//! Pointers, names and words are asked for directly: no service is called, and there are no
//! threads.

use crate::samples::{CODE, DATA, memory};
use call_arguments::{message_at, name_at, pointer_refusal, put_word, put_words, word_at};
use region_guard::Access::{Fetch, Load, Store};
use region_guard::{Access, Guard};
use std::test::Fail;
use tx_types::{Code, ModNo};

/// A module, how the bytes at its argument are used, the argument, and how many bytes.
type Pointer = (u8, Access, u32, u32);

#[rattlefmt::skip]
const GOOD: [Pointer; 6] = [
    (0, Store, 0x8000_00A0, 4),
    (0, Store, 0x8000_01DC, 4),
    (0, Store, 0x8000_00A0, 0x140),
    (0, Load, 0x8000_01DC, 4),
    (0, Load, 0x8000_0080, 4),
    (0, Fetch, 0x8000_0080, 4),
];

#[rattlefmt::skip]
const OUTSIDE: [Pointer; 10] = [
    (0, Fetch, 0x8000_0080, 8),
    (0, Fetch, 0x8000_00A0, 4),
    (0, Store, 0x8000_0080, 4),
    (0, Store, 0x8000_009C, 8),
    (0, Store, 0x8000_01E0, 4),
    (0, Store, 0x8000_01DC, 8),
    (0, Store, 0x8000_00A0, 0xFFFF_FFFF),
    (0, Load, 0xFFFF_FFFC, 4),
    (0, Load, 0xFFFF_FFFC, 0x8000_00C0),
    (1, Load, 0x8000_00A0, 4),
];

/// Null, and not at a multiple of 4.
#[rattlefmt::skip]
const NO_POINTER: [Pointer; 5] = [
    (0, Store, 0, 4),
    (0, Fetch, 0, 0),
    (0, Store, 0x8000_00A2, 4),
    (0, Store, 0x8000_01DD, 4),
    (0, Fetch, 0x8000_0001, 4),
];

/// All of the pointers are refused so, or none is.
fn are(g: &Guard, pointers: &[Pointer], refusal: Option<Code>) -> bool {
    for (m, access, x, n) in pointers {
        if pointer_refusal(g, ModNo::new(*m % 16), *access, *x, *n) != refusal {
            return false;
        }
    }
    true
}

#[test]
fn pointers_at_the_edges_of_the_regions(rt: HostRuntime) -> Result<(), Fail> {
    let g = memory(rt.alloc(), &[CODE, DATA])?;
    let good = are(&g, &GOOD, None);
    let outside = are(&g, &OUTSIDE, Some(Code::INVALID_MEMORY));
    let none = are(&g, &NO_POINTER, Some(Code::PTR_ERROR));
    assert!(rt; good && outside && none);
    Ok(())
}

/// A module, the address of a name, and how many bytes the name has, in data that is full of letters but
/// for one zero.
#[rattlefmt::skip]
const NAMES: [(u8, u32, usize); 6] = [
    (0, 0, 0),
    (1, 0, 0),
    (0, 0x8000_0100, 0),
    (0, 0x8000_00FF, 1),
    (0, 0x8000_00E1, 31),
    (0, 0x8000_0083, 0),
];

/// Names without a zero in the 32 bytes that a name may have.
const LONG: [(u8, u32); 2] = [(0, 0x8000_00E0), (0, 0x8000_01C0)];

/// Names that come to the end of a region, or begin in none.
#[rattlefmt::skip]
const NAMES_OUTSIDE: [(u8, u32); 6] = [
    (0, 0x8000_01C1),
    (0, 0x8000_01DF),
    (0, 0x8000_01E0),
    (0, 0x8000_009F),
    (0, 0xFFFF_FFFF),
    (1, 0x8000_0100),
];

fn length(g: &Guard, m: u8, x: u32) -> Result<usize, Code> {
    match name_at(g, ModNo::new(m % 16), x) {
        Ok(name) => Ok(name.bytes().len()),
        Err(code) => Err(code),
    }
}

/// All of the names have as many bytes as they are said to have.
fn are_long(g: &Guard, names: &[(u8, u32, usize)]) -> bool {
    for (m, x, n) in names {
        if length(g, *m, *x) != Ok(*n) {
            return false;
        }
    }
    true
}

/// All of the names are refused so.
fn are_refused(g: &Guard, names: &[(u8, u32)], refusal: Code) -> bool {
    for (m, x) in names {
        if length(g, *m, *x) != Err(refusal) {
            return false;
        }
    }
    true
}

/// The data is full of letters, but for one zero.
fn is_lettered(g: &mut Guard) -> bool {
    let m = ModNo::new(0);
    let all = g.with_window(m, 0x8000_00A0, 0x140, |w| w.fill(b'n'));
    let one = g.with_window(m, 0x8000_0100, 1, |w| w.fill(0));
    all.is_some() && one.is_some()
}

#[test]
fn names_up_to_their_zero(rt: HostRuntime) -> Result<(), Fail> {
    let mut g = memory(rt.alloc(), &[CODE, DATA])?;
    let lettered = is_lettered(&mut g);
    let names = are_long(&g, &NAMES);
    let long = are_refused(&g, &LONG, Code::PTR_ERROR);
    let outside = are_refused(&g, &NAMES_OUTSIDE, Code::INVALID_MEMORY);
    assert!(rt; lettered && names && long && outside);
    Ok(())
}

/// The word at an address, where module 0 may load it.
fn word(g: &Guard, a: u32) -> Option<u32> {
    let m = ModNo::new(0);
    if g.may(m, Load, a, 4) {
        Some(word_at(g, m, a))
    } else {
        None
    }
}

/// The name at an address is this text.
fn is_named(g: &Guard, x: u32, text: &[u8]) -> bool {
    name_at(g, ModNo::new(0), x).is_ok_and(|n| n.bytes() == text)
}

/// Addresses, and the words that are stored there.
const WORDS: [(u32, u32); 4] = [
    (0x8000_01D0, 0),
    (0x8000_01D4, 0x6867_6968),
    (0x8000_01D8, 7),
    (0x8000_01DC, 0x0077_6F6C),
];

/// Three words are put, and read back.
fn are_put(g: &mut Guard) -> bool {
    let m = ModNo::new(0);
    if g.may(m, Store, 0x8000_01D4, 12) {
        put_words(g, m, 0x8000_01D4, &[0x6867_6968, 7, 0x0077_6F6C]);
    }
    for (a, w) in WORDS {
        if word(g, a) != Some(w) {
            return false;
        }
    }
    true
}

/// The words are a name, and with one more word a longer one.
fn are_names(g: &mut Guard) -> bool {
    let m = ModNo::new(0);
    let low = is_named(g, 0x8000_01DC, b"low");
    if g.may(m, Store, 0x8000_01D8, 4) {
        put_word(g, m, 0x8000_01D8, 0x2072_6F20);
    }
    low && is_named(g, 0x8000_01D4, b"high or low")
}

#[test]
fn words_are_read_back_and_as_a_name(rt: HostRuntime) -> Result<(), Fail> {
    let mut g = memory(rt.alloc(), &[CODE, DATA])?;
    assert!(rt; are_put(&mut g) && are_names(&mut g));
    Ok(())
}

/// Addresses, and the two words of the message there: of the three words above, and of the bytes
/// 67, 68, 07, 00 and 00, 00, 6C, 6F in their midst.
const MESSAGES: [(u32, [u32; 2]); 3] = [
    (0x8000_01D4, [0x6867_6968, 7]),
    (0x8000_01D8, [7, 0x0077_6F6C]),
    (0x8000_01D6, [0x0007_6867, 0x6F6C_0000]),
];

/// The message at an address has these two words.
fn is_message(g: &Guard, a: u32, words: &[u32]) -> bool {
    let m = ModNo::new(0);
    g.may(m, Load, a, 8) && message_at(g, m, a, 2).words() == words
}

#[test]
fn messages_are_words_in_order(rt: HostRuntime) -> Result<(), Fail> {
    let mut g = memory(rt.alloc(), &[CODE, DATA])?;
    assert!(rt; are_put(&mut g));
    for (a, words) in MESSAGES {
        assert!(rt; is_message(&g, a, &words));
    }
    Ok(())
}
