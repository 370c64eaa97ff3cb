//! Logs that are read and come back, and the first bad line of those that break a rule.
//!
//! A log is a text in memory: no file is opened, and no event is made.
use crate::lines::after_lines;
use event_log::{LogErr, read_log};
use std::alloc::{AllocError, Global};
use std::process::Abort;
use std::test::Fail;

/// A piece the given number of times, and then an end.
fn repeated(alloc: Global, piece: &str, times: u32, end: &str) -> Result<String, AllocError> {
    let mut text = String::new(alloc);
    for _ in 0..times {
        text.push_str(piece)?;
    }
    text.push_str(end)?;
    Ok(text)
}

/// The number of entries that reading a log answers; a log that doesn't come back has a bad line 0.
fn entries_in(alloc: Global, text: &str, devices: u8) -> Result<u32, LogErr> {
    let log = read_log(alloc, text.as_bytes(), devices % 17)?;
    match after_lines(&log, text) {
        Some("") => Ok(log.len()),
        _ => Err(LogErr::BadLine(0)),
    }
}

/// A log of three devices with the given number of entries, or with that first bad line.
enum Row {
    Good(&'static str, u32),
    Bad(&'static str, u32),
}

const GOOD: [Row; 8] = [
    Row::Good("", 0),
    Row::Good("S 1\n", 1),
    Row::Good("S 100000000\n", 1),
    Row::Good("I 2 00000005\n", 1),
    Row::Good("S 10\nI 0 00000000\n", 2),
    Row::Good("I 0 00000000\nS 10\n", 2),
    Row::Good("I 1 ffffffff\nI 0 89abcdef\nS 7\n", 3),
    Row::Good("S 1\nI 2 00000001\nS 99999999\nI 2 00000001\n", 4),
];

const STEPS: [Row; 11] = [
    Row::Bad("S 0\n", 1),
    Row::Bad("S 01\n", 1),
    Row::Bad("S +1\n", 1),
    Row::Bad("S -1\n", 1),
    Row::Bad("S 1a\n", 1),
    Row::Bad("S \n", 1),
    Row::Bad("S\n", 1),
    Row::Bad("S 100000001\n", 1),
    Row::Bad("S 4294967297\n", 1),
    Row::Bad("S 1\nS 2\n", 2),
    Row::Bad("S 99999999\nI 0 00000000\nS 2\n", 3),
];

const GAPS: [Row; 11] = [
    Row::Bad("\n", 1),
    Row::Bad("S 1\n\n", 2),
    Row::Bad("S 1", 1),
    Row::Bad("S 1\nI 0 00000000", 2),
    Row::Bad("S 1\r\n", 1),
    Row::Bad("I 0 00000000\r\n", 1),
    Row::Bad("S  1\n", 1),
    Row::Bad("S\t1\n", 1),
    Row::Bad(" S 1\n", 1),
    Row::Bad("S 1 \n", 1),
    Row::Bad("S 1 2\n", 1),
];

const INTERRUPTS: [Row; 10] = [
    Row::Bad("I 9 00000000\n", 1),
    Row::Bad("I 3 00000000\n", 1),
    Row::Bad("I 00 00000000\n", 1),
    Row::Bad("I 0  00000000\n", 1),
    Row::Bad("I  00000000\n", 1),
    Row::Bad("I 0\n", 1),
    Row::Bad("I 0 0000000A\n", 1),
    Row::Bad("I 0 0000000\n", 1),
    Row::Bad("I 0 000000000\n", 1),
    Row::Bad("I 0 00000000\nI 0 0000000g\nS 0\n", 2),
];

const LETTERS: [Row; 3] = [
    Row::Bad("s 1\n", 1),
    Row::Bad("i 0 00000000\n", 1),
    Row::Bad("W 0 0 0\n", 1),
];

/// Each text is read as its row says.
fn read_as_told(rt: &impl Abort, alloc: Global, rows: &[Row]) {
    for row in rows {
        let (text, read) = match row {
            Row::Good(text, entries) => (text, Ok(*entries)),
            Row::Bad(text, line) => (text, Err(LogErr::BadLine(*line))),
        };
        assert_eq!(rt; entries_in(alloc, text, 3), read, "{text:?}");
    }
}

#[test]
fn a_log_comes_back_or_its_first_bad_line_is_named(rt: HostRuntime) {
    let rules: [&[Row]; 5] = [&GOOD, &STEPS, &GAPS, &INTERRUPTS, &LETTERS];
    for rows in rules {
        read_as_told(&rt, rt.alloc(), rows);
    }
}

/// A log of 16 devices, a piece the given number of times and an end, with the given number of
/// entries or that first bad line.
enum Long {
    Good(&'static str, u32, &'static str, u32),
    Bad(&'static str, u32, &'static str, u32),
}

/// Steps and an interrupt.
const PAIR: &str = "S 1525\nI 15 ffffffff\n";

const LIMITS: [Long; 9] = [
    Long::Good("", 0, "S 100000000\n", 1),
    Long::Bad("", 0, "S 100000001\n", 1),
    Long::Bad("I 16 00000000\n", 1, "", 1),
    Long::Good("I 15 ffffffff\n", 65_536, "", 65_536),
    Long::Good("I 15 ffffffff\n", 65_536, "S 100000000\n", 65_537),
    Long::Bad("I 15 ffffffff\n", 65_537, "", 65_537),
    Long::Good(PAIR, 65_536, "S 57600\n", 131_073),
    Long::Bad(PAIR, 65_536, "S 57601\n", 131_073),
    Long::Bad(PAIR, 65_536, "S 1\nI 0 00000000\n", 131_074),
];

/// What reading a long log answers, and what it should.
fn read_long(
    alloc: Global,
    row: &Long,
) -> Result<(Result<u32, LogErr>, Result<u32, LogErr>), AllocError> {
    let (piece, times, end, read) = match row {
        Long::Good(piece, times, end, entries) => (piece, times, end, Ok(*entries)),
        Long::Bad(piece, times, end, line) => (piece, times, end, Err(LogErr::BadLine(*line))),
    };
    let text = repeated(alloc, piece, *times, end)?;
    Ok((entries_in(alloc, text.as_str(), 16), read))
}

#[test]
fn logs_at_their_limits(rt: HostRuntime) -> Result<(), Fail> {
    for row in &LIMITS {
        let (read, wanted) = read_long(rt.alloc(), row)?;
        assert_eq!(rt; read, wanted);
    }
    Ok(())
}

#[test]
fn a_log_of_four_megabytes_ends_in_its_bad_line(rt: HostRuntime) -> Result<(), Fail> {
    let mut text = repeated(rt.alloc(), PAIR, 65_536, "S ")?;
    text.push_str(repeated(rt.alloc(), "1", 2_818_045, "\n")?.as_str())?;
    let read = entries_in(rt.alloc(), text.as_str(), 16);
    assert_eq!(rt;
        (text.len(), read),
        (4_194_304, Err(LogErr::BadLine(131_073)))
    );
    Ok(())
}
