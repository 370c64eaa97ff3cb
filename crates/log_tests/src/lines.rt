//! The lines of entries, at the limits of their digits, and texts made of them.
//!
//! Only the printing of a line is tested here; the reading is tested with the logs.
use board_values::DevNo;
use event_log::{Entry, History, entry_line};
use std::process::Abort;
use tx_types::Line;

/// What is left of a text after the lines of a history, where it begins with them.
pub fn after_lines<'a>(h: &History, text: &'a str) -> Option<&'a str> {
    let mut rest = text;
    for i in 0..h.len() {
        let mut line = Line::new();
        entry_line(h.entry(i), &mut line);
        rest = rest.strip_prefix(line.as_str())?;
    }
    Some(rest)
}

/// The given number of steps, or an interrupt of a device with a word; and the line.
enum Row {
    Steps(u32, &'static str),
    Irq(u8, u32, &'static str),
}

const ROWS: [Row; 8] = [
    Row::Steps(1, "S 1\n"),
    Row::Steps(9, "S 9\n"),
    Row::Steps(10, "S 10\n"),
    Row::Steps(100_000_000, "S 100000000\n"),
    Row::Irq(0, 0, "I 0 00000000\n"),
    Row::Irq(9, 0x0123_4567, "I 9 01234567\n"),
    Row::Irq(10, 0x89AB_CDEF, "I 10 89abcdef\n"),
    Row::Irq(15, 0xFFFF_FFFF, "I 15 ffffffff\n"),
];

/// The entry of a row, and its line.
fn entry_of(row: &Row) -> (Entry, &'static str) {
    match row {
        Row::Steps(n, line) => (Entry::Steps(*n), line),
        Row::Irq(d, w, line) => (Entry::Irq(DevNo::new(*d % 16), *w), line),
    }
}

/// The line of each entry is its text, after what stands on the line.
fn follow_what_stands(rt: &impl Abort, rows: &[Row]) {
    for row in rows {
        let (e, text) = entry_of(row);
        let mut line = Line::new();
        line.push_str("> ");
        entry_line(e, &mut line);
        assert_eq!(rt; line.as_str().strip_prefix("> "), Some(text));
    }
}

#[test]
fn lines_at_the_limits_of_their_digits(rt: HostRuntime) {
    follow_what_stands(&rt, &ROWS);
}
