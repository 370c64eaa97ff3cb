//! Reading a log: the one history whose text the bytes are, or the first bad line.
//!
//! A line is read by guessing its entry from its digits and comparing the line of that entry with
//! the bytes, so nothing but the exact line is ever accepted.
ghost use Rattle.std.specs.Prelude.{◌≡◌, ◌≢◌, ℕ, List, ◌+◌, ◌<◌, ◌≤◌, ◌^◌, ◌∷◌, ◌++◌, [], Some, IfOk, IfErr, IfSome, MatchOption, IsTrue, ◌↔◌, ◌==◌, position, length, take, All};
ghost use Rattle.std.specs.Str.Parse.{AllDigits, digits_value};
ghost use Rattle.event_log.specs.Log.{IsEntry, IsHistory, steps_in};
ghost use Rattle.event_log.specs.LogIn.{log_in};
ghost use Rattle.event_log.specs.Reading.{Answers, IsReadAs, IsRefusedAt};
ghost use Rattle.event_log.specs.Text.{line_of, numbers_of, Ends, GoesOn, IsLogText, IsBadLine, TellsBadLine};
ghost use Rattle.tx_types.specs.Limits.{device_limit, interrupt_limit};
ghost use Rattle.event_log.specs.declared.entry.Entry.{Entry};
ghost use Rattle.event_log.specs.declared.entry.Entry.TheVariants.{Irq};

use crate::MOST_IRQS;
use crate::entry::{Entry, entry_line};
use crate::history::History;
use board_values::DevNo;
use std::alloc::Global;
use tx_types::Line;

/// Why bytes are no log: there is no memory for it, or the line with this number, from 1, is the
/// first bad one.
#[derive(Clone, Copy, Debug, PartialEq, Eq)]
pub enum LogErr {
    NoMemory,
    BadLine(u32),
}

impl From<tx_types::NoMemory> for LogErr {
    ghost use Rattle.std.specs.Prelude.{◌≡◌};
    ghost use Rattle.event_log.specs.declared.reading.LogErr.TheVariants.{NoMemory};

    ghost from_gives = { λ e r. r ≡ NoMemory };

    fn from(_error: tx_types::NoMemory) -> LogErr {
        LogErr::NoMemory
    }
}

/// The history whose text the bytes are, on a board with the given number of devices, with room for
/// 65,536 interrupts.
pub fn read_log(alloc: Global, bytes: &[u8], devices: u8) -> Result<History, LogErr>
    requires { devices ≤ device_limit }
    ensures good { IfOk result (λ h. IsLogText devices h.entries bytes.now) }
    ensures room { IfOk result (λ h. h.irqs ≡ interrupt_limit) }
    ensures bad { IfErr result (TellsBadLine devices bytes.now) }
    ensures means { Answers (log_in devices bytes.now) result }
    ensures each_history { (es : List Entry) → IsLogText devices es bytes.now → IsReadAs es result }
    ensures each_bad_line { (line : ℕ) →
        IsBadLine devices line bytes.now → IsRefusedAt line result }
{
    read_lines(alloc, bytes, devices)
}

/// Reads line by line, up to the first bad one.
fn read_lines(alloc: Global, bytes: &[u8], devices: u8) -> Result<History, LogErr>
    requires { devices ≤ device_limit }
    ensures good { IfOk result (λ h. IsLogText devices h.entries bytes.now) }
    ensures room { IfOk result (λ h. h.irqs ≡ interrupt_limit) }
    ensures bad { IfErr result (TellsBadLine devices bytes.now) }
{
    let mut history = History::reserve(alloc, MOST_IRQS)?;
    let mut rest = bytes;
    while !rest.is_empty() {
        match next_entry(&history, rest, devices) {
            Some((e, n)) => {
                history.add(e);
                rest = &rest[n..];
            }
            None => return Err(LogErr::BadLine(history.len() + 1)),
        }
    }
    Ok(history)
}

/// The number that digits of a radix write, where it is a word.
fn number(digits: &[u8], radix: u32) -> u32
    requires low { 2 ≤ radix }
    requires high { radix ≤ 16 }
    ensures { AllDigits radix digits.now → digits_value radix digits.now < 2 ^ 32
        → result ≡ digits_value radix digits.now }
{
    let mut n = 0u32;
    for digit in digits {
        let value = (*digit as char).to_digit(radix).unwrap_or(0);
        n = n.wrapping_mul(radix).wrapping_add(value);
    }
    n
}

/// The interrupt that the numbers of a line may be.
fn irq_guess(numbers: &[u8]) -> Option<Entry>
    ensures { (d w : ℕ) → d < device_limit → w < 2 ^ 32 → numbers.now ≡ numbers_of (Irq d w)
        → result ≡ Some (Irq d w) }
{
    if numbers.len() < 9 {
        return None;
    }
    let at = numbers.len() - 8;
    let d = number(&numbers[..at - 1], 10);
    let w = number(&numbers[at..], 16);
    if d < 16 {
        Some(Entry::Irq(DevNo::new(d as u8), w))
    } else {
        None
    }
}

/// The entry that a line may be.
fn guess(line: &[u8]) -> Option<Entry>
    ensures { (e : Entry) → IsEntry device_limit e → steps_in e < 2 ^ 32 → line.now ≡ line_of e
        → result ≡ Some e }
{
    if line.len() < 3 {
        return None;
    }
    let numbers = &line[2..line.len() - 1];
    match line[0] {
        b'S' => Some(Entry::Steps(number(numbers, 10))),
        b'I' => irq_guess(numbers),
        _ => None,
    }
}

/// The entry whose line this is.
fn line_entry(line: &[u8], devices: u8) -> Option<Entry>
    requires { devices ≤ device_limit }
    ensures some { IfSome result (λ e. IsEntry devices e × (line.now ≡ line_of e)) }
    ensures found { (e : Entry) → IsEntry devices e → steps_in e < 2 ^ 32 → line.now ≡ line_of e
        → result ≡ Some e }
{
    let e = guess(line)?;
    if e.is_of(devices) && is_line_of(e, line) {
        Some(e)
    } else {
        None
    }
}

/// Whether this is the line of an entry.
fn is_line_of(e: Entry, line: &[u8]) -> bool
    ensures { IsTrue result ↔ (line.now ≡ line_of e) }
{
    let mut text = Line::new();
    entry_line(e, &mut text);
    let exact = text.as_str().as_bytes();
    line == exact
}

/// The length of the line that a text begins with, its newline included.
fn line_len(text: &[u8]) -> usize
    ensures within { result ≤ length text.now }
    ensures line { (fields more : List ℕ) → All (λ b. b ≢ 10) fields
        → text.now ≡ fields ++ 10 ∷ more → result ≡ length fields + 1 }
{
    match newline(text) {
        Some(i) => i + 1,
        None => text.len(),
    }
}

/// The place of the first newline.
fn newline(text: &[u8]) -> Option<usize>
    ensures { result ≡ position (λ b. b == 10) text.now }
{
    text.iter().position(|b| *b == b'\n')
}

/// The entry of the line that a text begins with, where it may come next, and that line's length.
fn next_entry(history: &History, text: &[u8], devices: u8) -> Option<(Entry, usize)>
    requires { devices ≤ device_limit }
    ensures { MatchOption result (Ends devices history.now.entries text.now)
        (λ p. GoesOn devices history.now.entries text.now p.0 p.1) }
{
    let n = line_len(text);
    let e = line_entry(&text[..n], devices)?;
    if history.may_add(&e) {
        Some((e, n))
    } else {
        None
    }
}
