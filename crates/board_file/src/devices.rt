//! The devices of a board file, read in their order.
//!
//! All scripts together have at most 65,536 words; what is left of these goes along.
ghost use Rattle.std.specs.Prelude.{◌≡◌, ◌+◌, ◌*◌, ◌≤◌, [], codes, length, nat_le, option_map, IfOk};
ghost use Rattle.toml.specs.View.{view, array_view};
ghost use Rattle.tx_types.specs.Limits.{interrupt_limit};
ghost use Rattle.board_file.specs.Answer.{Reads, ReadsAs};
ghost use Rattle.board_file.specs.Board.{action_named, action_of, device_of, names_device, repeated, script_within, script_words, target_of};
ghost use Rattle.board_file.specs.Field.{required, named, name_unless, words_in, words_of, entries, entry_after};
ghost use Rattle.board_file.specs.Path.{key_path};
ghost use Rattle.board_file.specs.Part.{part_view, entries_view};

use crate::board::{Action, BoardDevice};
use crate::fields;
use crate::lists::{BoardDevices, Script};
use crate::part::{Part, entry_path, table_at};
use crate::refusal::BoardErr;
use std::alloc::{AllocError, Global};
use toml::Value;
use toml::value::Array;
use tx_types::Name;

/// How many words the scripts of a board may have together.
const MOST_WORDS: usize = 65536;

/// Whether one of the devices has a name.
fn names_device(devices: &[BoardDevice], name: &str) -> bool
    ensures { result ≡ names_device devices.now name.now }
{
    devices.iter().any(|d| name.as_bytes() == d.name.bytes())
}

/// The name of a device, which none of these has.
fn device_name(part: &Part, earlier: &[BoardDevice]) -> Result<Name, BoardErr>
    ensures { Reads (required (name_unless (names_device earlier.now)) (part_view part.now)
        (codes "name")) result }
{
    match part.name_text("name") {
        Some(text) if !names_device(earlier, text) => Ok(Name::from_bytes(text.as_bytes())),
        _ => Err(part.wrong("name")),
    }
}

/// The action of a word; `tick` and `resume` are those so far.
fn action_named(text: &str) -> Option<Action>
    ensures { result ≡ action_named text.now }
{
    if text == "tick" {
        Some(Action::Tick)
    } else if text == "resume" {
        Some(Action::Resume)
    } else {
        None
    }
}

/// The action that a value names.
fn action_of(value: &Value) -> Option<Action>
    ensures { result ≡ action_of (view value.now) }
{
    match value.as_str() {
        Some(text) => action_named(text),
        None => None,
    }
}

/// The words that an array has, where each of its entries is one.
fn words_in(alloc: Global, array: &Array) -> Result<Option<Vec<u32>>, AllocError>
    ensures { IfOk result (λ o. option_map (λ ws. ws.items) o ≡ words_in (array_view array.now)) }
{
    let mut words = Vec::new(alloc);
    for value in array {
        match fields::in_range(value, 0, u32::MAX, 1) {
            Some(word) => words.push(word)?,
            None => return Ok(None),
        }
    }
    Ok(Some(words))
}

/// The words of a script, once.
fn words(part: &Part) -> Result<Vec<u32>, BoardErr>
    ensures { ReadsAs (λ ws. ws.items)
        (required words_of (part_view part.now) (codes "script")) result }
{
    let array = match part.field("script") {
        Some(value) => value.as_array(),
        None => None,
    };
    let words = match array {
        Some(array) => words_in(part.alloc, array)?,
        None => None,
    };
    match words {
        Some(words) => Ok(words),
        None => Err(part.wrong("script")),
    }
}

/// The words the given number of times over.
fn repeated(alloc: Global, words: &[u32], n: u32) -> Result<Vec<u32>, AllocError>
    ensures { IfOk result (λ all. all.items ≡ repeated n words.now) }
{
    let mut all = Vec::new(alloc);
    for _turn in 0..n {
        all.extend_from_slice(words)?;
    }
    Ok(all)
}

/// Whether the words the given number of times over, beside these, are no more than all scripts may
/// have.
fn fits(words: &[u32], n: u32, before: usize) -> bool
    requires { before ≤ interrupt_limit }
    ensures { result ≡ nat_le (before + n * length words.now) interrupt_limit }
{
    match words.len().checked_mul(n as usize) {
        Some(more) => more <= MOST_WORDS - before,
        None => false,
    }
}

/// A script, beside the given number of words of the scripts before it.
fn script(part: &Part, words: &[u32], n: u32, before: usize) -> Result<Script, BoardErr>
    requires { before ≤ interrupt_limit }
    ensures script { Reads (named (key_path (part_view part.now).path (codes "script"))
        (script_within before n words.now)) result }
    ensures fits { IfOk result (λ s. before + length s ≤ interrupt_limit) }
{
    if fits(words, n, before) {
        Ok(Script::new(repeated(part.alloc, words, n)?))
    } else {
        Err(part.wrong("script"))
    }
}

/// The action of a device.
fn action(part: &Part) -> Result<Action, BoardErr>
    ensures { Reads (required action_of (part_view part.now) (codes "action")) result }
{
    let action = match part.field("action") {
        Some(value) => action_of(value),
        None => None,
    };
    match action {
        Some(action) => Ok(action),
        None => Err(part.wrong("action")),
    }
}

/// The target of an action. A tick has none, and is refused where one stands there.
fn target(part: &Part, action: Action) -> Result<Name, BoardErr>
    ensures { Reads (target_of action (part_view part.now)) result }
{
    match action {
        Action::Tick => {
            part.forbidden("target")?;
            Ok(Name::empty())
        }
        _ => part.name("target"),
    }
}

/// A device, where these come before it, whose scripts have the given number of words.
fn device(part: &Part, earlier: &[BoardDevice], before: usize) -> Result<BoardDevice, BoardErr>
    requires words { before ≡ script_words earlier.now }
    requires most { before ≤ interrupt_limit }
    ensures device { Reads (device_of (part_view part.now) earlier.now) result }
    ensures fits { IfOk result (λ d. before + length d.script ≤ interrupt_limit) }
{
    let name = device_name(part, earlier)?;
    let action = action(part)?;
    let target = target(part, action)?;
    let words = words(part)?;
    let repeat = part.number_or("repeat", 1, 1, 65536, 1)?;
    let script = script(part, &words, repeat, before)?;
    part.nothing_else(&["name", "action", "target", "script", "repeat"])?;
    Ok(BoardDevice {
        name,
        action,
        target,
        script,
    })
}

/// The device that an entry is, where these come before it, whose scripts have the given number of
/// words.
fn device_entry(
    alloc: Global,
    value: &Value,
    earlier: &[BoardDevice],
    before: usize,
) -> Result<BoardDevice, BoardErr>
    requires words { before ≡ script_words earlier.now }
    requires most { before ≤ interrupt_limit }
    ensures device { Reads (entry_after device_of (codes "device") earlier.now (view value.now))
        result }
    ensures fits { IfOk result (λ d. before + length d.script ≤ interrupt_limit) }
{
    let path = entry_path(alloc, "device", earlier.len())?;
    let part = table_at(alloc, path.as_str(), value)?;
    device(&part, earlier, before)
}

/// The devices that the entries of an array are.
fn device_entries(alloc: Global, array: &Array) -> Result<Vec<BoardDevice>, BoardErr>
    ensures { ReadsAs (λ v. v.items)
        (entries device_of (codes "device") [] (array_view array.now)) result }
{
    let mut devices = Vec::new(alloc);
    let mut words = 0;
    for value in array {
        let read = device_entry(alloc, value, &devices, words)?;
        words += read.script.items().len();
        devices.push(read)?;
    }
    Ok(devices)
}

/// The devices of the entries of an array; none where there is no array.
pub(crate) fn devices(alloc: Global, array: Option<&Array>) -> Result<BoardDevices, BoardErr>
    ensures { Reads (entries device_of (codes "device") [] (entries_view array.entry)) result }
{
    match array {
        Some(array) => Ok(BoardDevices::new(device_entries(alloc, array)?)),
        None => Ok(BoardDevices::new(Vec::new(alloc))),
    }
}
