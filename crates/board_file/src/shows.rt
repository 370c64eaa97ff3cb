//! The shows of a board file, read in their order.
//!
//! A show names one of the modules that were read before it. Whether its words lie in that module's
//! data region isn't asked here.
ghost use Rattle.std.specs.Prelude.{◌≡◌, ◌≤◌, [], codes, length, position};
ghost use Rattle.std.specs.Str.{bytes_eq};
ghost use Rattle.toml.specs.View.{view, array_view};
ghost use Rattle.tx_types.specs.Limits.{module_limit};
ghost use Rattle.board_file.specs.Answer.{Reads, ReadsAs};
ghost use Rattle.board_file.specs.Board.{module_in, show_of};
ghost use Rattle.board_file.specs.Field.{required, entries, entry_after};
ghost use Rattle.board_file.specs.Part.{part_view, entries_view};

use crate::board::{BoardModule, BoardShow};
use crate::lists::BoardShows;
use crate::part::{Part, entry_path, table_at};
use crate::refusal::BoardErr;
use std::alloc::Global;
use toml::Value;
use toml::value::Array;
use tx_types::ModNo;

/// The place of the module of a name.
fn place(modules: &[BoardModule], name: &str) -> Option<usize>
    ensures { result ≡ position (λ m. bytes_eq name.now m.name) modules.now }
{
    modules
        .iter()
        .position(|m| name.as_bytes() == m.name.bytes())
}

/// The module that a field names.
fn module_in(modules: &[BoardModule], value: &Value) -> Option<ModNo>
    requires { length modules.now ≤ module_limit }
    ensures { result ≡ module_in modules.now (view value.now) }
{
    match place(modules, value.as_str()?) {
        Some(place) => Some(ModNo::new(place as u8)),
        None => None,
    }
}

/// The module of a show.
fn shown_module(part: &Part, modules: &[BoardModule]) -> Result<ModNo, BoardErr>
    requires { length modules.now ≤ module_limit }
    ensures { Reads (required (module_in modules.now) (part_view part.now) (codes "module"))
        result }
{
    let module = match part.field("module") {
        Some(value) => module_in(modules, value),
        None => None,
    };
    match module {
        Some(m) => Ok(m),
        None => Err(part.wrong("module")),
    }
}

/// A show of one of these modules.
fn show(part: &Part, modules: &[BoardModule]) -> Result<BoardShow, BoardErr>
    requires { length modules.now ≤ module_limit }
    ensures { Reads (show_of modules.now (part_view part.now)) result }
{
    let module = shown_module(part, modules)?;
    let offset = part.number("offset", 0, 16_777_212, 4)?;
    let words = part.number("words", 1, 64, 1)?;
    part.nothing_else(&["module", "offset", "words"])?;
    Ok(BoardShow {
        module,
        offset,
        words,
    })
}

/// The show that an entry is, where these come before it.
fn show_entry(
    alloc: Global,
    modules: &[BoardModule],
    value: &Value,
    earlier: &[BoardShow],
) -> Result<BoardShow, BoardErr>
    requires { length modules.now ≤ module_limit }
    ensures { Reads (entry_after (λ part _. show_of modules.now part) (codes "show") earlier.now
        (view value.now)) result }
{
    let path = entry_path(alloc, "show", earlier.len())?;
    let part = table_at(alloc, path.as_str(), value)?;
    show(&part, modules)
}

/// The shows that the entries of an array are.
fn show_entries(
    alloc: Global,
    modules: &[BoardModule],
    array: &Array,
) -> Result<Vec<BoardShow>, BoardErr>
    requires { length modules.now ≤ module_limit }
    ensures { ReadsAs (λ v. v.items) (entries (λ part _. show_of modules.now part) (codes "show") []
        (array_view array.now)) result }
{
    let mut shows = Vec::new(alloc);
    for value in array {
        shows.push(show_entry(alloc, modules, value, &shows)?)?;
    }
    Ok(shows)
}

/// The shows of the entries of an array; none where there is no array.
pub(crate) fn shows(
    alloc: Global,
    modules: &[BoardModule],
    array: Option<&Array>,
) -> Result<BoardShows, BoardErr>
    requires { length modules.now ≤ module_limit }
    ensures { Reads (entries (λ part _. show_of modules.now part) (codes "show") []
        (entries_view array.entry)) result }
{
    match array {
        Some(array) => Ok(BoardShows::new(show_entries(alloc, modules, array)?)),
        None => Ok(BoardShows::new(Vec::new(alloc))),
    }
}
