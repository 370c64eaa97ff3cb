//! The modules of a board file, read in their order.
//!
//! No two modules have the same name, and the first wrong field ends the reading. The file of an
//! image is only named: it is never opened here.
ghost use Rattle.std.specs.Prelude.{◌≡◌, ◌≤◌, [], codes, length, vec_len, IfOk};
ghost use Rattle.toml.specs.View.{view, array_view};
ghost use Rattle.tx_types.specs.Limits.{module_limit};
ghost use Rattle.board_file.specs.Answer.{Reads};
ghost use Rattle.board_file.specs.Board.{module_of, names_module};
ghost use Rattle.board_file.specs.Field.{required, name_unless, entries, entry_after};
ghost use Rattle.board_file.specs.Part.{part_view};

use crate::board::BoardModule;
use crate::lists::BoardModules;
use crate::part::{Part, entry_path, table_at};
use crate::refusal::BoardErr;
use std::alloc::Global;
use toml::Value;
use toml::value::Array;
use tx_types::Name;

/// Whether one of the modules has a name.
fn names_module(modules: &[BoardModule], name: &str) -> bool
    ensures { result ≡ names_module modules.now name.now }
{
    modules.iter().any(|m| name.as_bytes() == m.name.bytes())
}

/// The name of a module, which none of these has.
fn module_name(part: &Part, earlier: &[BoardModule]) -> Result<Name, BoardErr>
    ensures { Reads (required (name_unless (names_module earlier.now)) (part_view part.now)
        (codes "name")) result }
{
    match part.name_text("name") {
        Some(text) if !names_module(earlier, text) => Ok(Name::from_bytes(text.as_bytes())),
        _ => Err(part.wrong("name")),
    }
}

/// A module, where these come before it.
fn module(part: &Part, earlier: &[BoardModule]) -> Result<BoardModule, BoardErr>
    ensures { Reads (module_of (part_view part.now) earlier.now) result }
{
    let name = module_name(part, earlier)?;
    let image = part.text("image", 255)?;
    let start = part.flag("start")?;
    part.nothing_else(&["name", "image", "start"])?;
    Ok(BoardModule { name, image, start })
}

/// The module that an entry is, where these come before it.
fn module_entry(
    alloc: Global,
    value: &Value,
    earlier: &[BoardModule],
) -> Result<BoardModule, BoardErr>
    ensures { Reads (entry_after module_of (codes "module") earlier.now (view value.now)) result }
{
    let path = entry_path(alloc, "module", earlier.len())?;
    let part = table_at(alloc, path.as_str(), value)?;
    module(&part, earlier)
}

/// The modules that the entries of an array are.
pub(crate) fn modules(alloc: Global, array: &Array) -> Result<BoardModules, BoardErr>
    requires { vec_len array.now ≤ module_limit }
    ensures modules { Reads (entries module_of (codes "module") [] (array_view array.now)) result }
    ensures most { IfOk result (λ ms. length ms ≤ module_limit) }
{
    let mut modules = Vec::new(alloc);
    for value in array {
        modules.push(module_entry(alloc, value, &modules)?)?;
    }
    Ok(BoardModules::new(modules))
}
