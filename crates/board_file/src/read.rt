//! Reading a board file whole.
//!
//! The answer is the whole board, or why there is none: nothing comes back of a board with a wrong
//! field. The bytes are given; no file is opened, and no image is read.
ghost use Rattle.std.specs.Prelude.{◌≡◌, ◌↔◌, IfOk, IsTrue};
ghost use Rattle.toml.specs.Errors.{IsMemory};
ghost use Rattle.toml.specs.View.{table_view};
ghost use Rattle.board_file.specs.Answer.{Answers, Reads, board_in};
ghost use Rattle.board_file.specs.Board.{board_of};
ghost use Rattle.board_file.specs.Rules.{IsBoard};

use crate::board::Board;
use crate::devices::devices;
use crate::lists::BoardShares;
use crate::modules::modules;
use crate::part::Part;
use crate::refusal::BoardErr;
use crate::shows::shows;
use std::alloc::Global;
use toml::Table;

/// How many entries each list of a board may have.
const MOST_ENTRIES: usize = 16;

/// The board that a table says, or its first wrong field.
fn board(alloc: Global, file: &Table) -> Result<Board, BoardErr>
    ensures { Reads (board_of (table_view file.now)) result }
{
    let top = Part {
        alloc,
        path: "",
        fields: file,
    };
    let ram = top.number("ram", 4096, 16_777_216, 32)?;
    let steps = top.number("steps", 0, 100_000_000, 1)?;
    let module_entries = top.array("module", 1, MOST_ENTRIES)?;
    let modules = modules(alloc, module_entries)?;
    top.forbidden("share")?;
    let device_entries = top.optional_array("device", MOST_ENTRIES)?;
    let devices = devices(alloc, device_entries)?;
    let show_entries = top.optional_array("show", MOST_ENTRIES)?;
    let shows = shows(alloc, modules.items(), show_entries)?;
    top.nothing_else(&["ram", "steps", "module", "device", "show"])?;
    Ok(Board {
        ram,
        steps,
        modules,
        shares: BoardShares::new(Vec::new(alloc)),
        devices,
        shows,
    })
}

/// The board that a TOML text says. `NotToml` comes where the bytes are the text of no table, and
/// `Field` with the path of the first wrong field, in the order of the format.
#[tactic(auto, using(crate::proofs::Meaning::meaning))]
pub fn read_board(alloc: Global, bytes: &[u8]) -> Result<Board, BoardErr>
    ensures board { Answers (board_in bytes.now) result }
    ensures rules { IfOk result IsBoard }
{
    match toml::table_from_slice(alloc, bytes) {
        Ok(file) => board(alloc, &file),
        Err(err) if err.is_memory() => Err(BoardErr::NoMemory),
        Err(_) => Err(BoardErr::NotToml),
    }
}
