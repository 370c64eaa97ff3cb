//! The shows of a report: words of the modules' data regions.
//!
//! A word is read where it lies in its module's data region, and nowhere else.
ghost use Rattle.std.specs.Prelude.{◌≡◌, ◌+◌, ◌<◌, ◌≤◌, length, IfOk};
ghost use Rattle.module_manager.specs.Modules.{module_at};
ghost use Rattle.board_file.specs.Rules.{IsBoard, IsShow};
ghost use Rattle.board_core.specs.Boot.{regions_of};
ghost use Rattle.board_core.specs.Report.{rows_below, show_cell, show_cells, show_row};

use crate::report_rows::put;
use board_file::{Board, BoardShow};
use board_values::{Rows, ShowCells, ShowRow, ShowRows};
use call_arguments::word_at;
use module_loader::want_of;
use module_manager::Manager;
use region_guard::Guard;
use std::alloc::Global;
use tx_types::{ModNo, NoMemory};

/// The word at an offset of a module's data region. None exactly where it isn't in it.
#[tactic(auto, using(crate::proofs::DataWords::data_is_loaded), unfolding(crate::specs::Report::show_cell))]
fn show_cell(guard: &Guard, modules: &Manager, m: ModNo, at: u32) -> Option<u32>
    requires row { m < length modules.now }
    requires offset { at ≤ 16777464 }
    requires regions { guard.now.regions ≡ regions_of 0 modules.now }
    ensures { result ≡ show_cell guard.now (module_at modules.now m) at }
{
    let row = modules.row(m);
    if at + 4 <= want_of(&row.preamble).data_bytes {
        Some(word_at(guard, m, row.placed.data_base + at))
    } else {
        None
    }
}

/// The words of a show.
#[tactic(auto, using(crate::proofs::Lists::rows_below_none, crate::proofs::Lists::rows_below_more))]
fn show_cells(
    alloc: Global,
    guard: &Guard,
    modules: &Manager,
    show: &BoardShow,
) -> Result<ShowCells, NoMemory>
    requires show { IsShow (length modules.now) show.now }
    requires regions { guard.now.regions ≡ regions_of 0 modules.now }
    ensures { IfOk result (λ cells. cells ≡ show_cells guard.now modules.now show.now) }
{
    let mut cells = Vec::new(alloc);
    for j in 0..show.words {
        put(
            &mut cells,
            show_cell(guard, modules, show.module, show.offset + 4 * j),
        )?;
    }
    Ok(Rows::new(cells))
}

/// The row of a show.
fn show_row(
    alloc: Global,
    board: &Board,
    guard: &Guard,
    modules: &Manager,
    i: u8,
) -> Result<ShowRow, NoMemory>
    requires board { IsBoard board.now }
    requires show { i < length board.now.shows }
    requires modules { length modules.now ≡ length board.now.modules }
    requires regions { guard.now.regions ≡ regions_of 0 modules.now }
    ensures { IfOk result (λ row. row ≡ show_row board.now guard.now modules.now i) }
{
    let show = &board.shows.items()[i as usize];
    let cells = show_cells(alloc, guard, modules, show)?;
    Ok(ShowRow { show: i, cells })
}

/// A row for each show.
#[tactic(auto, using(crate::proofs::Lists::rows_below_none, crate::proofs::Lists::rows_below_more))]
pub(crate) fn show_rows(
    alloc: Global,
    board: &Board,
    guard: &Guard,
    modules: &Manager,
) -> Result<ShowRows, NoMemory>
    requires board { IsBoard board.now }
    requires modules { length modules.now ≡ length board.now.modules }
    requires regions { guard.now.regions ≡ regions_of 0 modules.now }
    ensures { IfOk result (λ rows. rows
        ≡ rows_below (length board.now.shows) (show_row board.now guard.now modules.now)) }
{
    let mut rows = Vec::new(alloc);
    for i in 0..board.shows.items().len() {
        put(&mut rows, show_row(alloc, board, guard, modules, i as u8)?)?;
    }
    Ok(Rows::new(rows))
}
