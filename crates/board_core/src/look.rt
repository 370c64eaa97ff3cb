//! What a report says of a machine.
//!
//! The machine is read and never changed. No machine has so many ticks that they are no word. The
//! lines are made in `board_report`.
ghost use Rattle.std.specs.Prelude.{◌≡◌, ◌<◌, ◌^◌, IfOk};
ghost use Rattle.board_report.specs.Printable.{IsPrintable};
ghost use Rattle.board_core.specs.Laws.{IsWorld};
ghost use Rattle.board_core.specs.Machine.{shown};
ghost use Rattle.board_core.specs.Report.{report_of};
ghost use Rattle.board_core.specs.Run.{run};

use crate::machine::Machine;
use crate::parts::Parts;
use crate::report_rows::{device_rows, module_rows, object_rows, thread_rows};
use crate::shows::show_rows;
use board_file::Board;
use board_values::Report;
use event_log::History;
use kernel_state::{Kernel, thread_numbers};
use std::alloc::Global;
use tx_types::NoMemory;

/// The number of the running thread.
fn running(kernel: &Kernel) -> Option<u16>
    ensures { result ≡ kernel.now.ready.run }
{
    match kernel.running() {
        Some(t) => Some(t.number()),
        None => None,
    }
}

/// How many ticks came.
fn ticks(kernel: &Kernel) -> u32
    requires { kernel.now.wheel.ticks < 2 ^ 32 }
    ensures { result ≡ kernel.now.wheel.ticks }
{
    kernel.wheel.ticks() as u32
}

/// The report on a board by its parts and its history.
#[tactic(auto, unfolding(crate::specs::Report::report_of))]
fn report(
    alloc: Global,
    board: &Board,
    parts: &Parts,
    history: &History,
) -> Result<Report, NoMemory>
    requires { IsWorld (shown board.now parts.now history.now.entries) }
    ensures report { IfOk result (λ r. r
        ≡ report_of (shown board.now parts.now history.now.entries)) }
    ensures printable { IfOk result IsPrintable }
{
    let kernel = &parts.kernel;
    Ok(Report {
        steps: history.steps(),
        irqs: history.irqs(),
        ticks: ticks(kernel),
        clock: kernel.clock,
        running: running(kernel),
        held: thread_numbers(alloc, &kernel.ready.held_list(alloc)?)?,
        ready: thread_numbers(alloc, &kernel.ready.ready_list(alloc)?)?,
        totals: kernel.waits.totals(),
        modules: module_rows(alloc, board, &parts.modules)?,
        threads: thread_rows(alloc, kernel)?,
        objects: object_rows(alloc, kernel)?,
        devices: device_rows(alloc, board, &parts.devices)?,
        shows: show_rows(alloc, board, &parts.memory, &parts.modules)?,
    })
}

impl Machine {
    /// The report on the board as its events left it.
    pub fn look(&self, alloc: Global) -> Result<Report, NoMemory>
        ensures report { IfOk result (λ r. r
            ≡ report_of (run self.now.origin self.now.history).now) }
        ensures printable { IfOk result IsPrintable }
    {
        report(alloc, &self.board, &self.parts, &self.history)
    }
}
