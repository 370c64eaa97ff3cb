//! The end of a run that was served: the steps that are left are made, and the rest of its text is
//! written.
//!
//! The open line of steps is written before memory is looked for, so that without a report the log
//! is whole.
ghost use Rattle.std.specs.Prelude.{◌≡◌, ◌≤◌, true, length};
ghost use Rattle.tx_types.specs.Limits.{step_limit};
ghost use Rattle.board_io.specs.Sink.{Wrote};
ghost use Rattle.board_serve.specs.Got.{HasAll};
ghost use Rattle.board_serve.specs.Raised.{HaveSentOf};
ghost use Rattle.event_log.specs.Log.{step_count, unclosed};
ghost use Rattle.event_log.specs.Text.{text_of};
ghost use Rattle.irq_inbox.specs.Seen.{AreAllOf};
ghost use Rattle.board_live.specs.Finish.{HasFinished, WroteEnd, stepped_out};

use crate::apart::take_apart;
use board_core::Machine;
use board_io::{Sink, WriteErr};
use board_run::write_report;
use event_log::{
    a_history_grows_by_steps, a_history_stays_one, an_interrupt_closes_an_entry, entry_line,
};
use irq_inbox::DevPass;
use kernel_lock::{Core, Session};
use log_lane::GetPass;
use std::alloc::Global;
use std::sync::Wait;
use tx_types::{Line, NoMemory};

/// Why a run has no whole text: a write failed, or memory for the report ran out.
#[derive(Clone, Copy)]
pub(crate) enum FinishErr {
    WriteFault,
    NoMemory,
}

impl From<WriteErr> for FinishErr {
    ghost use Rattle.std.specs.Prelude.{◌≡◌};
    ghost use Rattle.board_live.specs.declared.finish.FinishErr.TheVariants as error;

    ghost from_gives = { λ _ e. e ≡ error.WriteFault };

    fn from(_: WriteErr) -> FinishErr {
        FinishErr::WriteFault
    }
}

impl From<NoMemory> for FinishErr {
    ghost use Rattle.std.specs.Prelude.{◌≡◌};
    ghost use Rattle.board_live.specs.declared.finish.FinishErr.TheVariants as error;

    ghost from_gives = { λ _ e. e ≡ error.NoMemory };

    fn from(_: NoMemory) -> FinishErr {
        FinishErr::NoMemory
    }
}

/// Makes the steps that are left.
fn step_out(machine: &mut Machine)
    requires board { machine.old.origin.board.steps ≤ step_limit }
    requires steps { step_count machine.old.history ≤ machine.old.origin.board.steps }
    ensures { machine.new ≡ record machine.old {
      history = stepped_out machine.old.origin machine.old.history;
    } }
{
    let made = machine.history().steps();
    let all = machine.board().steps;
    machine.steps(all - made);
}

/// Writes the open line of steps, if there is one.
fn write_open<S: Sink>(machine: &Machine, sink: &mut S) -> Result<(), WriteErr>
    ensures faults { S.faults sink.old ≤ S.faults sink.new }
    ensures wrote { Wrote (S.faults sink.old) (S.faults sink.new)
        (S.written sink.old) (S.written sink.new) (text_of (unclosed machine.now.history)) result }
{
    an_interrupt_closes_an_entry();
    let Some(open) = machine.history().open_entry() else {
        return Ok(());
    };
    let mut line = Line::new();
    entry_line(open, &mut line);
    sink.write(line.as_str().as_bytes())
}

/// Writes the open line, and then the report of what was reached.
fn write_end<S: Sink>(alloc: Global, machine: &Machine, sink: &mut S) -> Result<(), FinishErr>
    ensures faults { S.faults sink.old ≤ S.faults sink.new }
    ensures wrote { WroteEnd machine.now.origin machine.now.history
        (S.faults sink.old) (S.faults sink.new) (S.written sink.old) (S.written sink.new) result }
{
    write_open(machine, sink)?;
    let report = machine.look(alloc)?;
    write_report(&report, sink)?;
    Ok(())
}

/// Ends the run of a core from which all words of all devices were got, and writes what of its text
/// wasn't written yet.
///
/// `Ok`: what was got before and what was written here are the text of one run, with all words and
/// all steps. `WriteFault`: a write failed in this call, and a prefix of that rest was written.
/// `NoMemory`: the rest of the log was written, and no report.
pub(crate) fn finish<'a, R: Wait, O: Session, S: Sink>(
    rt: &R,
    alloc: Global,
    core: Core<'a, O>,
    devs: Vec<DevPass>,
    get: GetPass,
    sink: &mut S,
) -> Result<(), FinishErr>
    requires devs { AreAllOf O.inbox (length O.origin.board.devices) devs.items }
    requires sent { HaveSentOf O.origin.board.devices devs.items }
    requires get { (get.live ≡ true) × (get.lane ≡ O.lane.id) }
    requires all { HasAll O.origin.board.devices get.entries }
    ensures faults { S.faults sink.old ≤ S.faults sink.new }
    ensures finished { HasFinished O.origin core.entry.machine.history get.entries
        (S.faults sink.old) (S.faults sink.new) (S.written sink.old) (S.written sink.new) result }
{
    a_history_grows_by_steps();
    a_history_stays_one();
    an_interrupt_closes_an_entry();
    let mut machine = take_apart(rt, core, devs, get);
    step_out(&mut machine);
    write_end(alloc, &machine, sink)
}
