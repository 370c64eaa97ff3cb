//! What `replay` makes of a board and a log: the board is booted, the log's history is made on it, and
//! the text is the log and then the report of what was reached.
//!
//! All is read, booted, run and reported before anything is written.
ghost use Rattle.std.specs.Prelude.{◌≡◌, ◌≤◌, [], length, IfOk};
ghost use Rattle.std.specs.List.{flat_map};
ghost use Rattle.std.specs.Option.{option_map};
ghost use Rattle.tx_types.specs.Limits.{device_limit, interrupt_limit};
ghost use Rattle.board_core.specs.Report.{report_of};
ghost use Rattle.board_core.specs.Run.{run};
ghost use Rattle.board_report.specs.Printable.{IsPrintable};
ghost use Rattle.event_log.specs.Log.{IsHistory};
ghost use Rattle.event_log.specs.LogIn.{log_in};
ghost use Rattle.event_log.specs.Text.{text_of};
ghost use Rattle.board_run.specs.Boards.{IsLoaded};
ghost use Rattle.board_io.specs.Faults.{Rose};
ghost use Rattle.board_run.specs.Reading.{Gives, GivesHere};
ghost use Rattle.board_run.specs.Refused.{refused_log};
ghost use Rattle.board_run.specs.Replay.{log_at, session_of, session_on, session_at, session, report_text, session_text};
ghost use Rattle.board_io.specs.Sink.{Wrote};

use crate::boards::{Loaded, load_board};
use crate::booting::boot;
use crate::reading::file_of;
use crate::refusal::{Refusal, Stop};
use board_core::Machine;
use board_core::laws::a_run_is_its_events;
use board_io::{Files, Sink, WriteErr};
use board_report::{lines, report_line};
use board_values::Report;
use event_log::{History, LogErr, MOST_IRQS, entry_line, read_log, replay};
use std::alloc::Global;
use tx_types::{Line, NoMemory};

/// The most bytes that a log may have.
const MOST_LOG: u32 = 4_194_304;

/// The history of a log, and the report of what its board reached by it.
#[derive(Drop)]
pub struct Replayed {
    pub history: History,
    pub report: Report,
}

/// The history that bytes mean on a board with the given number of devices, or why they are
/// refused.
fn log_in(alloc: Global, bytes: &[u8], devices: u8) -> Result<History, Stop>
    requires { devices ≤ device_limit }
    ensures log { GivesHere (λ h. h.entries) (refused_log (log_in devices bytes.now)) result }
    ensures history { IfOk result (λ h. IsHistory devices h.entries) }
{
    match read_log(alloc, bytes, devices) {
        Ok(history) => Ok(history),
        Err(LogErr::NoMemory) => Err(Stop::NoMemory),
        Err(LogErr::BadLine(line)) => Err(Stop::Refused(Refusal::LogLine(line))),
    }
}

/// The history in the log of a name, on a board with the given number of devices.
#[tactic(auto, using(crate::proofs::Step::steps), unfolding(crate::specs::Replay::log_at))]
fn log_of<F: Files>(alloc: Global, name: &str, devices: u8, files: &mut F) -> Result<History, Stop>
    requires { devices ≤ device_limit }
    ensures held { F.held files.new ≡ F.held files.old }
    ensures counted { F.faults files.old ≤ F.faults files.new }
    ensures log { Gives (λ h. h.entries) (option_map (log_at devices name.now) (F.held files.old))
        (Rose (F.faults files.old) (F.faults files.new)) result }
    ensures history { IfOk result (λ h. IsHistory devices h.entries) }
{
    let bytes = file_of(alloc, name, MOST_LOG, Refusal::LogTooLarge, files)?;
    log_in(alloc, &bytes, devices)
}

/// The report of what a booted board reaches by a history.
fn report_after(alloc: Global, mut machine: Machine, history: &History) -> Result<Report, NoMemory>
    requires fresh { machine.history ≡ [] }
    requires room { machine.irqs ≡ interrupt_limit }
    requires history { IsHistory (length machine.origin.board.devices) history.now.entries }
    ensures report { IfOk result (λ r. r ≡ report_of (run machine.origin history.now.entries).now) }
    ensures printable { IfOk result IsPrintable }
{
    a_run_is_its_events();
    replay(history, &mut machine);
    machine.look(alloc)
}

/// Boots a board, makes a history on it, and reports what was reached.
#[tactic(auto, using(crate::proofs::Step::steps), unfolding(crate::specs::Replay::session_of))]
fn session_of(alloc: Global, loaded: &Loaded, history: History) -> Result<Replayed, Stop>
    requires loaded { IsLoaded loaded.now }
    requires history { IsHistory (length loaded.now.board.devices) history.entries }
    ensures session { GivesHere session (session_of loaded.now history.entries) result }
    ensures printable { IfOk result (λ r. IsPrintable r.report) }
{
    let machine = boot(alloc, loaded, MOST_IRQS)?;
    let report = report_after(alloc, machine, &history)?;
    Ok(Replayed { history, report })
}

/// Reads a log, and makes its history on a board that was read.
#[tactic(auto, using(crate::proofs::Step::steps), unfolding(crate::specs::Replay::session_on))]
fn replay_on<F: Files>(
    alloc: Global,
    loaded: &Loaded,
    log: &str,
    files: &mut F,
) -> Result<Replayed, Stop>
    requires { IsLoaded loaded.now }
    ensures held { F.held files.new ≡ F.held files.old }
    ensures counted { F.faults files.old ≤ F.faults files.new }
    ensures session { Gives session (option_map (session_on loaded.now log.now) (F.held files.old))
        (Rose (F.faults files.old) (F.faults files.new)) result }
    ensures printable { IfOk result (λ r. IsPrintable r.report) }
{
    let devices = loaded.board.devices.items().len() as u8;
    let history = log_of(alloc, log, devices, files)?;
    session_of(alloc, loaded, history)
}

/// Reads a board, its images and a log, and makes the log's history on the board.
#[tactic(auto, using(crate::proofs::Step::steps), unfolding(crate::specs::Replay::session_at))]
pub fn replay_log<F: Files>(
    alloc: Global,
    board: &str,
    log: &str,
    files: &mut F,
) -> Result<Replayed, Stop>
    ensures held { F.held files.new ≡ F.held files.old }
    ensures counted { F.faults files.old ≤ F.faults files.new }
    ensures session { Gives session (option_map (session_at board.now log.now) (F.held files.old))
        (Rose (F.faults files.old) (F.faults files.new)) result }
    ensures printable { IfOk result (λ r. IsPrintable r.report) }
{
    let loaded = load_board(alloc, board, files)?;
    replay_on(alloc, &loaded, log, files)
}

/// Writes the log and then the report, a line at a time.
#[tactic(auto, using(crate::proofs::Writing::writing), unfolding(crate::specs::Replay::session_text))]
pub fn write_session<S: Sink>(replayed: &Replayed, sink: &mut S) -> Result<(), WriteErr>
    requires { IsPrintable replayed.now.report }
    ensures counted { S.faults sink.old ≤ S.faults sink.new }
    ensures wrote { Wrote (S.faults sink.old) (S.faults sink.new)
        (S.written sink.old) (S.written sink.new)
        (session_text (session replayed.now)) result }
{
    write_log(&replayed.history, sink)?;
    write_report(&replayed.report, sink)
}

/// Writes a line for each entry of a history.
fn write_log<S: Sink>(history: &History, sink: &mut S) -> Result<(), WriteErr>
    ensures counted { S.faults sink.old ≤ S.faults sink.new }
    ensures wrote { Wrote (S.faults sink.old) (S.faults sink.new)
        (S.written sink.old) (S.written sink.new)
        (text_of history.now.entries) result }
{
    for i in 0..history.len() {
        let mut line = Line::new();
        entry_line(history.entry(i), &mut line);
        sink.write(line.as_str().as_bytes())?;
    }
    Ok(())
}

/// Writes the lines of a report.
pub fn write_report<S: Sink>(report: &Report, sink: &mut S) -> Result<(), WriteErr>
    requires { IsPrintable report.now }
    ensures counted { S.faults sink.old ≤ S.faults sink.new }
    ensures wrote { Wrote (S.faults sink.old) (S.faults sink.new)
        (S.written sink.old) (S.written sink.new)
        (report_text report.now) result }
{
    for i in 0..lines(report) {
        let mut line = Line::new();
        report_line(report, i, &mut line);
        sink.write(line.as_str().as_bytes())?;
    }
    Ok(())
}
