//! The top call of `run`. It reads and refuses as `replay` does, but for the log, which it makes.
//!
//! The session itself, from the first device to the report, has a file of its own.
ghost use Rattle.std.specs.Prelude.{◌≡◌, IfSome, Some, map, string_bytes};
ghost use Rattle.std.specs.Option.{option_map};
ghost use Rattle.board_run.specs.Call.{Ended, call};
ghost use Rattle.board_live.specs.Live.{LiveAlways, LiveAnswers, LiveCompletes, begun_or_due, live_due, live_row_of};
ghost use Rattle.board_run.specs.Booting.{booted_at};

use crate::session::run_booted;
use board_io::{Files, Gate, Sink, Status};
use board_run::{boot_board, end, end_stopped, usage};
use std::alloc::Global;
use std::sync::Wait;
use std::thread::Threads;

/// Runs the board that the words after the program's name ask for, and answers how it ended. Each
/// device's thread asks the gate before each word. No clause says that it returns.
#[tactic(auto, using(crate::proofs::Living::answers_complete))]
pub fn board_live<R: Threads + Wait + Sync, F: Files, S: Sink, G: Gate + Sync>(
    rt: &R,
    alloc: Global,
    words: &[String],
    files: &mut F,
    sink: &mut S,
    gate: &G,
) -> Status
    // What the files hold stays, no count falls, and the answer is by what is due for the words and
    // the files, where it is known what these hold.
    ensures ended { Ended LiveAnswers (live_due (map string_bytes words.now))
        (call F.held F.faults files.old files.new S.written S.faults sink.old sink.new) result }

    // Where no count rose, it is the status due, or out of memory.
    ensures complete { IfSome (F.held files.old) (λ at.
        LiveCompletes (live_due (map string_bytes words.now) at)
        (call F.held F.faults files.old files.new S.written S.faults sink.old sink.new) result) }

    // By the words alone, whatever the files hold.
    ensures always { LiveAlways (live_row_of (map string_bytes words.now))
        (call F.held F.faults files.old files.new S.written S.faults sink.old sink.new) result }
{
    answer(rt, alloc, words, files, sink, gate)
}

/// The answer of `board_live`.
fn answer<R: Threads + Wait + Sync, F: Files, S: Sink, G: Gate + Sync>(
    rt: &R,
    alloc: Global,
    words: &[String],
    files: &mut F,
    sink: &mut S,
    gate: &G,
) -> Status
    ensures ended { Ended LiveAnswers (live_due (map string_bytes words.now))
        (call F.held F.faults files.old files.new S.written S.faults sink.old sink.new) result }
    ensures always { LiveAlways (live_row_of (map string_bytes words.now))
        (call F.held F.faults files.old files.new S.written S.faults sink.old sink.new) result }
{
    match board_named(words) {
        None => end(usage(), Status::Usage, sink),
        Some(board) => run(rt, alloc, board, files, sink, gate),
    }
}

/// The name of the board's file, where the words ask for its run.
#[tactic(auto, unfolding(crate::specs::Live::live_row_of))]
fn board_named(words: &[String]) -> Option<&str>
    ensures { option_map (λ b. b.now) result ≡ live_row_of (map string_bytes words.now) }
{
    match words {
        [name, board] if name.as_str() == "run" => Some(board.as_str()),
        _ => None,
    }
}

/// Reads a board, boots it and runs it.
fn run<R: Threads + Wait + Sync, F: Files, S: Sink, G: Gate + Sync>(
    rt: &R,
    alloc: Global,
    board: &str,
    files: &mut F,
    sink: &mut S,
    gate: &G,
) -> Status
    ensures ended { Ended LiveAnswers (λ at. begun_or_due (booted_at board.now at))
        (call F.held F.faults files.old files.new S.written S.faults sink.old sink.new) result }
    ensures always { LiveAlways (Some board.now)
        (call F.held F.faults files.old files.new S.written S.faults sink.old sink.new) result }
{
    match boot_board(alloc, board, files) {
        Err(stop) => end_stopped(alloc, stop, sink),
        Ok(booted) => run_booted(rt, alloc, booted, sink, gate),
    }
}
