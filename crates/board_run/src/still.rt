//! The top call of the commands that need no thread.
//!
//! A call reads its files and works out its whole result before it writes the first byte, so a call
//! that is refused writes the line of its refusal alone. No thread is started, and no file is
//! written.
ghost use Rattle.std.specs.Prelude.{◌≡◌, IfSome, map, string_bytes};
ghost use Rattle.board_run.specs.Answer.{Answers, Settles, Always, Completes};
ghost use Rattle.board_run.specs.Call.{Ended, call};
ghost use Rattle.board_run.specs.Command.{Hart, Check, Replay, row_of};
ghost use Rattle.board_run.specs.Due.{due, row_text, due_of, usage_line};

use crate::check::{check_board, write_check};
use crate::command::{Command, command_of};
use crate::ending::{end, end_stopped, end_written};
use crate::hart::{hart_ran, write_hart};
use crate::replay::{replay_log, write_session};
use board_io::{Files, Sink, Status};
use std::alloc::Global;

/// Does what the words after the program's name ask for, and answers how it ended.
#[tactic(auto, using(crate::proofs::Answering::answers_complete))]
pub fn board_still<F: Files, S: Sink>(
    alloc: Global,
    words: &[String],
    files: &mut F,
    sink: &mut S,
) -> Status
    // What the files hold stays, no count falls, and the answer is by what is due for the words and
    // the files, where it is known what these hold.
    ensures ended { Ended Answers (due (map string_bytes words.now))
        (call F.held F.faults files.old files.new S.written S.faults sink.old sink.new) result }

    // Where no count rose, it is the status due, or out of memory.
    ensures complete { IfSome (F.held files.old)
        (λ at. Completes (due (map string_bytes words.now) at)
        (call F.held F.faults files.old files.new S.written S.faults sink.old sink.new) result) }

    // By the words alone, whatever the files hold.
    ensures always { Always (row_of (map string_bytes words.now))
        (call F.held F.faults files.old files.new S.written S.faults sink.old sink.new) result }
{
    answer(alloc, words, files, sink)
}

/// The answer of `board_still`.
fn answer<F: Files, S: Sink>(alloc: Global, words: &[String], files: &mut F, sink: &mut S) -> Status
    ensures ended { Ended Answers (due (map string_bytes words.now))
        (call F.held F.faults files.old files.new S.written S.faults sink.old sink.new) result }
    ensures always { Always (row_of (map string_bytes words.now))
        (call F.held F.faults files.old files.new S.written S.faults sink.old sink.new) result }
{
    match command_of(words) {
        None => end(usage(), Status::Usage, sink),
        Some(Command::Hart { image, most }) => hart(alloc, image, most, files, sink),
        Some(Command::Check { board }) => check(alloc, board, files, sink),
        Some(Command::Replay { board, log }) => replay(alloc, board, log, files, sink),
    }
}

/// The line that says how the program is called.
pub fn usage() -> &'static str
    ensures { result.now ≡ usage_line }
{
    "usage: txboard hart IMAGE N | check BOARD | replay BOARD LOG | run BOARD | gen SEED\n"
}

/// Runs one image and writes its text.
fn hart<F: Files, S: Sink>(
    alloc: Global,
    image: &str,
    most: u32,
    files: &mut F,
    sink: &mut S,
) -> Status
    ensures ended { Ended Answers (λ at. due_of (row_text (Hart image.now most) at))
        (call F.held F.faults files.old files.new S.written S.faults sink.old sink.new) result }
    ensures settles { Settles
        (call F.held F.faults files.old files.new S.written S.faults sink.old sink.new) result }
{
    match hart_ran(alloc, image, most, files) {
        Err(stop) => end_stopped(alloc, stop, sink),
        Ok(ran) => end_written(write_hart(&ran, sink)),
    }
}

/// Reads a board and its images, and writes where its modules lie.
fn check<F: Files, S: Sink>(alloc: Global, board: &str, files: &mut F, sink: &mut S) -> Status
    ensures ended { Ended Answers (λ at. due_of (row_text (Check board.now) at))
        (call F.held F.faults files.old files.new S.written S.faults sink.old sink.new) result }
    ensures settles { Settles
        (call F.held F.faults files.old files.new S.written S.faults sink.old sink.new) result }
{
    match check_board(alloc, board, files) {
        Err(stop) => end_stopped(alloc, stop, sink),
        Ok(checked) => end_written(write_check(&checked, sink)),
    }
}

/// Makes the history of a log on a board, and writes the log and the report of what was reached.
fn replay<F: Files, S: Sink>(
    alloc: Global,
    board: &str,
    log: &str,
    files: &mut F,
    sink: &mut S,
) -> Status
    ensures ended { Ended Answers (λ at. due_of (row_text (Replay board.now log.now) at))
        (call F.held F.faults files.old files.new S.written S.faults sink.old sink.new) result }
    ensures settles { Settles
        (call F.held F.faults files.old files.new S.written S.faults sink.old sink.new) result }
{
    match replay_log(alloc, board, log, files) {
        Err(stop) => end_stopped(alloc, stop, sink),
        Ok(replayed) => end_written(write_session(&replayed, sink)),
    }
}
