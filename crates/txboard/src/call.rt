//! A call of the program over a host's values: the exit status is what the words' top call answers.
//!
//! The text and the files go through the sink and the files that are given; besides these, only
//! what failed is printed, on standard error.
ghost use Rattle.std.specs.Prelude.{◌≡◌, IfErr, IfOk, map, string_bytes};
ghost use Rattle.std.specs.Process.{exit_status};
ghost use Rattle.board_io.specs.Status.{number_of};
ghost use Rattle.board_run.specs.Call.{call};
ghost use Rattle.txboard.specs.Call.{AnswersWords, ended, is_live};

use board_host::tell_end;
use board_live::board_live;
use board_run::{Files, OpenGate, Sink, Status, board_still};
use std::alloc::Global;
use std::io::Eprint;
use std::process::ExitCode;
use std::sync::Wait;
use std::thread::Threads;

/// Does what the words ask for, and ends with the status that was answered. Where there was no memory for
/// the words, nothing is read or written. A call that failed says so on the host's standard error.
pub fn called<H: Eprint + Threads + Wait + Sync, F: Files, S: Sink>(
    host: &H,
    alloc: Global,
    words: Result<Vec<String>, Status>,
    files: &mut F,
    sink: &mut S,
) -> ExitCode
    requires { IfErr words (λ status. status ≡ Status.NoMemory) }
    ensures code { exit_status result ≡ number_of (ended result) }

    // What the words' top call says of its answer holds of the status.
    ensures answers { IfOk words (λ w. AnswersWords (map string_bytes w.items)
        (call F.held F.faults files.old files.new S.written S.faults sink.old sink.new)
        (ended result)) }

    // Where memory ran out before there were words.
    ensures none { IfErr words (λ _.
        (ended result ≡ Status.NoMemory) × (files.new ≡ files.old) × (sink.new ≡ sink.old)) }
{
    match words {
        Ok(words) => {
            let status = answer(host, alloc, &words, files, sink);
            end(host, status)
        }
        Err(status) => end(host, status),
    }
}

/// The answer of `board_live` where the first word is `run`, else that of `board_still`.
fn answer<H: Threads + Wait + Sync, F: Files, S: Sink>(
    host: &H,
    alloc: Global,
    words: &[String],
    files: &mut F,
    sink: &mut S,
) -> Status
    ensures { AnswersWords (map string_bytes words.now)
        (call F.held F.faults files.old files.new S.written S.faults sink.old sink.new) result }
{
    if is_live(words) {
        board_live(host, alloc, words, files, sink, &OpenGate)
    } else {
        board_still(alloc, words, files, sink)
    }
}

/// Whether the words ask for a run, whose devices have threads.
fn is_live(words: &[String]) -> bool
    ensures { result ≡ is_live (map string_bytes words.now) }
{
    match words.first() {
        Some(name) => name.as_str() == "run",
        None => false,
    }
}

/// Ends a call with the exit status of its status, and says on standard error what failed.
fn end<E: Eprint>(host: &E, status: Status) -> ExitCode
    ensures number { exit_status result ≡ number_of status }
    ensures status { ended result ≡ status }
{
    tell_end(host, status);
    ExitCode::from(status.number())
}
