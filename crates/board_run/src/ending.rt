//! How a call ends: by its text, or by the line of a refusal, or with nothing written.
//!
//! After a write that failed nothing is written.
ghost use Rattle.std.specs.Prelude.{◌≡◌, ◌≤◌, MatchResult};
ghost use Rattle.board_io.specs.Faults.{Rose};
ghost use Rattle.board_run.specs.Ending.{Ends, EndsStopped};

use crate::refusal::{Refusal, Stop};
use board_io::{Sink, Status, WriteErr};
use std::alloc::Global;

/// Ends a call that wrote its text, or a prefix of it.
pub fn end_written(written: Result<(), WriteErr>) -> Status
    ensures { MatchResult written (λ _. result ≡ Status.Done) (λ _. result ≡ Status.WriteFault) }
{
    match written {
        Ok(()) => Status::Done,
        Err(_) => Status::WriteFault,
    }
}

/// Ends a call that stopped before its text: a refusal has its line.
pub fn end_stopped<S: Sink>(alloc: Global, stop: Stop, sink: &mut S) -> Status
    ensures counted { S.faults sink.old ≤ S.faults sink.new }
    ensures ends { EndsStopped (Rose (S.faults sink.old) (S.faults sink.new))
        (S.written sink.old) (S.written sink.new) stop result }
{
    match stop {
        Stop::ReadFault => Status::ReadFault,
        Stop::NoMemory => Status::NoMemory,
        Stop::Refused(refusal) => end_refused(alloc, &refusal, sink),
    }
}

/// Ends a call with the line of a refusal, if there is memory for it.
fn end_refused<S: Sink>(alloc: Global, refusal: &Refusal, sink: &mut S) -> Status
    ensures counted { S.faults sink.old ≤ S.faults sink.new }
    ensures ends { EndsStopped (Rose (S.faults sink.old) (S.faults sink.new))
        (S.written sink.old) (S.written sink.new) (Stop.Refused refusal.now) result }
{
    match refusal.line(alloc) {
        Ok(line) => end(line.as_str(), Status::Refused, sink),
        Err(_) => Status::NoMemory,
    }
}

/// Ends a call with its last text: the status, or a fault of writing.
pub fn end<S: Sink>(text: &str, status: Status, sink: &mut S) -> Status
    ensures counted { S.faults sink.old ≤ S.faults sink.new }
    ensures ends { Ends (Rose (S.faults sink.old) (S.faults sink.new))
        (S.written sink.old) (S.written sink.new) text.now status result }
{
    match sink.write(text.as_bytes()) {
        Ok(()) => status,
        Err(_) => Status::WriteFault,
    }
}
