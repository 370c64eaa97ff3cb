//! Writers that take few bytes a turn, fail or take nothing once, and then have room again: no write is
//! tried twice.
//!
//! What they take is kept in memory; nothing is written to the host.
use board_host::HostOut;
use board_io::{MemFiles, Sink, Status};
use board_run::board_still;
use std::alloc::Global;
use std::io::{self, ErrorKind, Write};

/// Takes at most `width` bytes a turn while it has room, then fails or takes nothing once, and has
/// room for two bytes more.
#[derive(Drop)]
struct Narrow {
    taken: Vec<u8>,
    width: usize,
    room: usize,
    fault: Option<ErrorKind>,
}

impl Write for Narrow {
    fn write(&mut self, buf: &[u8]) -> io::Result<usize> {
        let count = self.width.min(self.room).min(buf.len());
        if count == 0 {
            self.room = 2;
            return match self.fault {
                Some(kind) => Err(io::Error::from(kind)),
                None => Ok(0),
            };
        }
        self.taken.extend_from_slice(&buf[..count])?;
        self.room -= count;
        Ok(count)
    }

    fn flush(&mut self) -> io::Result<()> {
        Ok(())
    }
}

/// A sink over a writer with room for seven bytes.
fn with_room(alloc: Global, width: usize, fault: Option<ErrorKind>) -> HostOut<Narrow> {
    HostOut::new(Narrow {
        taken: Vec::new(alloc),
        width,
        room: 7,
        fault,
    })
}

/// A piece, all that is taken by then, and how many faults were counted by then.
enum Step {
    Whole(&'static str, &'static str, u64),
    Fails(&'static str, &'static str, u64),
}

const STEPS: [Step; 8] = [
    Step::Whole("abc", "abc", 0),
    Step::Whole("", "abc", 0),
    Step::Fails("defgh", "abcdefg", 1),
    Step::Whole("", "abcdefg", 1),
    Step::Whole("i", "abcdefgi", 1),
    Step::Fails("jk", "abcdefgij", 2),
    Step::Whole("", "abcdefgij", 2),
    Step::Whole("lm", "abcdefgijlm", 2),
];

/// The piece of a step is written, and then all is as told.
fn follows(sink: &mut HostOut<Narrow>, step: &Step) -> bool {
    let (piece, is_whole, taken, faults) = match *step {
        Step::Whole(piece, taken, faults) => (piece, true, taken, faults),
        Step::Fails(piece, taken, faults) => (piece, false, taken, faults),
    };
    sink.write(piece.as_bytes()).is_ok() == is_whole
        && sink.out.taken.as_slice() == taken.as_bytes()
        && sink.faults == faults
}

/// So are all steps.
fn follows_each(mut sink: HostOut<Narrow>) -> bool {
    for step in &STEPS {
        if !follows(&mut sink, step) {
            return false;
        }
    }
    true
}

#[test]
fn writes_pieces_or_their_prefixes(rt: HostRuntime) {
    let narrow = follows_each(with_room(rt.alloc(), 1, Some(ErrorKind::BrokenPipe)));
    let broken = follows_each(with_room(rt.alloc(), 2, Some(ErrorKind::Interrupted)));
    let full = follows_each(with_room(rt.alloc(), 9, None));
    assert!(rt; narrow && broken && full);
}

#[test]
fn a_call_ends_at_its_first_fault(rt: HostRuntime) {
    let mut files = MemFiles::new(Vec::new(rt.alloc()), Vec::new(rt.alloc()));
    let mut sink = with_room(rt.alloc(), 9, Some(ErrorKind::BrokenPipe));
    let status = board_still(rt.alloc(), &[], &mut files, &mut sink);
    let ended = status == Status::WriteFault && sink.faults == 1;
    assert!(rt; ended && sink.out.taken.as_slice() == b"usage: ".as_slice());
}
