//! Where the command line writes its text, piece by piece.
//!
//! A piece is appended whole, or the write fails: then a prefix of the piece is appended and the count
//! of faults is higher, a count that never falls.
ghost use Rattle.std.specs.Prelude.{◌≡◌, ℕ, ◌≤◌, List, [], map, Option, None, Some, IsTrue, is_err, nat_eq, vec_capacity};
ghost use Rattle.board_io.specs.Distinct.{all_differ};
ghost use Rattle.board_io.specs.Sink.{Wrote, kept_by, kept_next, AppendsKept, after_write};

use std::alloc::Global;
use std::marker::Model;

/// Why a piece wasn't written whole: a fault of writing.
#[derive(Clone, Copy, Debug, PartialEq, Eq)]
pub enum WriteErr {
    Failed,
}

/// What takes the text that is written.
pub trait Sink {
    /// The bytes written so far, where they are known.
    ghost written: { Self → Option (List ℕ) };

    /// How many writes had a fault; it stands still at its type's end.
    ghost faults: { Self → ℕ };

    /// Appends the piece whole. `Failed` comes only with a new fault, and then a prefix of the piece
    /// is appended.
    fn write(&mut self, bytes: &[u8]) -> Result<(), WriteErr>
        ensures counted { faults self.old ≤ faults self.new }
        ensures wrote { Wrote (faults self.old) (faults self.new)
            (written self.old) (written self.new) bytes.now result };
}

/// A sink that keeps nothing, says nothing of what was written and never fails.
#[derive(Clone, Copy, Debug, PartialEq, Eq)]
pub struct SureSink;

impl Sink for SureSink {
    ghost written = { λ _. None };

    ghost faults = { λ _. 0 };

    fn write(&mut self, _bytes: &[u8]) -> Result<(), WriteErr> {
        Ok(())
    }
}

/// A sink in memory. The writes whose numbers were given, counted from 1, fail and keep a prefix of
/// their piece. A write that finds no memory fails too, and keeps nothing.
#[derive(Drop)]
pub struct MemSink {
    written: Vec<u8>,
    fails: Vec<(u32, u32)>,
    writes: u64,
    faults: u64,
}

impl Model for MemSink {
    ghost use Rattle.std.specs.Prelude.{vec_capacity};
    ghost use Rattle.board_io.specs.Sink.{SinkInMemory};

    ghost Value = { SinkInMemory };

    ghost view = { λ s.
        record {
          written = s.written.items;
          room = vec_capacity s.written;
          fails = s.fails.items;
          writes = s.writes;
          faults = s.faults;
        } };
}

impl MemSink {
    /// Nothing written, and nothing allocated. A pair `(k, j)` says that write k is to fail and keeps
    /// the first j bytes of its piece, or the whole piece where it has fewer; the numbers k differ.
    pub fn new(alloc: Global, fails: Vec<(u32, u32)>) -> MemSink
        requires { IsTrue (all_differ nat_eq (map (λ fail. fail.0) fails.items)) }
        ensures { result ≡ record {
          written = [];
          room = 0;
          fails = fails.items;
          writes = 0;
          faults = 0;
        } }
    {
        MemSink {
            written: Vec::new(alloc),
            fails,
            writes: 0,
            faults: 0,
        }
    }

    /// What was written.
    pub fn bytes(&self) -> &[u8]
        ensures { result.now ≡ self.now.written }
    {
        self.written.as_slice()
    }
}

impl Sink for MemSink {
    ghost written = { λ s. Some s.written };

    ghost faults = { λ s. s.faults };

    fn write(&mut self, bytes: &[u8]) -> Result<(), WriteErr>
        ensures counted { self.old.faults ≤ self.new.faults }
        ensures after { self.new
            ≡ after_write self.old self.new.written self.new.room (is_err result) }
        ensures room { self.old.room ≤ self.new.room }
        ensures wrote { AppendsKept (kept_next self.old) self.old.room
            self.old.written self.new.written bytes.now result }
    {
        self.writes = self.writes.saturating_add(1);
        let kept = kept(&self.fails, self.writes);
        let written = append(&mut self.written, kept, bytes);
        self.faults = self.faults.saturating_add(u64::from(written.is_err()));
        written
    }
}

fn kept(fails: &[(u32, u32)], number: u64) -> Option<u32>
    ensures { result ≡ kept_by fails.now number }
{
    for (write, kept) in fails {
        if u64::from(*write) == number {
            return Some(*kept);
        }
    }
    None
}

fn append(written: &mut Vec<u8>, kept: Option<u32>, piece: &[u8]) -> Result<(), WriteErr>
    ensures room { vec_capacity written.old ≤ vec_capacity written.new }
    ensures kept { AppendsKept kept (vec_capacity written.old)
        written.old.items written.new.items piece.now result }
{
    let Some(kept) = kept else {
        return written
            .extend_from_slice(piece)
            .map_err(|_| WriteErr::Failed);
    };
    let end = piece.len().min(kept as usize);
    let _ = written.extend_from_slice(&piece[..end]);
    Err(WriteErr::Failed)
}
