//! The host's standard output, written piece by piece.
//!
//! What the host takes is not known; where a writer has a known content, the pieces are appended
//! to it.
ghost use Rattle.std.specs.Prelude.{◌≡◌, ◌<◌, ◌≤◌, [], length, None, IsOk, IfOk};
ghost use Rattle.std.specs.Io.KnownBytes.{WriteAppends};
ghost use Rattle.board_host.specs.Writes.{AppendsPiece, count_written};

use board_io::{Sink, WriteErr};
use std::io::Write;

/// A writer of the host. Each fault of writing is counted.
#[derive(Drop)]
pub struct HostOut<W: Write + Drop> {
    pub out: W,
    pub faults: u64,
}

impl<W: Write + Drop> HostOut<W> {
    /// No fault so far.
    pub fn new(out: W) -> Self
        ensures { result ≡ record { out = out; faults = 0 } }
    {
        HostOut { out, faults: 0 }
    }
}

impl<W: Write + Drop> Sink for HostOut<W> {
    ghost written = { λ _. None };

    ghost faults = { λ sink. sink.faults };

    fn write(&mut self, piece: &[u8]) -> Result<(), WriteErr>
        ensures counted { self.old.faults ≤ self.new.faults }
        ensures count { self.new.faults ≡ count_written self.old.faults result }
        ensures wrote { AppendsPiece (W.contents self.old.out) (W.contents self.new.out) piece.now
            result }
        ensures nothing { piece.now ≡ [] → IsOk result }
    {
        let outcome = write_whole(&mut self.out, piece);
        if outcome.is_err() {
            self.faults = self.faults.saturating_add(1);
        }
        outcome
    }
}

/// Writes a piece whole, or a prefix of it where a write fails.
#[tactic(auto, using(crate::proofs::Pieces::pieces))]
fn write_whole<W: Write>(out: &mut W, piece: &[u8]) -> Result<(), WriteErr>
    ensures wrote { AppendsPiece (W.contents out.old) (W.contents out.new) piece.now result }
    ensures nothing { piece.now ≡ [] → IsOk result }
{
    let mut rest = piece;
    while !rest.is_empty() {
        let count = write_some(out, rest)?;
        rest = &rest[count..];
    }
    Ok(())
}

/// How many bytes of a piece one write took, one at least. A writer that takes none is at fault.
fn write_some<W: Write>(out: &mut W, piece: &[u8]) -> Result<usize, WriteErr>
    ensures some { IfOk result (λ n. 0 < n) }
    ensures within { IfOk result (λ n. n ≤ length piece.now) }
    ensures wrote { WriteAppends (W.contents out.old) (W.contents out.new) result piece.now }
{
    match out.write(piece) {
        Ok(0) | Err(_) => Err(WriteErr::Failed),
        Ok(count) => Ok(count),
    }
}
