//! What the caller gets from the lane: each closed entry is counted, and its line is written.
//!
//! Entries are written in the order of the lane, each as one line with one write, and none is got
//! after a failed write. Nothing here waits for an entry to be put.
ghost use Rattle.std.specs.Prelude.{◌≡◌, ◌≤◌, true, List, [], ◌∷◌, ◌++◌, length, ◌↔◌, IsTrue};
ghost use Rattle.event_log.specs.Text.{line_of};
ghost use Rattle.event_log.specs.declared.entry.Entry.{Entry};
ghost use Rattle.board_io.specs.Sink.{Wrote};
ghost use Rattle.board_serve.specs.Got.{Counted, HasAll, WritesOn};
ghost use Rattle.board_serve.specs.Scripts.{HasShortScripts};

use board_file::BoardDevice;
use board_io::{Sink, WriteErr};
use event_log::{Entry, entry_line};
use log_lane::{GetPass, Lane};
use std::sync::Wait;
use tx_types::Line;

/// Counts an entry for its device, if it is an interrupt.
fn count_entry(counts: &mut [u32], e: &Entry)
    ensures length { length counts.new ≡ length counts.old }
    ensures counted { (got : List Entry) →
        Counted counts.old got → Counted counts.new (got ++ e.now ∷ []) }
{
    if let Entry::Irq(d, _) = *e {
        let at = d.number() as usize;
        if at < counts.len() {
            counts[at] = counts[at].saturating_add(1);
        }
    }
}

/// Writes the line of an entry.
fn write_entry<S: Sink>(e: Entry, sink: &mut S) -> Result<(), WriteErr>
    ensures faults { S.faults sink.old ≤ S.faults sink.new }
    ensures wrote { Wrote (S.faults sink.old) (S.faults sink.new)
        (S.written sink.old) (S.written sink.new) (line_of e) result }
{
    let mut line = Line::new();
    entry_line(e, &mut line);
    sink.write(line.as_str().as_bytes())
}

/// Gets an entry from the lane, counts it and writes its line. False where the lane has none.
fn write_next<R: Wait, S: Sink>(
    rt: &R,
    lane: &Lane,
    get: &mut GetPass,
    counts: &mut [u32],
    sink: &mut S,
) -> Result<bool, WriteErr>
    requires get { (get.old.live ≡ true) × (get.old.lane ≡ lane.now.id) }
    ensures get { (get.new.live ≡ true) × (get.new.lane ≡ lane.now.id) }
    ensures length { length counts.new ≡ length counts.old }
    ensures counted { Counted counts.old get.old.entries → Counted counts.new get.new.entries }
    ensures faults { S.faults sink.old ≤ S.faults sink.new }
    ensures wrote { WritesOn (S.faults sink.old) (S.faults sink.new)
        (S.written sink.old) (S.written sink.new) get.old.entries get.new.entries result }
{
    let Some(e) = lane.get(rt, get) else {
        return Ok(false);
    };
    count_entry(counts, &e);
    write_entry(e, sink)?;
    Ok(true)
}

/// Gets, counts and writes entries until the lane has none. Says whether there was one.
pub(crate) fn write_closed<R: Wait, S: Sink>(
    rt: &R,
    lane: &Lane,
    get: &mut GetPass,
    counts: &mut [u32],
    sink: &mut S,
) -> Result<bool, WriteErr>
    requires get { (get.old.live ≡ true) × (get.old.lane ≡ lane.now.id) }
    ensures get { (get.new.live ≡ true) × (get.new.lane ≡ lane.now.id) }
    ensures length { length counts.new ≡ length counts.old }
    ensures counted { Counted counts.old get.old.entries → Counted counts.new get.new.entries }
    ensures faults { S.faults sink.old ≤ S.faults sink.new }
    ensures wrote { WritesOn (S.faults sink.old) (S.faults sink.new)
        (S.written sink.old) (S.written sink.new) get.old.entries get.new.entries result }
{
    let mut some = false;
    for _ in rt.forever() {
        if !write_next(rt, lane, get, counts, sink)? {
            break;
        }
        some = true;
    }
    Ok(some)
}

/// Whether as many interrupts of each device were got as its script has words.
pub(crate) fn has_all(counts: &[u32], devices: &[BoardDevice]) -> bool
    requires length { length counts.now ≡ length devices.now }
    requires short { HasShortScripts devices.now }
    ensures { (got : List Entry) → Counted counts.now got → IsTrue result ↔ HasAll devices.now got }
{
    for d in 0..devices.len() {
        if counts[d] as usize != devices[d].script.items().len() {
            return false;
        }
    }
    true
}
