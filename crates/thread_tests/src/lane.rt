//! Lanes of the least and of the greatest number of entries, on one thread.
//!
//! No second thread is started: all entries are put before the first is got.
ghost use Rattle.std.specs.Prelude.{◌≡◌, ◌+◌, ◌<◌, length, true};

use board_values::DevNo;
use event_log::Entry;
use log_lane::{GetPass, Lane, PutPass};
use std::alloc::Global;
use std::process::Abort;
use std::sync::Wait;
use std::test::Fail;

/// A lane with both its passes, and how many entries may still be put.
#[derive(Drop)]
struct Bench {
    lane: Lane,
    put: PutPass,
    get: GetPass,
    left: u32,
    ghost put_of: { put.lane ≡ lane.id },
    ghost get_of: { get.lane ≡ lane.id },
    ghost live: { get.live ≡ true },
    ghost room: { length put.entries + left ≡ lane.most },
}

impl Bench {
    ghost use Rattle.std.specs.Prelude.{◌≡◌, ◌<◌};

    fn new<R: Wait>(rt: &R, alloc: Global, most: u32) -> Result<Bench, Fail>
        requires { 0 < most }
    {
        let (lane, put, get) = Lane::new(rt, alloc, most)?;
        Ok(Bench {
            lane,
            put,
            get,
            left: most,
        })
    }

    /// Puts an entry, and says whether it might be put.
    fn put<R: Wait>(&mut self, rt: &R, e: Entry) -> bool {
        if self.left == 0 {
            return false;
        }
        let Bench {
            lane,
            put,
            left,
            ..
        } = self;
        lane.put(rt, put, e);
        *left -= 1;
        true
    }

    fn get<R: Wait>(&mut self, rt: &R) -> Option<Entry> {
        self.lane.get(rt, &mut self.get)
    }
}

/// Entry i of a row that has all kinds.
fn entry(i: u32) -> Entry {
    if i % 3 == 0 {
        Entry::Steps(i)
    } else {
        Entry::Irq(DevNo::new((i % 16) as u8), i)
    }
}

/// A number of entries are put, one after another, before the first is got; then all are got.
fn carries<R: Wait + Abort>(rt: &R, alloc: Global, most: u32) -> Result<(), Fail>
    requires { 0 < most }
{
    let mut bench = Bench::new(rt, alloc, most)?;
    assert_eq!(rt; bench.get(rt), None);
    for i in 0..most {
        assert_eq!(rt; bench.put(rt, entry(i)), true, "{i}");
    }
    assert_eq!(rt; bench.put(rt, entry(0)), false);
    for i in 0..most {
        assert_eq!(rt; bench.get(rt), Some(entry(i)), "{i}");
    }
    assert_eq!(rt; bench.get(rt), None);
    let Bench { lane, put, get, .. } = bench;
    lane.close(rt, put, get);
    Ok(())
}

#[test]
fn one_entry(rt: HostRuntime) -> Result<(), Fail> {
    carries(&rt, rt.alloc(), 1)
}

#[test]
fn as_many_entries_as_a_history_may_have(rt: HostRuntime) -> Result<(), Fail> {
    carries(&rt, rt.alloc(), 131_073)
}
