//! Sinks, written through the trait: pieces whole, prefixes of the pieces whose writes are to fail.
//!
//! The sinks are values in memory: nothing is written to the host.
use board_run::{MemSink, Sink, SureSink, WriteErr};
use std::test::Fail;

fn write_through<S: Sink>(sink: &mut S, piece: &str) -> Result<(), WriteErr> {
    sink.write(piece.as_bytes())
}

/// A piece that is written whole or not, and all that the sink then has.
enum Case {
    Whole(&'static str, &'static str),
    Fails(&'static str, &'static str),
}

const CASES: [Case; 7] = [
    Case::Whole("abc", "abc"),
    Case::Fails("defgh", "abcdef"),
    Case::Whole("ij", "abcdefij"),
    Case::Fails("k", "abcdefij"),
    Case::Fails("lm", "abcdefijlm"),
    Case::Whole("", "abcdefijlm"),
    Case::Whole("n", "abcdefijlmn"),
];

/// A write is as told.
fn holds(sink: &mut MemSink, case: &Case) -> bool {
    let (piece, due, after) = match *case {
        Case::Whole(piece, after) => (piece, None, after),
        Case::Fails(piece, after) => (piece, Some(WriteErr::Failed), after),
    };
    write_through(sink, piece).err() == due && sink.bytes() == after.as_bytes()
}

#[test]
fn appends_pieces_or_their_prefixes(rt: HostRuntime) -> Result<(), Fail> {
    let fails = vec![in rt.alloc(); (5u32, 100u32), (2, 3), (4, 0)]?;
    let mut sink = MemSink::new(rt.alloc(), fails);
    for (i, case) in CASES.iter().enumerate() {
        assert!(rt; holds(&mut sink, case), "write {i}");
    }
    Ok(())
}

#[test]
fn the_sure_sink_takes_all(rt: HostRuntime) {
    assert!(rt; write_through(&mut SureSink, "abc").is_ok());
}
