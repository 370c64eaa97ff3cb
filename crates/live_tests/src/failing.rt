//! A live run in which a write fails.
//!
//! Its device still has more words to raise than the inbox holds; the call ends all the same.
use crate::runs::run;
use board_io::{MemSink, OpenGate, Status};
use std::test::Fail;

/// One device with three hundred words, and no step.
const BOARD: &str = "ram = 1048576
steps = 0

[[module]]
name = \"one\"
image = \"p1.img\"
start = true

[[device]]
name = \"d0\"
action = \"resume\"
target = \"none\"
script = [1, 2, 3]
repeat = 100
";

/// Of the second line three bytes are written, and nothing after them.
#[test]
fn a_failed_write_ends_the_log(rt: HostRuntime) -> Result<(), Fail> {
    let alloc = rt.alloc();
    let mut sink = MemSink::new(alloc, vec![in alloc; (2u32, 3u32)]?);
    let status = run(&rt, alloc, BOARD, &mut sink, &OpenGate)?;
    assert_eq!(rt; status, Status::WriteFault);
    assert_eq!(rt; sink.bytes(), "I 0 00000001\nI 0".as_bytes());
    Ok(())
}
