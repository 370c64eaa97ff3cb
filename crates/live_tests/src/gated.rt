//! Devices that a gate delays into an order, and the log of each run replayed.
//!
//! The gate and the sink share marks, so each order comes about only where devices run beside the loop.
use crate::marks::{MarkGate, MarkSink, Marks, Order, read};
use crate::runs::{replay, run};
use board_io::{MemSink, Status};
use std::alloc::{AllocError, Global};
use std::process::Abort;
use std::sync::Wait;
use std::test::Fail;
use std::thread::Threads;

/// Two words of device 0 and one of device 1, whose action finds no thread.
const BOARD: &str = "ram = 1048576
steps = 100

[[module]]
name = \"one\"
image = \"p1.img\"
start = true

[[device]]
name = \"d0\"
action = \"resume\"
target = \"none\"
script = [1, 2]

[[device]]
name = \"d1\"
action = \"resume\"
target = \"none\"
script = [3]
";

/// The lines of interrupts of a log.
fn interrupts(alloc: Global, log: &str) -> Result<String, AllocError> {
    let mut lines = String::new(alloc);
    for line in log.lines() {
        if line.starts_with("I ") {
            lines.push_str(line)?;
            lines.push('\n')?;
        }
    }
    Ok(lines)
}

/// The board is run under a gate and ends well: each pause was entered once, none was given up, and the
/// interrupts come in the gate's order. Its log is replayed to all that it printed.
fn comes_in_order<R: Threads + Wait + Sync + Abort>(
    rt: &R,
    alloc: Global,
    order: Order,
    wanted: &str,
) -> Result<(), Fail> {
    let marks = Marks::new();
    let mut sink = MarkSink {
        sink: MemSink::new(alloc, Vec::new(alloc)),
        marks: &marks,
    };
    let gate = MarkGate {
        order,
        marks: &marks,
    };
    let status = run(rt, alloc, BOARD, &mut sink, &gate)?;
    let pauses = [
        read(&marks.pauses_0_0),
        read(&marks.pauses_0_1),
        read(&marks.pauses_1_0),
        read(&marks.late),
    ];
    assert_eq!(rt; (status, pauses), (Status::Done, [1, 1, 1, 0]), "{order:?}");
    let text = str::from_utf8(sink.sink.bytes()).map_err(|_| "no text")?;
    let (log, _) = text.split_once("report\n").ok_or("no report")?;
    assert_eq!(rt; interrupts(alloc, log)?.as_str(), wanted, "{order:?}");
    let again = replay(alloc, BOARD, log)?;
    assert_eq!(rt; again.bytes(), text.as_bytes(), "{order:?}");
    Ok(())
}

#[test]
fn devices_run_beside_one_another(rt: HostRuntime) -> Result<(), Fail> {
    comes_in_order(
        &rt,
        rt.alloc(),
        Order::Between,
        "I 0 00000001\nI 1 00000003\nI 0 00000002\n",
    )?;
    comes_in_order(
        &rt,
        rt.alloc(),
        Order::After,
        "I 0 00000001\nI 0 00000002\nI 1 00000003\n",
    )
}
