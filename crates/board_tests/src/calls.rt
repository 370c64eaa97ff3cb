//! Calls over files in memory, where a read or a write is to fail: one that is due, or the one after
//! the last, which shows that no other is made, and that each line is one write.
ghost use Rattle.std.specs.Prelude.{◌≡◌, IfOk, IsTrue, string_bytes};
ghost use Rattle.std.specs.Str.{bytes_eq};
ghost use Rattle.board_io.specs.Distinct.{all_differ};
ghost use Rattle.board_io.specs.Files.{names};

use board_run::{MemFiles, MemSink, Status, board_still};
use std::alloc::{AllocError, Global};
use std::process::Abort;
use std::test::Fail;

/// The words of a preamble: 64 bytes of data, a stack of 256 for the start thread; sixteen words that
/// are ignored; and ADDI x5,x0,7.
const IMAGE: [u32; 33] = [
    0x4D4F_4455,
    6,
    0,
    32,
    1,
    3,
    128,
    128,
    0,
    10,
    256,
    0,
    0,
    0,
    132,
    64,
    0,
    0,
    0,
    0,
    0,
    0,
    0,
    0,
    0,
    0,
    0,
    0,
    0,
    0,
    0,
    0,
    0x0070_0293,
];

/// One module with a device, and three modules.
const ONE: &str = "ram = 1048576
steps = 0

[[module]]
name = \"one\"
image = \"p\"
start = true

[[device]]
name = \"d\"
action = \"resume\"
target = \"start\"
script = [10]
";

const THREE: &str = "ram = 1048576
steps = 0

[[module]]
name = \"sensor\"
image = \"p\"

[[module]]
name = \"control\"
image = \"q\"

[[module]]
name = \"telemetry\"
image = \"r\"
";

const LOG: &str = "S 1\nI 0 0000000a\nS 2\n";

/// The board and the words, how a call ends, all that it writes, how many reads and writes it makes;
/// and what stands where a write fails.
struct Call {
    board: &'static str,
    words: &'static [&'static str],
    status: Status,
    text: &'static str,
    reads: u32,
    writes: u32,
    cuts: &'static [Cut],
}

/// The number of the write that fails, how much of its line it keeps, and what then stands.
struct Cut {
    write: u32,
    kept: u32,
    text: &'static str,
}

const HARTS: [Call; 3] = [
    Call {
        board: ONE,
        words: &["hart", "p", "1"],
        status: Status::Done,
        text: "hart steps 1 end count
pc 80000084
regs 00000000 800001e0 800000a0 00000000 00000007 00000000 00000000 00000000 00000000 80000080 00000000 00000000 00000000 00000000 00000000 00000000 00000000 00000000 00000000 00000000 00000000 00000000 00000000 00000000 00000000 00000000 00000000 00000000 00000000 00000000 00000000
",
        reads: 1,
        writes: 3,
        cuts: &[
            Cut {
                write: 1,
                kept: 0,
                text: "",
            },
            Cut {
                write: 1,
                kept: 1,
                text: "h",
            },
            Cut {
                write: 2,
                kept: 0,
                text: "hart steps 1 end count\n",
            },
            Cut {
                write: 2,
                kept: 3,
                text: "hart steps 1 end count\npc ",
            },
            Cut {
                write: 3,
                kept: 4,
                text: "hart steps 1 end count\npc 80000084\nregs",
            },
        ],
    },
    Call {
        board: ONE,
        words: &["hart", "l", "1"],
        status: Status::Refused,
        text: "refused image 0: Short 21\n",
        reads: 1,
        writes: 1,
        cuts: &[Cut {
            write: 1,
            kept: 7,
            text: "refused",
        }],
    },
    Call {
        board: ONE,
        words: &["hart"],
        status: Status::Usage,
        text: "usage: txboard hart IMAGE N | check BOARD | replay BOARD LOG | run BOARD | gen SEED\n",
        reads: 0,
        writes: 1,
        cuts: &[Cut {
            write: 1,
            kept: 5,
            text: "usage",
        }],
    },
];

const CHECKS: [Call; 2] = [
    Call {
        board: THREE,
        words: &["check", "b"],
        status: Status::Done,
        text: "module 0 sensor code 80000000 132 data 800000a0 320
module 1 control code 800001e0 132 data 80000280 320
module 2 telemetry code 800003c0 132 data 80000460 320
ok
",
        reads: 4,
        writes: 4,
        cuts: &[
            Cut {
                write: 1,
                kept: 6,
                text: "module",
            },
            Cut {
                write: 2,
                kept: 0,
                text: "module 0 sensor code 80000000 132 data 800000a0 320\n",
            },
            Cut {
                write: 3,
                kept: 1,
                text: "module 0 sensor code 80000000 132 data 800000a0 320
module 1 control code 800001e0 132 data 80000280 320
m",
            },
        ],
    },
    Call {
        board: THREE,
        words: &["check", "l"],
        status: Status::Refused,
        text: "refused board: not toml\n",
        reads: 1,
        writes: 1,
        cuts: &[],
    },
];

/// One step is made, the device's thread runs already, and the next fetch is a fault.
const REPLAYS: [Call; 2] = [
    Call {
        board: ONE,
        words: &["replay", "b", "l"],
        status: Status::Done,
        text: "S 1
I 0 0000000a
S 2
report
events steps 3 irqs 1 ticks 0 clock 0
running -
held
ready
waits begun 0 satisfied 0 timedout 0 aborted 0 deleted 0 gone 0
module 0 one state 3 queued 0 dropped 0
fault 0 thread 0 cause 1 pc 80000084
device 0 d taken 1 last 12
end
",
        reads: 3,
        writes: 13,
        cuts: &[
            Cut {
                write: 1,
                kept: 2,
                text: "S ",
            },
            Cut {
                write: 2,
                kept: 0,
                text: "S 1\n",
            },
            Cut {
                write: 3,
                kept: 1,
                text: "S 1\nI 0 0000000a\nS",
            },
            Cut {
                write: 4,
                kept: 0,
                text: "S 1\nI 0 0000000a\nS 2\n",
            },
            Cut {
                write: 5,
                kept: 6,
                text: "S 1\nI 0 0000000a\nS 2\nreport\nevents",
            },
        ],
    },
    Call {
        board: ONE,
        words: &["replay", "b", "p"],
        status: Status::Refused,
        text: "refused log: line 1\n",
        reads: 3,
        writes: 1,
        cuts: &[],
    },
];

/// The bytes of the image.
fn image(alloc: Global) -> Result<Vec<u8>, AllocError> {
    let mut bytes = Vec::new(alloc);
    for word in &IMAGE {
        bytes.extend_from_slice(&word.to_le_bytes())?;
    }
    Ok(bytes)
}

fn file(alloc: Global, name: &str, bytes: Vec<u8>) -> Result<(String, Vec<u8>), AllocError>
    ensures { IfOk result (λ f. string_bytes f.0 ≡ name.now) }
{
    Ok((String::from_str(alloc, name)?, bytes))
}

fn text_file(alloc: Global, name: &str, text: &str) -> Result<(String, Vec<u8>), AllocError>
    ensures { IfOk result (λ f. string_bytes f.0 ≡ name.now) }
{
    file(alloc, name, Vec::from_slice(alloc, text.as_bytes())?)
}

/// A board `b`, the images `p`, `q` and `r`, and the log `l`.
fn disk(alloc: Global, board: &str) -> Result<Vec<(String, Vec<u8>)>, AllocError>
    ensures { IfOk result (λ files. IsTrue (all_differ bytes_eq (names files.items))) }
{
    Ok(vec![in alloc;
        text_file(alloc, "b", board)?,
        file(alloc, "p", image(alloc)?)?,
        file(alloc, "q", image(alloc)?)?,
        file(alloc, "r", image(alloc)?)?,
        text_file(alloc, "l", LOG)?,
    ]?)
}

/// Words of a command line.
fn owned(alloc: Global, texts: &[&str]) -> Result<Vec<String>, AllocError> {
    let mut words = Vec::new(alloc);
    for text in texts {
        words.push(String::from_str(alloc, text)?)?;
    }
    Ok(words)
}

/// What the call answers and writes, where this read and this write are to fail.
fn called(
    alloc: Global,
    call: &Call,
    read: u32,
    write: (u32, u32),
) -> Result<(Status, MemSink), AllocError> {
    let mut files = MemFiles::new(disk(alloc, call.board)?, vec![in alloc; read]?);
    let mut sink = MemSink::new(alloc, vec![in alloc; write]?);
    let words = owned(alloc, call.words)?;
    let status = board_still(alloc, &words, &mut files, &mut sink);
    Ok((status, sink))
}

/// The call, where this read and this write are to fail, ends so and writes this.
fn ends(
    alloc: Global,
    call: &Call,
    read: u32,
    write: (u32, u32),
    due: (Status, &str),
) -> Result<bool, AllocError> {
    let (status, sink) = called(alloc, call, read, write)?;
    Ok(status == due.0 && sink.bytes() == due.1.as_bytes())
}

/// The call in which one of its reads fails ends at that read, and writes nothing.
fn ends_at_reads(alloc: Global, call: &Call) -> Result<bool, AllocError> {
    for before in 0..call.reads {
        let read = before.saturating_add(1);
        if !ends(alloc, call, read, (1, 0), (Status::ReadFault, ""))? {
            return Ok(false);
        }
    }
    Ok(true)
}

/// The call in which a write fails ends with what stands then.
fn ends_at_writes(alloc: Global, call: &Call) -> Result<bool, AllocError> {
    for cut in call.cuts {
        let write = (cut.write, cut.kept);
        if !ends(alloc, call, 9, write, (Status::WriteFault, cut.text))? {
            return Ok(false);
        }
    }
    Ok(true)
}

/// The call ends as it is due, and so does each call of it in which a read or a write fails.
fn holds(alloc: Global, call: &Call) -> Result<bool, AllocError> {
    let past = call.reads.saturating_add(1);
    let write = (call.writes.saturating_add(1), 0);
    let is_due = ends(alloc, call, past, write, (call.status, call.text))?;
    Ok(is_due && ends_at_reads(alloc, call)? && ends_at_writes(alloc, call)?)
}

/// Each call of a table does.
fn play(rt: &impl Abort, alloc: Global, calls: &[Call]) -> Result<(), Fail> {
    for (i, call) in calls.iter().enumerate() {
        assert!(rt; holds(alloc, call)?, "call {i}");
    }
    Ok(())
}

#[test]
fn calls_end_as_they_are_due(rt: HostRuntime) -> Result<(), Fail> {
    play(&rt, rt.alloc(), &HARTS)?;
    play(&rt, rt.alloc(), &CHECKS)?;
    play(&rt, rt.alloc(), &REPLAYS)
}
