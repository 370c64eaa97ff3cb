//! The calls `run` and `replay` over files in memory: a board, the image of its module, and a log.
//!
//! What a call prints stays in the sink that it is given; what is to stand there is left to the tests.
ghost use Rattle.std.specs.Prelude.{◌≡◌, IfOk, IsTrue, string_bytes};
ghost use Rattle.std.specs.Str.{bytes_eq};
ghost use Rattle.board_io.specs.Distinct.{all_differ};
ghost use Rattle.board_io.specs.Files.{names};

use board_io::{Gate, MemFiles, MemSink, Sink, Status};
use board_live::board_live;
use board_run::board_still;
use std::alloc::{AllocError, Global};
use std::sync::Wait;
use std::thread::Threads;

/// 64 bytes of data, a start stack of 256, one instruction: ADDI x5,x0,7.
const IMAGE: [u32; 17] = [
    0x4D4F_4455,
    6,
    0,
    32,
    1,
    3,
    128,
    128,
    0,
    10,
    256,
    0,
    0,
    0,
    132,
    64,
    0x0070_0293,
];

/// The bytes of the image: sixteen words of the preamble are 0.
fn image(alloc: Global) -> Result<Vec<u8>, AllocError> {
    let mut bytes = Vec::new(alloc);
    let (head, code) = IMAGE.split_at(16);
    for word in head.iter().chain(&[0; 16]).chain(code) {
        bytes.extend_from_slice(&word.to_le_bytes())?;
    }
    Ok(bytes)
}

fn file(alloc: Global, name: &str, bytes: Vec<u8>) -> Result<(String, Vec<u8>), AllocError>
    ensures { IfOk result (λ f. string_bytes f.0 ≡ name.now) }
{
    Ok((String::from_str(alloc, name)?, bytes))
}

/// The board, its image and the log.
fn disk(alloc: Global, board: &str, log: &str) -> Result<Vec<(String, Vec<u8>)>, AllocError>
    ensures { IfOk result (λ files. IsTrue (all_differ bytes_eq (names files.items))) }
{
    Ok(vec![in alloc;
        file(
            alloc,
            "board.toml",
            Vec::from_slice(alloc, board.as_bytes())?
        )?,
        file(alloc, "p1.img", image(alloc)?)?,
        file(alloc, "log", Vec::from_slice(alloc, log.as_bytes())?)?,
    ]?)
}

/// Words of a command line.
fn owned(alloc: Global, texts: &[&str]) -> Result<Vec<String>, AllocError> {
    let mut words = Vec::new(alloc);
    for text in texts {
        words.push(String::from_str(alloc, text)?)?;
    }
    Ok(words)
}

/// Runs a board live. There is no log yet.
pub fn run<R: Threads + Wait + Sync, S: Sink, G: Gate + Sync>(
    rt: &R,
    alloc: Global,
    board: &str,
    sink: &mut S,
    gate: &G,
) -> Result<Status, AllocError> {
    let mut files = MemFiles::new(disk(alloc, board, "")?, Vec::new(alloc));
    let words = owned(alloc, &["run", "board.toml"])?;
    Ok(board_live(rt, alloc, &words, &mut files, sink, gate))
}

/// What a replay of a log prints on a board.
pub fn replay(alloc: Global, board: &str, log: &str) -> Result<MemSink, AllocError> {
    let mut files = MemFiles::new(disk(alloc, board, log)?, Vec::new(alloc));
    let mut sink = MemSink::new(alloc, Vec::new(alloc));
    let words = owned(alloc, &["replay", "board.toml", "log"])?;
    board_still(alloc, &words, &mut files, &mut sink);
    Ok(sink)
}
