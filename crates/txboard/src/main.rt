//! `txboard`: the command line of the board.
#![tactic(auto)]

mod call;

use board_host::{HostFiles, HostOut, words_of};
use call::called;
use std::io;
use std::process::ExitCode;

fn main(rt: HostRuntime) -> ExitCode {
    let alloc = rt.alloc();
    let mut files = HostFiles::new(&rt);
    let mut out = HostOut::new(io::writer(&rt));
    called(&rt, alloc, words_of(&rt, alloc), &mut files, &mut out)
}
