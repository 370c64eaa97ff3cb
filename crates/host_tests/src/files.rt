//! Readers that give few bytes a turn, end or fail once and then have more; a host whose first file
//! fails once; and files of the host that are there or aren't.
//!
//! One file is written to the host's folder for temporary files, and removed at the end; no other
//! file is written.
use crate::drip::Drip;
use crate::host::Host;
use board_host::{HostFiles, read_prefix};
use board_io::{Files, ReadErr};
use std::alloc::Global;
use std::cell::Cell;
use std::io::ErrorKind;
use std::test::Fail;
use std::{env, fs, process};

/// How wide a reader of "hello" is, how many bytes are asked for, and what is read.
enum Case {
    /// It ends once, and what it gives is these bytes.
    Ends(u8, u8, &'static str),
    /// It fails once, after these bytes.
    Fails(u8, u8, ErrorKind),
    /// It would fail, and isn't asked so far.
    Spared(u8, u8, &'static str),
}

const CASES: [Case; 10] = [
    Case::Ends(1, 9, "hello"),
    Case::Ends(2, 9, "hello"),
    Case::Ends(9, 5, "hello"),
    Case::Ends(1, 3, "hel"),
    Case::Ends(2, 0, ""),
    Case::Ends(0, 9, ""),
    Case::Fails(1, 9, ErrorKind::BrokenPipe),
    Case::Fails(2, 6, ErrorKind::BrokenPipe),
    Case::Fails(1, 9, ErrorKind::Interrupted),
    Case::Spared(1, 5, "hello"),
];

/// What is read of a reader: these bytes, or none, since it failed.
fn reads(alloc: Global, mut reader: Drip, most: u8, want: Option<&str>) -> bool {
    match read_prefix(alloc, &mut reader, usize::from(most)) {
        Ok(bytes) => want.is_some_and(|text| bytes.as_slice() == text.as_bytes()),
        Err(failure) => want.is_none() && failure.why == ReadErr::Failed,
    }
}

/// The case is as told.
fn holds(alloc: Global, case: &Case) -> bool {
    match *case {
        Case::Ends(width, most, text) => {
            reads(alloc, Drip::new(usize::from(width), None), most, Some(text))
        }
        Case::Fails(width, most, kind) => {
            reads(alloc, Drip::new(usize::from(width), Some(kind)), most, None)
        }
        Case::Spared(width, most, text) => {
            let fault = Some(ErrorKind::BrokenPipe);
            reads(
                alloc,
                Drip::new(usize::from(width), fault),
                most,
                Some(text),
            )
        }
    }
}

#[test]
fn reads_a_prefix_or_fails(rt: HostRuntime) {
    for (i, case) in CASES.iter().enumerate() {
        assert!(rt; holds(rt.alloc(), case), "case {i}");
    }
}

/// One read of a host whose first file fails: one file is opened, one fault counted and told. The next
/// read is of another file, which has no fault.
fn fails_once(alloc: Global, opens: bool) -> bool {
    let host = Host {
        opened: Cell::new(0),
        said: Cell::new(0),
        opens,
    };
    let mut files = HostFiles::new(&host);
    let first = files.read(alloc, "a", 9);
    let once = host.opened.get() == 1 && host.said.get() == 1 && files.faults == 1;
    let next = files.read(alloc, "a", 9);
    let went_on = host.opened.get() == 2 && host.said.get() == 1 && files.faults == 1;
    first == Err(ReadErr::Failed) && once && next.is_ok() && went_on
}

#[test]
fn a_read_is_made_once(rt: HostRuntime) {
    assert!(rt; fails_once(rt.alloc(), false) && fails_once(rt.alloc(), true));
}

/// How many bytes are kept of a file of 5000, at most one more than these.
enum Kept {
    Of(u16, usize),
}

const KEPT: [Kept; 5] = [
    Kept::Of(9999, 5000),
    Kept::Of(5000, 5000),
    Kept::Of(4999, 5000),
    Kept::Of(4998, 4999),
    Kept::Of(0, 1),
];

#[test]
fn reads_files_of_the_host(rt: HostRuntime) -> Result<(), Fail> {
    let folder = env::temp_dir(&rt)?;
    let name = format!(in rt.alloc(); "txboard-{}", process::id(rt.process()))?;
    let path = folder.join(rt.alloc(), name.as_str())?;
    let held: Vec<u8> = (0..5000u16).map(|i| (i % 251) as u8).collect(rt.alloc())?;
    fs::write(&rt, path.as_path(), held.as_slice())?;
    let mut files = HostFiles::new(&rt);
    for Kept::Of(max, want) in &KEPT {
        let (max, want) = (*max, *want);
        let bytes = files
            .read(rt.alloc(), path.as_str(), u32::from(max))
            .map_err(|_| "not read")?;
        let is_prefix = held.as_slice().starts_with(bytes.as_slice());
        assert!(rt;
            bytes.len() == want && is_prefix && files.faults == 0,
            "{max}"
        );
    }
    fs::remove_file(&rt, path.as_path())?;
    let gone = files.read(rt.alloc(), path.as_str(), 9).err() == Some(ReadErr::Missing);
    let folder = files.read(rt.alloc(), folder.as_str(), 9).err() == Some(ReadErr::Failed);
    let unnamed = files.read(rt.alloc(), "", 9).err() == Some(ReadErr::Missing);
    assert!(rt; gone && folder && unnamed && files.faults == 3);
    Ok(())
}
