//! A host of files, the first of which can't be opened or can't be read once, and the others can.
use crate::drip::Drip;
use std::alloc::Allocator;
use std::cell::Cell;
use std::fmt::Display;
use std::fs::{Metadata, OpenFile, OpenOptions};
use std::io::{self, Eprint, ErrorKind, Seek, SeekFrom, Write};
use std::rt::Files;

/// How many files were opened, and how many lines were said on standard error.
#[derive(Drop)]
pub struct Host {
    pub opened: Cell<u32>,
    pub said: Cell<u32>,
    pub opens: bool,
}

/// What the fakes don't do.
fn unsupported() -> io::Error {
    io::Error::from(ErrorKind::Unsupported)
}

impl Files for Host {
    type File = Drip;

    type Dir = Drip;

    fn open_file(&self, _how: &OpenOptions, _path: &str) -> io::Result<Drip> {
        let first = self.opened.get() == 0;
        self.opened.set(self.opened.get().saturating_add(1));
        if first && !self.opens {
            return Err(io::Error::from(ErrorKind::Interrupted));
        }
        Ok(Drip::new(3, first.then_some(ErrorKind::Interrupted)))
    }

    fn open_dir(&self, _path: &str) -> io::Result<Drip> {
        Err(unsupported())
    }

    fn metadata(&self, _path: &str) -> io::Result<Metadata> {
        Err(unsupported())
    }

    fn symlink_metadata(&self, _path: &str) -> io::Result<Metadata> {
        Err(unsupported())
    }

    fn copy(&self, _from: &str, _to: &str) -> io::Result<u64> {
        Err(unsupported())
    }

    fn rename(&self, _from: &str, _to: &str) -> io::Result<()> {
        Err(unsupported())
    }

    fn remove_file(&self, _path: &str) -> io::Result<()> {
        Err(unsupported())
    }

    fn create_dir(&self, _path: &str) -> io::Result<()> {
        Err(unsupported())
    }

    fn remove_dir(&self, _path: &str) -> io::Result<()> {
        Err(unsupported())
    }

    fn remove_dir_all<B: Allocator>(&self, _alloc: B, _path: &str) -> io::Result<()> {
        Err(unsupported())
    }
}

impl Eprint for Host {
    fn eprint<D: Display + Drop>(&self, _value: D) -> io::Result<()> {
        Ok(())
    }

    fn eprintln<D: Display + Drop>(&self, _value: D) -> io::Result<()> {
        self.said.set(self.said.get().saturating_add(1));
        Ok(())
    }
}

impl Write for Drip {
    fn write(&mut self, _buf: &[u8]) -> io::Result<usize> {
        Err(unsupported())
    }

    fn flush(&mut self) -> io::Result<()> {
        Err(unsupported())
    }
}

impl Seek for Drip {
    fn seek(&mut self, _to: SeekFrom) -> io::Result<u64> {
        Err(unsupported())
    }
}

impl OpenFile for Drip {
    fn metadata(&self) -> io::Result<Metadata> {
        Err(unsupported())
    }

    fn set_len(&self, _size: u64) -> io::Result<()> {
        Err(unsupported())
    }

    fn sync_all(&self) -> io::Result<()> {
        Err(unsupported())
    }

    fn sync_data(&self) -> io::Result<()> {
        Err(unsupported())
    }
}
