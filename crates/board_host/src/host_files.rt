//! The host's files, read whole and never written.
//!
//! What the host holds is not known; where it is known what a reader has left, what is read is a
//! prefix of that. A file that wasn't read is told on the host's standard error as it is read.
ghost use Rattle.std.specs.Prelude.{◌≡◌, ◌≢◌, ◌+◌, ◌^◌, ◌<◌, ◌≤◌, None, take, vec_len, IfOk, IfErr, IfSome};
ghost use Rattle.std.specs.Io.KnownBytes.{Consumes};
ghost use Rattle.std.specs.IoError.{error_kind};
ghost use Rattle.board_host.specs.Reads.{count_read};

use crate::failure::{Failure, told_read};
use board_io::{Files, ReadErr};
use std::alloc::Global;
use std::io::{Eprint, ErrorKind, Read};
use std::{fs, io};

/// How many bytes one read asks for at most.
const CHUNK: usize = 4096;

/// The files of the host that the runtime reaches. Each fault of reading is counted; a file that isn't
/// there is one.
#[derive(Drop)]
pub struct HostFiles<'a, R: std::rt::Files + Eprint> {
    rt: &'a R,
    pub faults: u64,
}

impl<'a, R: std::rt::Files + Eprint> HostFiles<'a, R> {
    /// No fault so far.
    pub fn new(rt: &'a R) -> Self
        ensures { result.faults ≡ 0 }
    {
        HostFiles { rt, faults: 0 }
    }
}

impl<R: std::rt::Files + Eprint> Files for HostFiles<'_, R> {
    ghost held = { λ _. None };

    ghost faults = { λ files. files.faults };

    fn read(&mut self, alloc: Global, name: &str, max: u32) -> Result<Vec<u8>, ReadErr>
        requires { max < 2 ^ 31 }
        ensures counted { self.old.faults ≤ self.new.faults }
        ensures count { self.new.faults ≡ count_read self.old.faults result }
        ensures bound { IfOk result (λ v. vec_len v ≤ max + 1) }
    {
        let read = read_named(self.rt, alloc, name, max as usize + 1);
        let outcome = told_read(self.rt, name, read);
        if let Err(ReadErr::Failed | ReadErr::Missing) = outcome {
            self.faults = self.faults.saturating_add(1);
        }
        outcome
    }
}

/// The first bytes of the file `name`, at most the given number.
fn read_named<R: std::rt::Files>(
    rt: &R,
    alloc: Global,
    name: &str,
    most: usize,
) -> Result<Vec<u8>, Failure>
    requires { most < 2 ^ 32 }
    ensures { IfOk result (λ v. vec_len v ≤ most) }
{
    let mut file = fs::open(rt, name).map_err(not_opened)?;
    read_prefix(alloc, &mut file, most)
}

/// What an error of opening a file means.
fn not_opened(error: io::Error) -> Failure
    ensures missing { error_kind error ≡ ErrorKind.NotFound → result.why ≡ ReadErr.Missing }
    ensures failed { error_kind error ≢ ErrorKind.NotFound → result.why ≡ ReadErr.Failed }
{
    let why = if error.kind() == ErrorKind::NotFound {
        ReadErr::Missing
    } else {
        ReadErr::Failed
    };
    Failure {
        why,
        error: Some(error),
    }
}

/// What an error of reading means, whatever its kind.
fn not_read(error: io::Error) -> Failure
    ensures { result.why ≡ ReadErr.Failed }
{
    Failure {
        why: ReadErr::Failed,
        error: Some(error),
    }
}

/// No memory for the bytes that were read; the host gave no error.
const NO_MEMORY: Failure = Failure {
    why: ReadErr::NoMemory,
    error: None,
};

/// The first bytes of a reader, at most the given number. Each turn takes a byte at least, or is
/// the last.
pub fn read_prefix<F: Read>(alloc: Global, reader: &mut F, most: usize) -> Result<Vec<u8>, Failure>
    requires { most < 2 ^ 32 }
    ensures bound { IfOk result (λ v. vec_len v ≤ most) }
    ensures prefix { IfOk result (λ v.
        IfSome (F.remaining reader.old) (λ xs. v.items ≡ take most xs)) }
    ensures taken { IfOk result (λ v.
        Consumes (F.remaining reader.old) (F.remaining reader.new) v.items) }
    ensures opened { IfErr result (λ f. f.why ≢ ReadErr.Missing) }
{
    let mut bytes = Vec::new(alloc);
    let mut chunk = [0; CHUNK];
    while bytes.len() < most {
        let room = CHUNK.min(most - bytes.len());
        let count = reader.read(&mut chunk[..room]).map_err(not_read)?;
        if count == 0 {
            break;
        }
        bytes
            .extend_from_slice(&chunk[..count])
            .map_err(|_| NO_MEMORY)?;
    }
    Ok(bytes)
}
