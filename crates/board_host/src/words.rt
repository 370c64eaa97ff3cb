//! The words of the command line, as the host gives them.
//!
//! The program's name isn't among them, and isn't looked at. Where a word isn't text, there are no
//! words at all. What the words ask for isn't read here.
ghost use Rattle.std.specs.Prelude.{◌≡◌, IfErr};

use board_io::Status;
use std::alloc::Global;
use std::env::FillError;
use std::rt::Env;
use std::{env, io};

/// A host whose first argument is the word after the program's name, which itself need not be text.
#[derive(Clone, Copy)]
struct AfterName<'a, R> {
    host: &'a R,
}

impl<R: Env> Env for AfterName<'_, R> {
    fn arg(&self, i: usize, buf: &mut [u8]) -> Result<usize, FillError> {
        self.host.arg(i.saturating_add(1), buf)
    }

    fn var(&self, name: &str, buf: &mut [u8]) -> Result<usize, FillError> {
        self.host.var(name, buf)
    }

    fn var_at(&self, i: usize, buf: &mut [u8]) -> Result<usize, FillError> {
        self.host.var_at(i, buf)
    }
}

/// The words after the program's name; none where one of them isn't text.
pub fn words_of(host: &impl Env, alloc: Global) -> Result<Vec<String>, Status>
    ensures { IfErr result (λ status. status ≡ Status.NoMemory) }
{
    let mut words = Vec::new(alloc);
    match env::args(&(AfterName { host }, alloc)) {
        Ok(args) => {
            for word in args {
                words.push(word).map_err(|_| Status::NoMemory)?;
            }
            Ok(words)
        }
        Err(error) if error.kind() == io::ErrorKind::OutOfMemory => Err(Status::NoMemory),
        Err(_) => Ok(words),
    }
}
