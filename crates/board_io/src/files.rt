//! Files by name, as the command line reads them.
//!
//! What is held under a name never changes here, and each fault of reading raises a count that never
//! falls, so a failed read can be distinguished from a file that isn't there.
ghost use Rattle.std.specs.Prelude.{◌≡◌, ℕ, ◌+◌, ◌^◌, ◌<◌, ◌≤◌, ◌==◌, List, Option, Some, IfOk, IfSome, IsErrOf, IsTrue};
ghost use Rattle.std.specs.List.{list_any};
ghost use Rattle.std.specs.Option.{option_copied};
ghost use Rattle.std.specs.Str.{bytes_eq};
ghost use Rattle.board_io.specs.Distinct.{all_differ};
ghost use Rattle.board_io.specs.Faults.{Rose};
ghost use Rattle.board_io.specs.Files.{IsPrefixOf, IsMissing, held_by, fails_next, after_read, ReadAnswers, named, names};

use std::alloc::Global;
use std::marker::Model;

/// Why a file wasn't read: a fault of reading, no file under the name, or no memory for its bytes.
#[derive(Clone, Copy, Debug, PartialEq, Eq)]
pub enum ReadErr {
    Failed,
    Missing,
    NoMemory,
}

/// Files that are read whole, by name.
pub trait Files {
    /// The bytes held under each name, where they are known.
    ghost held: { Self → Option (List ℕ → Option (List ℕ)) };

    /// How many reads had a fault; it stands still at its type's end.
    ghost faults: { Self → ℕ };

    /// The first `max + 1` bytes of the file `name`, or all of them where there are fewer; so more
    /// than `max` bytes mean that the file is too large. `Failed` comes only with a new fault,
    /// `Missing` only where the name isn't held or with a new fault, `NoMemory` at any time.
    fn read(&mut self, alloc: Global, name: &str, max: u32) -> Result<Vec<u8>, ReadErr>
        requires { max < 2 ^ 31 }
        ensures held { held self.new ≡ held self.old }
        ensures counted { faults self.old ≤ faults self.new }
        ensures ok { IfOk result (λ v.
            IfSome (held self.old) (λ at. IsPrefixOf (at name.now) max v.items)) }
        ensures failed { IsErrOf result ReadErr.Failed → Rose (faults self.old) (faults self.new) }
        ensures missing { IsErrOf result ReadErr.Missing →
            IsMissing (held self.old) name.now (Rose (faults self.old) (faults self.new)) };
}

/// Files held in memory. The reads whose numbers were given, counted from 1, fail.
#[derive(Drop)]
pub struct MemFiles {
    files: Vec<(String, Vec<u8>)>,
    fails: Vec<u32>,
    reads: u64,
    faults: u64,
}

impl Model for MemFiles {
    ghost use Rattle.board_io.specs.Files.{FilesInMemory};
    ghost use Rattle.board_io.specs.Files.{named};

    ghost Value = { FilesInMemory };

    ghost view = { λ m. record {
      files = named m.files.items;
      fails = m.fails.items;
      reads = m.reads;
      faults = m.faults;
    } };
}

impl MemFiles {
    /// The given bytes under the given names, which differ; the reads whose numbers stand in `fails`
    /// are to fail.
    pub fn new(files: Vec<(String, Vec<u8>)>, fails: Vec<u32>) -> MemFiles
        requires { IsTrue (all_differ bytes_eq (names files.items)) }
        ensures { result ≡ record {
          files = named files.items;
          fails = fails.items;
          reads = 0;
          faults = 0;
        } }
    {
        MemFiles {
            files,
            fails,
            reads: 0,
            faults: 0,
        }
    }
}

impl Files for MemFiles {
    ghost held = { λ m. Some (held_by m.files) };

    ghost faults = { λ m. m.faults };

    fn read(&mut self, alloc: Global, name: &str, max: u32) -> Result<Vec<u8>, ReadErr>
        requires { max < 2 ^ 31 }
        ensures after { self.new ≡ after_read self.old }
        ensures counted { self.old.faults ≤ self.new.faults }
        ensures answers { ReadAnswers (fails_next self.old) (held_by self.old.files name.now) max
            result }
    {
        self.reads = self.reads.saturating_add(1);
        let failing = is_listed(&self.fails, self.reads);
        self.faults = self.faults.saturating_add(u64::from(failing));
        answer(alloc, failing, bytes_under(&self.files, name), max)
    }
}

fn is_listed(fails: &[u32], number: u64) -> bool
    ensures { result ≡ list_any (λ k. k == number) fails.now }
{
    fails.iter().any(|k| u64::from(*k) == number)
}

fn bytes_under<'a>(files: &'a [(String, Vec<u8>)], name: &str) -> Option<&'a [u8]>
    ensures { option_copied result ≡ held_by (named files.now) name.now }
{
    for (held, bytes) in files {
        if held.as_str() == name {
            return Some(bytes.as_slice());
        }
    }
    None
}

fn answer(alloc: Global, failing: bool, held: Option<&[u8]>, max: u32) -> Result<Vec<u8>, ReadErr>
    requires { max < 2 ^ 31 }
    ensures { ReadAnswers failing (option_copied held.entry) max result }
{
    if failing {
        return Err(ReadErr::Failed);
    }
    let Some(bytes) = held else {
        return Err(ReadErr::Missing);
    };
    let end = bytes.len().min(max as usize + 1);
    Vec::from_slice(alloc, &bytes[..end]).map_err(|_| ReadErr::NoMemory)
}
