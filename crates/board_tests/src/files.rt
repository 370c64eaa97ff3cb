//! Files in memory, read through the trait: prefixes, names that aren't held, and reads that are to
//! fail.
ghost use Rattle.std.specs.Prelude.{◌^◌, ◌<◌};

use board_run::{Files, MemFiles, ReadErr};
use std::alloc::Global;
use std::test::Fail;

fn two_files(alloc: Global, fails: Vec<u32>) -> Result<MemFiles, Fail> {
    let hello = (
        String::from_str(alloc, "a")?,
        Vec::from_slice(alloc, b"hello")?,
    );
    let empty = (String::from_str(alloc, "")?, Vec::new(alloc));
    Ok(MemFiles::new(vec![in alloc; hello, empty]?, fails))
}

fn read_through<F: Files>(
    files: &mut F,
    alloc: Global,
    name: &str,
    max: u32,
) -> Result<Vec<u8>, ReadErr>
    requires { max < 2 ^ 31 }
{
    files.read(alloc, name, max)
}

/// A read of a name, and what it gives or why it gives nothing.
enum Case {
    Gives(&'static str, u8, &'static str),
    Fails(&'static str, u8, ReadErr),
}

const CASES: [Case; 8] = [
    Case::Gives("a", 3, "hell"),
    Case::Fails("a", 3, ReadErr::Failed),
    Case::Fails("b", 3, ReadErr::Missing),
    Case::Gives("a", 4, "hello"),
    Case::Fails("b", 3, ReadErr::Failed),
    Case::Gives("a", 9, "hello"),
    Case::Gives("", 0, ""),
    Case::Gives("a", 0, "h"),
];

/// A read is as told.
fn holds(files: &mut MemFiles, alloc: Global, case: &Case) -> bool {
    match *case {
        Case::Gives(name, max, text) => read_through(files, alloc, name, u32::from(max)).is_ok_and(
            |bytes| bytes.as_slice() == text.as_bytes(),
        ),
        Case::Fails(name, max, why) => {
            read_through(files, alloc, name, u32::from(max)).err() == Some(why)
        }
    }
}

#[test]
fn reads_the_prefix_or_says_why_not(rt: HostRuntime) -> Result<(), Fail> {
    let mut files = two_files(rt.alloc(), vec![in rt.alloc(); 5, 2]?)?;
    for (i, case) in CASES.iter().enumerate() {
        assert!(rt; holds(&mut files, rt.alloc(), case), "read {i}");
    }
    Ok(())
}
