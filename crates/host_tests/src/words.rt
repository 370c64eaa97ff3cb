//! The words of a host's arguments: a first, a last and none, and one that isn't text.
//!
//! The host is a list of arguments in memory: the arguments of the test program aren't read.
use board_host::words_of;
use std::alloc::Global;
use std::env::FillError;
use std::rt::Env;

/// A host with the given number of arguments, joined by bars, and no variables.
#[derive(Drop)]
struct Args<'a> {
    joined: &'a [u8],
    count: usize,
}

impl Env for Args<'_> {
    fn arg(&self, i: usize, buf: &mut [u8]) -> Result<usize, FillError> {
        if i >= self.count {
            return Err(FillError::NotPresent);
        }
        let Some(arg) = self.joined.split(|b| *b == b'|').nth(i) else {
            return Err(FillError::NotPresent);
        };
        if buf.len() < arg.len() {
            return Err(FillError::TooLong);
        }
        buf[..arg.len()].copy_from_slice(arg);
        Ok(arg.len())
    }

    fn var(&self, _name: &str, _buf: &mut [u8]) -> Result<usize, FillError> {
        Err(FillError::NotPresent)
    }

    fn var_at(&self, _i: usize, _buf: &mut [u8]) -> Result<usize, FillError> {
        Err(FillError::NotPresent)
    }
}

/// The arguments, joined by bars, and how many they are; the words, and how many they are.
enum Case {
    Of(&'static [u8], u8, &'static str, u8),
}

const CASES: [Case; 10] = [
    Case::Of(b"txboard|hart|p1.img|1", 4, "hart|p1.img|1", 3),
    Case::Of(b"txboard|hart| an image ", 3, "hart| an image ", 2),
    Case::Of(b"txboard||hart|", 4, "|hart|", 3),
    Case::Of(b"txboard|hart", 2, "hart", 1),
    Case::Of(b"txboard", 1, "", 0),
    Case::Of(b"", 0, "", 0),
    Case::Of(b"\xFF|hart|", 3, "hart|", 2),
    Case::Of(b"\xFF", 1, "", 0),
    Case::Of(b"txboard|\xFF|p1.img|1", 4, "", 0),
    Case::Of(b"txboard|hart|p1.img|1\xFF", 4, "", 0),
];

/// The words of the arguments of a case are as told.
fn holds(alloc: Global, case: &Case) -> bool {
    let Case::Of(joined, count, want, most) = *case;
    let count = usize::from(count);
    let Ok(words) = words_of(&Args { joined, count }, alloc) else {
        return false;
    };
    words.len() == usize::from(most)
        && words
            .iter()
            .zip(want.split('|'))
            .all(|(word, wanted)| word.as_str() == wanted)
}

#[test]
fn words_follow_the_programs_name(rt: HostRuntime) {
    for (i, case) in CASES.iter().enumerate() {
        assert!(rt; holds(rt.alloc(), case), "case {i}");
    }
}
