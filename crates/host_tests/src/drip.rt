//! A reader of a few bytes, which ends or fails once, and then has more.
use std::io::{self, ErrorKind, Read};

/// The bytes of every reader.
pub const TEXT: &[u8] = b"helloagain";

/// Gives the bytes before `end`, at most `width` a turn, then ends or fails once, and has more.
#[derive(Drop)]
pub struct Drip {
    pub at: usize,
    pub end: usize,
    pub width: usize,
    pub fault: Option<ErrorKind>,
}

impl Drip {
    /// A reader of the first five bytes.
    pub fn new(width: usize, fault: Option<ErrorKind>) -> Drip {
        Drip {
            at: 0,
            end: 5,
            width,
            fault,
        }
    }
}

impl Read for Drip {
    fn read(&mut self, buf: &mut [u8]) -> io::Result<usize> {
        let left = TEXT.get(self.at..self.end).unwrap_or(b"");
        let count = self.width.min(left.len()).min(buf.len());
        if count == 0 {
            self.end = TEXT.len();
            return match self.fault {
                Some(kind) => Err(io::Error::from(kind)),
                None => Ok(0),
            };
        }
        buf[..count].copy_from_slice(&left[..count]);
        self.at = self.at.saturating_add(count);
        Ok(count)
    }
}
