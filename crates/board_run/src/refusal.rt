//! Why a call stops before its text: a fault of reading, a refused file, or out of memory.
//!
//! A refusal is printed as one line; the other two print nothing.
ghost use Rattle.std.specs.Prelude.{◌≡◌, ◌<◌, ◌++◌, map, decimal, string_bytes, IfOk, OnOk};
ghost use Rattle.board_report.specs.Parts.{graphic};
ghost use Rattle.board_run.specs.Refusal.{refusal_line, refusal_text, rule_text, stop_of, want_of_memory};

use board_file::Path;
use board_io::ReadErr;
use itoa::Buffer;
use module_preamble::PreErr;
use std::alloc::{AllocError, AllocFailed, Global};
use tx_types::{Line, NoMemory, put_decimal, put_hex};

/// A file that was read and is refused.
#[derive(Debug, Drop)]
pub enum Refusal {
    /// The board file has more than 65,536 bytes.
    BoardTooLarge,
    /// The board file is no TOML table.
    NotToml,
    /// The field of the board file at this path is the first wrong one.
    Field(Path),
    /// The image of this number has more than 1,048,576 bytes.
    ImageTooLarge(u8),
    /// The log has more than 4,194,304 bytes.
    LogTooLarge,
    /// The line of this number of the log, from 1, is its first bad one.
    LogLine(u32),
    /// The preamble of the image of this number breaks a rule.
    Image(u8, PreErr),
    /// The module of this number is the first that finds no room in RAM.
    Room(u8),
}

/// Why a call stops before its text.
#[derive(Debug, Drop)]
pub enum Stop {
    ReadFault,
    Refused(Refusal),
    NoMemory,
}

impl From<ReadErr> for Stop {
    ghost from_gives = { λ err stop. stop ≡ stop_of err };

    fn from(err: ReadErr) -> Stop {
        match err {
            ReadErr::Failed | ReadErr::Missing => Stop::ReadFault,
            ReadErr::NoMemory => Stop::NoMemory,
        }
    }
}

impl From<NoMemory> for Stop {
    ghost from_gives = { λ _ stop. stop ≡ want_of_memory };

    fn from(_: NoMemory) -> Stop {
        Stop::NoMemory
    }
}

impl From<AllocError> for Stop {
    ghost from_gives = { λ _ stop. stop ≡ want_of_memory };

    fn from(_: AllocError) -> Stop {
        Stop::NoMemory
    }
}

impl<T: Drop> From<AllocFailed<T>> for Stop {
    ghost from_gives = { λ _ stop. stop ≡ want_of_memory };

    fn from(_: AllocFailed<T>) -> Stop {
        Stop::NoMemory
    }
}

impl Refusal {
    /// The line that is printed. It may be longer than a `Line`, as a path may be.
    pub fn line(&self, alloc: Global) -> Result<String, NoMemory>
        ensures { IfOk result (λ line. string_bytes line ≡ refusal_line self.now) }
    {
        let mut line = String::from_str(alloc, "refused ")?;
        self.put(&mut line)?;
        line.push_str("\n")?;
        Ok(line)
    }

    /// Appends what is refused and why.
    fn put(&self, text: &mut String) -> Result<(), AllocError>
        ensures { OnOk result (string_bytes text.new
            ≡ string_bytes text.old ++ refusal_text self.now) }
    {
        match self {
            Refusal::BoardTooLarge => text.push_str("board too large"),
            Refusal::NotToml => text.push_str("board: not toml"),
            Refusal::Field(path) => {
                text.push_str("board: ")?;
                put_path(text, path)
            }
            Refusal::ImageTooLarge(image) => {
                put_numbered(text, "image ", u32::from(*image))?;
                text.push_str(" too large")
            }
            Refusal::LogTooLarge => text.push_str("log too large"),
            Refusal::LogLine(line) => put_numbered(text, "log: line ", *line),
            Refusal::Image(image, err) => {
                put_numbered(text, "image ", u32::from(*image))?;
                text.push_str(": ")?;
                text.push_str(rule(err).as_str())
            }
            Refusal::Room(image) => put_numbered(text, "room ", u32::from(*image)),
        }
    }
}

/// Appends a word and a number.
fn put_numbered(text: &mut String, word: &str, number: u32) -> Result<(), AllocError>
    ensures { OnOk result (string_bytes text.new
        ≡ string_bytes text.old ++ word.now ++ decimal number) }
{
    let mut buffer = Buffer::new();
    text.push_str(word)?;
    text.push_str(buffer.format(number))
}

/// Appends a path; a byte that isn't a graphic character of ASCII prints as a dot.
fn put_path(text: &mut String, path: &Path) -> Result<(), AllocError>
    ensures { OnOk result (string_bytes text.new ≡ string_bytes text.old ++ map graphic path.now) }
{
    let bytes = path.as_str().as_bytes();
    for b in bytes {
        text.push(graphic(*b))?;
    }
    Ok(())
}

/// A byte as it prints.
fn graphic(b: u8) -> char
    ensures value { result ≡ graphic b }
    ensures ascii { result < 128 }
{
    if 0x21 <= b && b <= 0x7E {
        char::from(b)
    } else {
        '.'
    }
}

/// The name of a broken rule and its numbers.
fn rule(err: &PreErr) -> Line
    ensures { result.bytes ≡ rule_text err.now }
{
    let mut line = Line::new();
    line.push_str(err.name());
    if let Some(number) = err.number() {
        line.push_str(" ");
        put_decimal(&mut line, number);
    }
    if let Some(word) = err.word() {
        line.push_str(" ");
        put_hex(&mut line, word);
    }
    line
}
