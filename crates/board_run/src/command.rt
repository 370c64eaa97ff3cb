//! The words of the command line, and the command that they ask for.
//!
//! Words are compared whole and their number is exact; a list of words in no row of the table is no
//! command. Operands are borrowed from the words.
ghost use Rattle.std.specs.Prelude.{◌≡◌, map, string_bytes};
ghost use Rattle.std.specs.Option.{option_map};
ghost use Rattle.board_run.specs.Command.{number, hart_row, check_row, replay_row, row_of, row};

use itoa::Buffer;

/// The most instructions that `hart` may be asked to execute.
const MOST_STEPS: u32 = 100_000_000;

/// A command with its operands.
#[derive(Clone, Copy, Debug, PartialEq, Eq)]
pub enum Command<'a> {
    /// Execute at most `most` instructions of the module image in the file `image`.
    Hart { image: &'a str, most: u32 },
    /// Read the board in the file `board` and its images, and say where its modules lie.
    Check { board: &'a str },
    /// Make the history in the file `log` on the board in the file `board`.
    Replay { board: &'a str, log: &'a str },
}

/// The command that the words after the program's name ask for, or none where they are in no row of
/// the table.
#[tactic(auto, unfolding(crate::specs::Command::row_of))]
pub fn command_of(words: &[String]) -> Option<Command<'_>>
    ensures { option_map row result ≡ row_of (map string_bytes words.now) }
{
    let (name, operands) = words.split_first()?;
    match name.as_str() {
        "hart" => hart(operands),
        "check" => check(operands),
        "replay" => replay(operands),
        _ => None,
    }
}

#[tactic(auto, unfolding(crate::specs::Command::hart_row))]
fn hart(operands: &[String]) -> Option<Command<'_>>
    ensures { option_map row result ≡ hart_row (map string_bytes operands.now) }
{
    match operands {
        [image, steps] => {
            let most = number(steps.as_str(), MOST_STEPS)?;
            Some(Command::Hart {
                image: image.as_str(),
                most,
            })
        }
        _ => None,
    }
}

#[tactic(auto, unfolding(crate::specs::Command::check_row))]
fn check(operands: &[String]) -> Option<Command<'_>>
    ensures { option_map row result ≡ check_row (map string_bytes operands.now) }
{
    match operands {
        [board] => Some(Command::Check {
            board: board.as_str(),
        }),
        _ => None,
    }
}

#[tactic(auto, unfolding(crate::specs::Command::replay_row))]
fn replay(operands: &[String]) -> Option<Command<'_>>
    ensures { option_map row result ≡ replay_row (map string_bytes operands.now) }
{
    match operands {
        [board, log] => Some(Command::Replay {
            board: board.as_str(),
            log: log.as_str(),
        }),
        _ => None,
    }
}

fn number(word: &str, most: u32) -> Option<u32>
    ensures { result ≡ number word.now most }
{
    let n = word.parse::<u32>().ok()?;
    let mut buffer = Buffer::new();
    if n <= most && buffer.format(n) == word {
        Some(n)
    } else {
        None
    }
}
