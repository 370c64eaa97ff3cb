//! How a command ends: the status that the process exits with.
//!
//! Each of the six has an exit status of its own, 0 to 5. Which one a command ends with is decided
//! by the command line, and nothing is printed here.
ghost use Rattle.std.specs.Prelude.{◌≡◌};
ghost use Rattle.board_io.specs.Status.{number_of};

/// How a command ended: its text was written whole; the words are no command; a file couldn't be read;
/// its content was refused; the text couldn't be written whole; memory ran out.
#[derive(Clone, Copy, Debug, PartialEq, Eq)]
pub enum Status {
    Done,
    Usage,
    ReadFault,
    Refused,
    WriteFault,
    NoMemory,
}

impl Status {
    /// The process's exit status.
    pub fn number(self) -> u8
        ensures { result ≡ number_of self }
    {
        match self {
            Status::Done => 0,
            Status::Usage => 1,
            Status::ReadFault => 2,
            Status::Refused => 3,
            Status::WriteFault => 4,
            Status::NoMemory => 5,
        }
    }
}
