//! What a call that failed says on standard error, in one line: the file and the host's error, the output,
//! or that memory ran out.
//!
//! Nothing of it goes to the output, and a line that can't be written is left out.
ghost use Rattle.std.specs.Prelude.{◌≡◌, MatchResult, IsOkAnd, IsErrAnd};

use board_io::{ReadErr, Status};
use std::io;
use std::io::Eprint;

/// Why a file of the host wasn't read, with the host's error where it gave one.
#[derive(Clone, Copy)]
pub struct Failure {
    pub why: ReadErr,
    pub error: Option<io::Error>,
}

/// Says which file wasn't read, if a host's error is why, and passes the outcome on.
pub(crate) fn told_read<T: Drop, E: Eprint>(
    host: &E,
    name: &str,
    outcome: Result<T, Failure>,
) -> Result<T, ReadErr>
    ensures { MatchResult outcome (λ v. IsOkAnd result (λ w. w ≡ v))
        (λ f. IsErrAnd result (λ e. e ≡ f.why)) }
{
    match outcome {
        Ok(value) => Ok(value),
        Err(failure) => {
            if let Some(error) = failure.error {
                let _ = eprintln!(host; "txboard: {name:?}: {error}");
            }
            Err(failure.why)
        }
    }
}

/// Says of a call that ended so what failed, but for a file, which was told as it was read.
pub fn tell_end<E: Eprint>(host: &E, status: Status) {
    match status {
        Status::WriteFault => {
            let _ = eprintln!(host; "txboard: the output could not be written");
        }
        Status::NoMemory => {
            let _ = eprintln!(host; "txboard: out of memory");
        }
        Status::Done | Status::Usage | Status::ReadFault | Status::Refused => {}
    }
}
