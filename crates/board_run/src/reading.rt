//! Files read whole, and refused where they are too large.
//!
//! A file that is larger than it may be is refused, never cut to size. What the bytes of a file
//! mean is asked elsewhere.
ghost use Rattle.std.specs.Prelude.{◌≡◌, ◌≤◌, ◌<◌, ◌^◌, length, IfOk};
ghost use Rattle.std.specs.Option.{option_map};
ghost use Rattle.board_io.specs.Faults.{Rose};
ghost use Rattle.board_run.specs.Held.{most_image, file_at, image_at};
ghost use Rattle.board_run.specs.Reading.{Gives};

use crate::refusal::{Refusal, Stop};
use board_io::Files;
use std::alloc::Global;

/// The most bytes that an image may have.
const MOST_IMAGE: u32 = 1_048_576;

/// The file of a name, which is refused where it has more than the given number of bytes.
pub fn file_of<F: Files>(
    alloc: Global,
    name: &str,
    most: u32,
    too_large: Refusal,
    files: &mut F,
) -> Result<Vec<u8>, Stop>
    requires { most < 2 ^ 31 }
    ensures held { F.held files.new ≡ F.held files.old }
    ensures counted { F.faults files.old ≤ F.faults files.new }
    ensures file { Gives (λ v. v.items) (option_map (file_at most too_large name.now)
        (F.held files.old))
        (Rose (F.faults files.old) (F.faults files.new)) result }
    ensures within { IfOk result (λ v. length v.items ≤ most) }
{
    let bytes = files.read(alloc, name, most)?;
    if bytes.len() > most as usize {
        return Err(Stop::Refused(too_large));
    }
    Ok(bytes)
}

/// The image of a number, from the file of a name.
pub fn image_of<F: Files>(
    alloc: Global,
    number: u8,
    name: &str,
    files: &mut F,
) -> Result<Vec<u8>, Stop>
    ensures held { F.held files.new ≡ F.held files.old }
    ensures counted { F.faults files.old ≤ F.faults files.new }
    ensures image { Gives (λ v. v.items) (option_map (image_at number name.now) (F.held files.old))
        (Rose (F.faults files.old) (F.faults files.new)) result }
    ensures within { IfOk result (λ v. length v.items ≤ most_image) }
{
    file_of(
        alloc,
        name,
        MOST_IMAGE,
        Refusal::ImageTooLarge(number),
        files,
    )
}
