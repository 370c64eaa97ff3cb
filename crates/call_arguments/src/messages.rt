//! Messages in a module's memory.
//!
//! A message is copied word by word: what is written there later doesn't change it.
ghost use Rattle.std.specs.Prelude.{◌≡◌, ◌≤◌, ◌*◌, true};
ghost use Rattle.tx_types.specs.Limits.{message_limit};
ghost use Rattle.region_guard.specs.Memory.{may};
ghost use Rattle.call_arguments.specs.Words.{words_at};

use crate::words::nth_word;
use region_guard::{Access, Guard};
use tx_types::{Message, ModNo};

/// The message of n words at an address.
pub fn message_at(g: &Guard, m: ModNo, x: u32, n: u8) -> Message
    requires allowed { may g.now m Access.Load x (4 * n) ≡ true }
    requires short { n ≤ message_limit }
    ensures { result ≡ words_at g.now x n }
{
    let mut message = Message::empty();
    for i in 0..n {
        message.push(nth_word(g, m, x, 4 * u32::from(n), u32::from(i)));
    }
    message
}
