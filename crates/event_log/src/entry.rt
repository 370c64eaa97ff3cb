//! One entry of a history, and its line of text.
//!
//! A line is `S n` for n steps, or `I d h` for the word h of device d, and ends with a newline.
ghost use Rattle.std.specs.Prelude.{◌≡◌, ◌+◌, ◌≤◌, ◌++◌, ◌↔◌, IsTrue};
ghost use Rattle.arrayvec.specs.ArrayString.{array_string_len};
ghost use Rattle.event_log.specs.Log.{IsEntry, steps_in};
ghost use Rattle.event_log.specs.Text.{line_of};
ghost use Rattle.tx_types.specs.Limits.{line_room};

use board_values::DevNo;
use tx_types::{Line, put_decimal, put_hex};

/// What happened: a number of steps of the board, or an interrupt of a device with a word.
#[derive(Clone, Copy, Debug, PartialEq, Eq)]
pub enum Entry {
    Steps(u32),
    Irq(DevNo, u32),
}

impl Entry {
    /// How many steps it is.
    pub fn steps(self) -> u32
        ensures { result ≡ steps_in self }
    {
        match self {
            Entry::Steps(n) => n,
            Entry::Irq(..) => 0,
        }
    }

    /// Whether it is at least one step, or of one of the given number of devices.
    pub(crate) fn is_of(&self, devices: u8) -> bool
        ensures { IsTrue result ↔ IsEntry devices self.now }
    {
        match self {
            Entry::Steps(n) => *n > 0,
            Entry::Irq(d, w) => {
                let _word = *w;
                d.number() < devices
            }
        }
    }
}

/// Appends the line of an entry, which takes up to 22 bytes.
pub fn entry_line(e: Entry, out: &mut Line)
    requires { array_string_len out.old + 22 ≤ line_room }
    ensures bytes { out.new.bytes ≡ out.old.bytes ++ line_of e }
    ensures short { array_string_len out.new ≤ array_string_len out.old + 22 }
{
    match e {
        Entry::Steps(n) => {
            out.push_str("S ");
            put_decimal(out, n);
        }
        Entry::Irq(d, w) => {
            out.push_str("I ");
            put_decimal(out, u32::from(d.number()));
            out.push_str(" ");
            put_hex(out, w);
        }
    }
    out.push_str("\n");
}
