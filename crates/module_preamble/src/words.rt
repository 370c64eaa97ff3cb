//! The sixteen words of a preamble, as they lie in an image.
//!
//! Word i is the four bytes from 4 i on, the lowest first. The words 16 to 31 are ignored.

ghost use Rattle.std.specs.Prelude.{◌≡◌, ◌+◌, ◌≤◌, length};
ghost use Rattle.machine_words.specs.Word.{word_at};
ghost use Rattle.module_preamble.specs.Words.{words_of, has_callback};

use crate::PREAMBLE_BYTES;
use byteorder::{ByteOrder, LittleEndian};

/// The words of a module preamble, in the order of the ThreadX Modules User Guide. Entries are
/// offsets in bytes from the image's start, and sizes are in bytes where nothing else is said.
#[derive(Clone, Copy, Debug, PartialEq, Eq)]
pub struct Preamble {
    /// What marks a module among other files.
    pub id: u32,
    /// The version of the preamble.
    pub major: u32,
    /// Its minor version, which may be any word.
    pub minor: u32,
    /// The size of the preamble, in words.
    pub words: u32,
    /// The application's own number for the module.
    pub app: u32,
    /// The property bits: 0 for user mode, 1 for memory protection, 2 for access to shared memory.
    pub props: u32,
    /// The entry at which every thread of the module begins.
    pub shell: u32,
    /// The entry that the start thread is to call.
    pub start: u32,
    /// The entry of the stop thread, or 0 for none.
    pub stop: u32,
    /// The priority of the start and stop threads.
    pub start_prio: u32,
    /// The size of their stack.
    pub start_stack: u32,
    /// The entry that the callback thread is to call, or 0 for none.
    pub callback: u32,
    /// The priority of the callback thread.
    pub callback_prio: u32,
    /// The size of its stack.
    pub callback_stack: u32,
    /// The size of the image, preamble included.
    pub code_size: u32,
    /// The size of the module's data.
    pub data_size: u32,
}

impl Preamble {
    /// The words at the head of an image that has room for them.
    pub(crate) fn of(image: &[u8]) -> Preamble
        requires { PREAMBLE_BYTES ≤ length image.now }
        ensures { result ≡ words_of image.now }
    {
        Preamble {
            id: word(image, 0),
            major: word(image, 4),
            minor: word(image, 8),
            words: word(image, 12),
            app: word(image, 16),
            props: word(image, 20),
            shell: word(image, 24),
            start: word(image, 28),
            stop: word(image, 32),
            start_prio: word(image, 36),
            start_stack: word(image, 40),
            callback: word(image, 44),
            callback_prio: word(image, 48),
            callback_stack: word(image, 52),
            code_size: word(image, 56),
            data_size: word(image, 60),
        }
    }

    /// Whether the module has a callback thread.
    pub fn has_callback(&self) -> bool
        ensures { result ≡ has_callback self.now }
    {
        self.callback != 0
    }
}

/// The word in the four bytes from a place on.
fn word(image: &[u8], at: usize) -> u32
    requires { at + 4 ≤ length image.now }
    ensures { result ≡ word_at image.now at }
{
    LittleEndian::read_u32(&image[at..])
}
