//! Messages of queues.
//!
//! A message has room for sixteen words in itself, so nothing here takes memory.
ghost use Rattle.std.specs.Prelude.{◌≡◌, ◌≤◌, ◌<◌, ◌∷◌, ◌++◌, [], length};
ghost use Rattle.tx_types.specs.Limits.{message_limit};

use arrayvec::ArrayVec;
use std::marker::Model;

/// A message: at most 16 words (ThreadX User Guide, `tx_queue_create`).
#[derive(Clone, Debug, Drop)]
pub struct Message {
    words: ArrayVec<u32, 16>,
}

impl Model for Message {
    ghost use Rattle.std.specs.Prelude.{ℕ, List};

    ghost Value = { List ℕ };

    ghost view = { λ m. m.words.items };
}

impl Message {
    /// The message of no words.
    pub fn empty() -> Message
        ensures { result ≡ [] }
    {
        Message {
            words: ArrayVec::new(),
        }
    }

    /// The message of these words.
    pub fn from_words(words: &[u32]) -> Message
        requires { length words.now ≤ message_limit }
        ensures { result ≡ words.now }
    {
        let mut message = Message::empty();
        for w in words {
            message.push(*w);
        }
        message
    }

    /// Adds a word at the end.
    pub fn push(&mut self, w: u32)
        requires { length self.old < message_limit }
        ensures { self.new ≡ self.old ++ w ∷ [] }
    {
        self.words.push(w);
    }

    /// Its words.
    pub fn words(&self) -> &[u32]
        ensures value { result.now ≡ self.now }
        ensures short { length self.now ≤ message_limit }
    {
        &self.words
    }
}
