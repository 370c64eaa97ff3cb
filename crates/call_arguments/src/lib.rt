//! What the arguments of a service point to in a module's memory: pointers, names, words and messages.
//!
//! Every service tests its pointers and names by these functions alone.
#![tactic(auto)]

mod laws;
mod messages;
mod names;
mod pointers;
mod words;

pub use laws::words_are_as_many;
pub use messages::message_at;
pub use names::name_at;
pub use pointers::pointer_refusal;
pub use words::{nth_word, put_word, put_words, word_at};
