//! One entry of the table: a queue with its messages, or none.
//!
//! An entry has room for the most messages from the start and keeps it, so nothing but `new` takes
//! memory. Where there is no queue there are no messages.
ghost use Rattle.std.specs.Prelude.{◌≡◌, ◌<◌, ◌≤◌, ◌*◌, ◌∷◌, ◌++◌, [], None, Some, IfOk, IfSome, length, drop, slice_get};
ghost use Rattle.std.specs.Option.{option_copied};
ghost use Rattle.tx_types.specs.Limits.{message_limit};
ghost use Rattle.msg_queues.specs.Entry.{IsQueue, area_limit, empty_queue, words_in, messages_in, room_in, holding};

use crate::MESSAGES;
use std::alloc::Global;
use std::collections::VecDeque;
use std::marker::Model;
use tx_types::{Message, NoMemory};

/// How many words each message of a queue has, and how many messages it holds at most.
#[derive(Clone, Copy, Debug)]
pub(crate) struct Shape {
    words: u32,
    capacity: u32,
}

/// A queue, or none.
#[derive(Drop)]
pub(crate) struct Entry {
    shape: Option<Shape>,
    messages: VecDeque<Message>,
}

impl Model for Entry {
    ghost use Rattle.std.specs.Prelude.{◌≡◌, Option};
    ghost use Rattle.std.specs.VecDeque.{deque_capacity};
    ghost use Rattle.msg_queues.specs.Entry.{Queue, IsEntry, capacity_limit, seen};

    ghost Value = { Option Queue };

    ghost view = { λ e. seen e.shape e.messages.items };

    ghost invariant = { λ e. IsEntry e.shape e.messages.items
        × (deque_capacity e.messages ≡ capacity_limit) };
}

impl Entry {
    /// No queue, with the memory for one.
    pub(crate) fn new(alloc: Global) -> Result<Entry, NoMemory>
        ensures { IfOk result (λ e. e ≡ None) }
    {
        let messages = VecDeque::with_capacity(alloc, MESSAGES)?;
        Ok(Entry {
            shape: None,
            messages,
        })
    }

    /// A queue without messages.
    pub(crate) fn create(&mut self, words: u32, capacity: u32)
        requires words_from { 1 ≤ words }
        requires words_to { words ≤ message_limit }
        requires capacity_from { 1 ≤ capacity }
        requires area { 4 * words * capacity ≤ area_limit }
        ensures after { self.new ≡ Some (empty_queue words capacity) }
        ensures sound { IfSome self.new IsQueue }
    {
        self.messages.clear();
        self.shape = Some(Shape { words, capacity });
    }

    /// No queue any more.
    pub(crate) fn remove(&mut self)
        ensures { self.new ≡ None }
    {
        self.messages.clear();
        self.shape = None;
    }

    /// A message goes last.
    pub(crate) fn push_back(&mut self, m: &Message)
        requires free { 0 < room_in self.old }
        requires whole { length m.now ≡ words_in self.old }
        ensures after { self.new ≡ holding self.old (messages_in self.old ++ m.now ∷ []) }
        ensures sound { IfSome self.new IsQueue }
    {
        let copy = Message::from_words(m.words());
        self.messages.push_back_reserved(copy);
    }

    /// A message goes first.
    pub(crate) fn push_front(&mut self, m: &Message)
        requires free { 0 < room_in self.old }
        requires whole { length m.now ≡ words_in self.old }
        ensures after { self.new ≡ holding self.old (m.now ∷ messages_in self.old) }
        ensures sound { IfSome self.new IsQueue }
    {
        let copy = Message::from_words(m.words());
        self.messages.push_front_reserved(copy);
    }

    /// Takes the first message.
    pub(crate) fn pop(&mut self) -> Option<Message>
        ensures after { self.new ≡ holding self.old (drop 1 (messages_in self.old)) }
        ensures answer { result ≡ slice_get (messages_in self.old) 0 }
        ensures sound { IfSome self.new IsQueue }
    {
        self.messages.pop_front()
    }

    /// Takes all messages out.
    pub(crate) fn flush(&mut self)
        ensures after { self.new ≡ holding self.old [] }
        ensures sound { IfSome self.new IsQueue }
    {
        self.messages.clear();
    }

    /// How many messages there are.
    pub(crate) fn len(&self) -> u32
        ensures { result ≡ length (messages_in self.now) }
    {
        self.messages.len() as u32
    }

    /// How many more messages it holds.
    pub(crate) fn room(&self) -> u32
        ensures { result ≡ room_in self.now }
    {
        match self.shape {
            Some(shape) => shape.capacity - self.messages.len() as u32,
            None => 0,
        }
    }

    /// How many words each message has.
    pub(crate) fn words(&self) -> u32
        ensures { result ≡ words_in self.now }
    {
        match self.shape {
            Some(shape) => shape.words,
            None => 0,
        }
    }

    /// The message at a place, from the first on.
    pub(crate) fn message(&self, i: u32) -> Option<&Message>
        ensures { option_copied result ≡ slice_get (messages_in self.now) i }
    {
        self.messages.get(i as usize)
    }
}
