//! The table of queues, by the number of their object.
//!
//! Each call changes one queue. No call but `new` takes memory: each entry has it for the largest
//! queue from the start.
ghost use Rattle.std.specs.Prelude.{◌≡◌, ◌<◌, ◌≤◌, ◌*◌, IfOk, length};
ghost use Rattle.std.specs.Option.{option_copied};
ghost use Rattle.tx_types.specs.Limits.{message_limit};
ghost use Rattle.msg_queues.specs.Entry.{area_limit};
ghost use Rattle.msg_queues.specs.Queues.{IsQueueTable, no_queues, words_of, messages_of, room_of, message_at, created, removed, pushed_back, pushed_front, popped, flushed};

use crate::OBJECTS;
use crate::entry::Entry;
use std::alloc::Global;
use std::marker::Model;
use tx_types::{Message, NoMemory, ObjNo};

/// The queues of all objects.
#[derive(Drop)]
pub struct Queues {
    entries: Vec<Entry>,
}

impl Model for Queues {
    ghost use Rattle.std.specs.Prelude.{List, Option};
    ghost use Rattle.msg_queues.specs.Entry.{Queue};
    ghost use Rattle.msg_queues.specs.Queues.{IsQueueTable};

    ghost Value = { List (Option Queue) };

    ghost view = { λ t. t.entries.items };

    ghost invariant = { λ t. IsQueueTable t.entries.items };
}

impl Queues {
    /// No queue, and the memory for all of them.
    pub fn new(alloc: Global) -> Result<Queues, NoMemory>
        ensures { IfOk result (λ t. t ≡ no_queues) }
    {
        let mut entries = Vec::with_capacity(alloc, OBJECTS)?;
        for _ in 0..OBJECTS {
            entries.push_reserved(Entry::new(alloc)?);
        }
        Ok(Queues { entries })
    }

    /// Makes object o a queue without messages: how many words each will have, and how many of them
    /// it holds at most. The messages have at most 4,096 bytes together.
    pub fn create(&mut self, o: ObjNo, words: u32, capacity: u32)
        requires words_from { 1 ≤ words }
        requires words_to { words ≤ message_limit }
        requires capacity_from { 1 ≤ capacity }
        requires area { 4 * words * capacity ≤ area_limit }
        ensures { self.new ≡ created self.old o words capacity }
    {
        self.entries[o.place()].create(words, capacity);
    }

    /// Object o is no queue any more; its messages are gone.
    pub fn remove(&mut self, o: ObjNo)
        ensures { self.new ≡ removed self.old o }
    {
        self.entries[o.place()].remove();
    }

    /// A message goes last in the queue o. Whether it has room, `room` says.
    pub fn push_back(&mut self, o: ObjNo, m: &Message)
        requires free { 0 < room_of self.old o }
        requires whole { length m.now ≡ words_of self.old o }
        ensures { self.new ≡ pushed_back self.old o m.now }
    {
        self.entries[o.place()].push_back(m);
    }

    /// A message goes first in the queue o. Whether it has room, `room` says.
    pub fn push_front(&mut self, o: ObjNo, m: &Message)
        requires free { 0 < room_of self.old o }
        requires whole { length m.now ≡ words_of self.old o }
        ensures { self.new ≡ pushed_front self.old o m.now }
    {
        self.entries[o.place()].push_front(m);
    }

    /// Takes the first message of the queue o. None exactly where there is no message.
    pub fn pop(&mut self, o: ObjNo) -> Option<Message>
        ensures after { self.new ≡ popped self.old o }
        ensures answer { result ≡ message_at self.old o 0 }
    {
        self.entries[o.place()].pop()
    }

    /// Takes all messages out of the queue o.
    pub fn flush(&mut self, o: ObjNo)
        ensures { self.new ≡ flushed self.old o }
    {
        self.entries[o.place()].flush();
    }

    /// How many messages are in the queue o.
    pub fn len(&self, o: ObjNo) -> u32
        ensures value { result ≡ length (messages_of self.now o) }
        ensures sound { IsQueueTable self.now }
    {
        self.entries[o.place()].len()
    }

    /// How many more messages the queue o holds.
    pub fn room(&self, o: ObjNo) -> u32
        ensures { result ≡ room_of self.now o }
    {
        self.entries[o.place()].room()
    }

    /// How many words each message of the queue o has.
    pub fn words(&self, o: ObjNo) -> u32
        ensures { result ≡ words_of self.now o }
    {
        self.entries[o.place()].words()
    }

    /// The message at a place of the queue o, from the first on.
    pub fn message(&self, o: ObjNo, i: u32) -> Option<&Message>
        ensures { option_copied result ≡ message_at self.now o i }
    {
        self.entries[o.place()].message(i)
    }
}
