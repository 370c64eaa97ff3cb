//! The table of threads.
//!
//! It has an entry for each object slot, whether a thread lies there or not.
use crate::thread::Thread;
use std::alloc::Global;
use std::marker::Model;
use tx_types::{NoMemory, ThreadNo};

/// A table of 256 threads, by number.
#[derive(Drop)]
pub struct Threads {
    entries: Vec<Thread>,
}

impl Model for Threads {
    ghost use Rattle.std.specs.Prelude.{◌≡◌, List, length};
    ghost use Rattle.tx_types.specs.Limits.{slot_limit};
    ghost use Rattle.kernel_state.specs.declared.thread.Thread.{Thread};

    ghost Value = { List Thread };

    ghost view = { λ t. t.entries.items };

    ghost invariant = { λ t. length t.entries.items ≡ slot_limit };
}

impl Threads {
    ghost use Rattle.std.specs.Prelude.{◌≡◌, length, IfOk, replicate, slice_set};
    ghost use Rattle.tx_types.specs.Limits.{slot_limit};
    ghost use Rattle.std.specs.List.{slice_index_or};
    ghost use Rattle.std.specs.Borrow.{sem};
    ghost use Rattle.kernel_state.specs.Thread.{blank_thread};
    ghost use Rattle.kernel_state.specs.Entries.{LendsEntry};

    /// No thread was made yet.
    pub fn new(alloc: Global) -> Result<Threads, NoMemory>
        ensures { IfOk result (λ t. t ≡ replicate slot_limit blank_thread) }
    {
        let mut entries = Vec::with_capacity(alloc, 256)?;
        for _ in 0..256u16 {
            entries.push_reserved(Thread::blank());
        }
        Ok(Threads { entries })
    }

    /// The thread of a number.
    #[inline]
    pub fn at(&self, t: ThreadNo) -> &Thread
        ensures value { result.now ≡ slice_index_or self.now t blank_thread }
        ensures size { length self.now ≡ slot_limit }
    {
        &self.entries[t.place()]
    }

    /// The thread of a number, to be changed.
    #[inline]
    pub fn at_mut(&mut self, t: ThreadNo) -> &mut Thread
        ensures* writes_back { sem 𝓛 (LendsEntry self.entry t result) }
        ensures value { result.now ≡ slice_index_or self.old t blank_thread }
    {
        &mut self.entries[t.place()]
    }

    /// A thread takes its place.
    pub fn set(&mut self, t: ThreadNo, thread: Thread)
        ensures { self.new ≡ slice_set self.old t thread }
    {
        self.entries[t.place()] = thread;
    }
}
