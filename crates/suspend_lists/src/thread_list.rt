//! The threads that wait at one place, in order.
//!
//! A list has room for every thread from the start, so it can't run out of memory afterwards.
ghost use Rattle.std.specs.Prelude.{◌≡◌, ◌<◌, ◌==◌, ◌++◌, ◌∷◌, [], true, length, position, IfOk, slice_get, vec_len, vec_capacity};
ghost use Rattle.tx_types.specs.Limits.{slot_limit};
ghost use Rattle.suspend_lists.specs.ThreadList.{has, without, next_after};

use crate::THREADS;
use std::alloc::Global;
use std::marker::Model;
use tx_types::{NoMemory, ThreadNo};

/// Threads in order.
#[derive(Drop)]
pub(crate) struct ThreadList {
    threads: Vec<ThreadNo>,
}

impl Model for ThreadList {
    ghost use Rattle.std.specs.Prelude.{ℕ, List, ◌≤◌, vec_capacity};
    ghost use Rattle.tx_types.specs.Limits.{slot_limit};

    ghost Value = { List ℕ };

    ghost view = { λ l. l.threads.items };

    ghost invariant = { λ l. slot_limit ≤ vec_capacity l.threads };
}

impl ThreadList {
    /// No thread.
    pub(crate) fn new(alloc: Global) -> Result<ThreadList, NoMemory>
        ensures { IfOk result (λ l. l ≡ []) }
    {
        let threads = Vec::with_capacity(alloc, THREADS)?;
        Ok(ThreadList { threads })
    }

    /// The first thread.
    pub(crate) fn first(&self) -> Option<ThreadNo>
        ensures { result ≡ slice_get self.now 0 }
    {
        self.threads.first().copied()
    }

    /// The next thread after thread t.
    pub(crate) fn after(&self, t: ThreadNo) -> Option<ThreadNo>
        ensures { result ≡ next_after t self.now }
    {
        first_after(&self.threads, t)
    }

    /// How many threads there are.
    pub(crate) fn len(&self) -> usize
        ensures { result ≡ length self.now }
    {
        self.threads.len()
    }

    /// All threads, in order.
    pub(crate) fn to_vec(&self, alloc: Global) -> Result<Vec<ThreadNo>, NoMemory>
        ensures { IfOk result (λ ts. ts.items ≡ self.now) }
    {
        Ok(self.threads.to_vec(alloc)?)
    }

    /// Thread t goes last.
    pub(crate) fn push(&mut self, t: ThreadNo)
        requires room { length self.old < slot_limit }
        ensures { self.new ≡ self.old ++ t ∷ [] }
    {
        self.threads.push_reserved(t);
    }

    /// Thread t leaves, and the others keep their order.
    pub(crate) fn take_out(&mut self, t: ThreadNo)
        ensures { self.new ≡ without t self.old }
    {
        take_out(&mut self.threads, t);
    }

    /// Thread t goes first, and the others keep their order.
    pub(crate) fn to_front(&mut self, t: ThreadNo)
        requires there { has t self.old ≡ true }
        ensures { self.new ≡ t ∷ without t self.old }
    {
        move_first(&mut self.threads, t);
    }
}

/// The place of a thread in a list.
fn place_of(threads: &[ThreadNo], t: ThreadNo) -> Option<usize>
    ensures { result ≡ position (λ u. t == u) threads.now }
{
    threads.iter().position(|u| t == *u)
}

/// The next thread after thread t.
fn first_after(threads: &[ThreadNo], t: ThreadNo) -> Option<ThreadNo>
    ensures { result ≡ next_after t threads.now }
{
    match place_of(threads, t) {
        Some(at) => threads[at + 1..].first().copied(),
        None => None,
    }
}

/// Takes a thread out.
fn take_out(threads: &mut Vec<ThreadNo>, t: ThreadNo)
    ensures items { threads.new.items ≡ without t threads.old.items }
    ensures same_room { vec_capacity threads.new ≡ vec_capacity threads.old }
{
    threads.retain(|u| t != *u);
}

/// Moves a thread first that stands in the list.
fn move_first(threads: &mut Vec<ThreadNo>, t: ThreadNo)
    requires there { has t threads.old.items ≡ true }
    ensures items { threads.new.items ≡ t ∷ without t threads.old.items }
    ensures same_room { vec_capacity threads.new ≡ vec_capacity threads.old }
{
    take_out(threads, t);
    put_first(threads, t);
}

/// Puts a thread in first.
fn put_first(threads: &mut Vec<ThreadNo>, t: ThreadNo)
    requires room { vec_len threads.old < vec_capacity threads.old }
    ensures items { threads.new.items ≡ t ∷ threads.old.items }
    ensures same_room { vec_capacity threads.new ≡ vec_capacity threads.old }
{
    let _ = threads.insert(0, t);
}
