//! What is due at a tick, in order of arming.
//!
//! A list has room for all timeouts and timers from the start, so a tick can't run out of memory.
ghost use Rattle.std.specs.Prelude.{◌≡◌, ◌<◌, ◌≤◌, ◌==◌, [], length, filter, HoldsAt, IfOk, vec_capacity};
ghost use Rattle.tx_types.specs.Limits.{timer_limit};
ghost use Rattle.soft_timers.specs.Timers.{due_among};

use crate::TIMERS;
use crate::id::TimerId;
use std::alloc::Global;
use std::marker::Model;
use tx_types::NoMemory;

/// An armed timeout or timer: the tick at which it is due, and the number of its arming.
#[derive(Clone, Copy, Debug)]
pub struct Armed {
    pub id: TimerId,
    pub expiry: u64,
    pub arming: u64,
}

/// What was due at a tick.
#[derive(Drop)]
pub struct Due {
    entries: Vec<Armed>,
}

impl Model for Due {
    ghost use Rattle.std.specs.Prelude.{◌≡◌, List, vec_capacity};
    ghost use Rattle.tx_types.specs.Limits.{timer_limit};
    ghost use Rattle.soft_timers.specs.declared.due.Armed.{Armed};

    ghost Value = { List Armed };

    ghost view = { λ d. d.entries.items };

    ghost invariant = { λ d. vec_capacity d.entries ≡ timer_limit };
}

impl Due {
    /// Nothing.
    pub fn new(alloc: Global) -> Result<Due, NoMemory>
        ensures { IfOk result (λ d. d ≡ []) }
    {
        let entries = Vec::with_capacity(alloc, usize::from(TIMERS))?;
        Ok(Due { entries })
    }

    /// How many were due.
    pub fn len(&self) -> u16
        ensures { result ≡ length self.now }
    {
        self.entries.len() as u16
    }

    /// The entry at a place, in order of arming.
    pub(crate) fn entry(&self, i: u16) -> Armed
        requires { i < length self.now }
        ensures { HoldsAt (λ e. result ≡ e) self.now i }
    {
        self.entries[usize::from(i)]
    }

    /// The number of the entry at a place.
    pub fn id(&self, i: u16) -> TimerId
        requires { i < length self.now }
        ensures { HoldsAt (λ e. result ≡ e.id) self.now i }
    {
        self.entry(i).id
    }

    /// Forgets what was due.
    pub fn clear(&mut self)
        ensures { self.new ≡ [] }
    {
        self.entries.clear();
    }

    /// Lists those that are due at a tick, and no others.
    pub(crate) fn list(&mut self, from: &[Armed], now: u64)
        requires { length from.now ≤ timer_limit }
        ensures { self.new ≡ due_among from.now now }
    {
        self.entries.clear();
        keep_due(&mut self.entries, from, now);
    }
}

/// Puts those that are due at a tick after the others.
fn keep_due(due: &mut Vec<Armed>, from: &[Armed], now: u64)
    requires empty { due.old.items ≡ [] }
    requires room { length from.now ≤ vec_capacity due.old }
    ensures items { due.new.items ≡ due_among from.now now }
    ensures same_room { vec_capacity due.new ≡ vec_capacity due.old }
{
    for e in from {
        if e.expiry == now {
            due.push_reserved(*e);
        }
    }
}
