//! The timer wheel: what is armed, in order of arming, and how many ticks came.
//!
//! A tick lists what is due and leaves it armed: each has its turn only where it is still armed by
//! the same arming, since the turn of another may disarm it or arm it again.
ghost use Rattle.std.specs.Prelude.{◌≡◌, ◌↔◌, true, nat_lt, ◌<◌, ◌≤◌, ◌==◌, ◌+◌, ◌-◌, ◌^◌, ◌∷◌, ◌++◌, [], All, length, filter, find, not, HoldsAt, None, IfOk, vec_len, vec_capacity};
ghost use Rattle.std.specs.List.{list_all};
ghost use Rattle.soft_timers.specs.Timers.{TimerTable, IsWheel, IsRunning, no_timers, armed, left, arming, armed_for, disarmed, ticked, due_now, still, without};

use crate::TIMERS;
use crate::due::{Armed, Due};
use crate::id::TimerId;
use std::alloc::Global;
use std::marker::Model;
use tx_types::NoMemory;

/// The armed timeouts and timers. It has the memory for all of them from the start.
#[derive(Drop)]
pub struct Wheel {
    ticks: u64,
    armings: u64,
    entries: Vec<Armed>,
}

impl Model for Wheel {
    ghost use Rattle.std.specs.Prelude.{◌≤◌, vec_capacity};
    ghost use Rattle.tx_types.specs.Limits.{timer_limit};
    ghost use Rattle.soft_timers.specs.Timers.{TimerTable, IsWheel};

    ghost Value = { TimerTable };

    ghost view = { λ w. record {
      ticks = w.ticks;
      armings = w.armings;
      entries = w.entries.items;
    } };

    ghost invariant = { λ w. IsWheel
        (record { ticks = w.ticks; armings = w.armings; entries = w.entries.items })
        × (timer_limit ≤ vec_capacity w.entries) };
}

impl Wheel {
    /// Nothing is armed, and no tick came.
    pub fn new(alloc: Global) -> Result<Wheel, NoMemory>
        ensures { IfOk result (λ w. w ≡ no_timers) }
    {
        let entries = Vec::with_capacity(alloc, usize::from(TIMERS))?;
        Ok(Wheel {
            ticks: 0,
            armings: 0,
            entries,
        })
    }

    /// How many ticks there were.
    pub fn ticks(&self) -> u64
        ensures value { result ≡ self.now.ticks }
        ensures sound { IsWheel self.now }
    {
        self.ticks
    }

    /// How many armings there were.
    pub fn armings(&self) -> u64
        ensures { result ≡ self.now.armings }
    {
        self.armings
    }

    /// Whether every armed entry has at least one tick left, so that a tick may come.
    pub fn is_running(&self) -> bool
        ensures { (result ≡ true) ↔ IsRunning self.now }
    {
        all_later(&self.entries, self.ticks)
    }

    /// The number of the arming of `id`; none where it isn't armed.
    pub fn arming(&self, id: TimerId) -> Option<u64>
        ensures { result ≡ arming self.now id }
    {
        Some(find_armed(&self.entries, id)?.arming)
    }

    /// In how many ticks `id` is due; none where it isn't armed.
    pub fn left(&self, id: TimerId) -> Option<u32>
        ensures { result ≡ left self.now id }
    {
        let e = find_armed(&self.entries, id)?;
        let ticks = (e.expiry - self.ticks) as u32;
        Some(ticks)
    }

    /// Whether an entry that was due is still armed by the same arming.
    pub fn still(&self, due: &Due, i: u16) -> bool
        requires { i < length due.now }
        ensures { HoldsAt (λ e. result ≡ still self.now e) due.now i }
    {
        let e = due.entry(i);
        match self.arming(e.id) {
            Some(n) => n == e.arming,
            None => false,
        }
    }

    /// Arms `id`, to be due in the given number of ticks.
    pub fn arm(&mut self, id: TimerId, ticks: u32)
        requires free { armed self.old id ≡ None }
        requires later { 0 < ticks }
        requires few { self.old.armings < 2 ^ 63 }
        ensures { self.new ≡ armed_for self.old id ticks }
    {
        let entry = Armed {
            id,
            expiry: self.ticks + u64::from(ticks),
            arming: self.armings,
        };
        self.armings += 1;
        self.entries.push_reserved(entry);
    }

    /// Disarms `id`, where it is armed.
    pub fn disarm(&mut self, id: TimerId)
        ensures { self.new ≡ disarmed self.old id }
    {
        take_out(&mut self.entries, id);
    }

    /// One tick more: lists what is due now, in order of arming, and leaves it armed.
    pub fn tick(&mut self, due: &mut Due)
        requires running { IsRunning self.old }
        requires few { self.old.ticks < 2 ^ 63 }
        ensures after { self.new ≡ ticked self.old }
        ensures due { due.new ≡ due_now (ticked self.old) }
    {
        self.ticks += 1;
        due.list(&self.entries, self.ticks);
    }
}

/// The armed entry of a number.
fn find_armed(entries: &[Armed], id: TimerId) -> Option<Armed>
    ensures { result ≡ find (λ e. e.id == id) entries.now }
{
    entries.iter().copied().find(|e| e.id == id)
}

/// Whether each is due after a tick.
fn all_later(entries: &[Armed], now: u64) -> bool
    ensures { result ≡ list_all (λ e. nat_lt now e.expiry) entries.now }
{
    entries.iter().all(|e| now < e.expiry)
}

/// Takes the entry of a number out.
fn take_out(entries: &mut Vec<Armed>, id: TimerId)
    ensures items { entries.new.items ≡ without id entries.old.items }
    ensures same_room { vec_capacity entries.new ≡ vec_capacity entries.old }
{
    entries.retain(|e| e.id != id);
}
