//! A history in memory, to which steps and interrupts are added.
//!
//! All its memory is taken by `reserve`; steps that follow one another are one entry, so there are at
//! most twice as many entries as interrupts, and one more.
ghost use Rattle.std.specs.Prelude.{◌≡◌, ◌+◌, ◌*◌, ◌<◌, ◌≤◌, ◌↔◌, ◌∷◌, ◌++◌, [], IsTrue, length, slice_index_or, vec_capacity, IfOk, MatchOption};
ghost use Rattle.event_log.specs.Log.{Log, IsEntry, IsHistory, IsSound, step_count, irq_count, last_steps, with_step, with_steps, with_irq, closed};
ghost use Rattle.tx_types.specs.Limits.{device_limit, step_limit, interrupt_limit};

use crate::entry::Entry;
use crate::{MOST_IRQS, MOST_STEPS};
use board_values::DevNo;
use std::alloc::Global;
use std::marker::Model;
use tx_types::NoMemory;

/// The steps and interrupts so far, in order, with room for a number of interrupts.
#[derive(Drop)]
pub struct History {
    entries: Vec<Entry>,
    steps: u32,
    taken: u32,
    irqs: u32,
}

impl Model for History {
    ghost use Rattle.std.specs.Prelude.{◌≡◌, ◌+◌, ◌*◌, ◌≤◌, vec_capacity};
    ghost use Rattle.event_log.specs.Log.{Log, IsSound, step_count, irq_count};

    ghost Value = { Log };

    ghost view = { λ h. record { entries = h.entries.items; irqs = h.irqs } };

    ghost invariant = { λ h.
        IsSound (record { entries = h.entries.items; irqs = h.irqs })
        × (h.steps ≡ step_count h.entries.items) × (h.taken ≡ irq_count h.entries.items)
        × (2 * h.irqs + 1 ≤ vec_capacity h.entries) };
}

impl History {
    /// No entry yet, and room for the given number of interrupts.
    pub fn reserve(alloc: Global, irqs: u32) -> Result<History, NoMemory>
        requires { irqs ≤ interrupt_limit }
        ensures { IfOk result (λ h. h ≡ record { entries = []; irqs = irqs }) }
    {
        let entries = Vec::with_capacity(alloc, 2 * irqs as usize + 1)?;
        Ok(History {
            entries,
            steps: 0,
            taken: 0,
            irqs,
        })
    }

    /// One step more.
    pub fn add_step(&mut self)
        requires { step_count self.old.entries < step_limit }
        ensures entries { self.new.entries ≡ with_step self.old.entries }
        ensures room { self.new.irqs ≡ self.old.irqs }
    {
        self.add_steps(1);
    }

    /// The given number of steps more.
    pub fn add_steps(&mut self, n: u32)
        requires { step_count self.old.entries + n ≤ step_limit }
        ensures entries { self.new.entries ≡ with_steps n self.old.entries }
        ensures room { self.new.irqs ≡ self.old.irqs }
    {
        if n > 0 {
            put_steps(&mut self.entries, n);
            self.steps += n;
        }
    }

    /// One interrupt more, of device d with word w.
    pub fn add_irq(&mut self, d: DevNo, w: u32)
        requires { irq_count self.old.entries < self.old.irqs }
        ensures entries { self.new.entries ≡ with_irq d w self.old.entries }
        ensures room { self.new.irqs ≡ self.old.irqs }
    {
        let _ = d.number();
        self.entries.push_reserved(Entry::Irq(d, w));
        self.taken += 1;
    }

    /// Whether an entry may go last.
    pub(crate) fn may_add(&self, e: &Entry) -> bool
        requires { IsEntry device_limit e.now }
        ensures { IsTrue result ↔ IsHistory device_limit (self.now.entries ++ e.now ∷ []) }
    {
        let entries = &self.entries;
        match e {
            Entry::Steps(n) => last_steps(entries) == 0 && *n <= MOST_STEPS - self.steps,
            Entry::Irq(..) => self.taken < MOST_IRQS,
        }
    }

    /// One entry more.
    pub(crate) fn add(&mut self, e: Entry)
        requires history { IsHistory device_limit (self.old.entries ++ e ∷ []) }
        requires room { self.old.irqs ≡ interrupt_limit }
        ensures entries { self.new.entries ≡ self.old.entries ++ e ∷ [] }
        ensures room { self.new.irqs ≡ self.old.irqs }
    {
        match &e {
            Entry::Steps(n) => self.steps += *n,
            Entry::Irq(..) => self.taken += 1,
        }
        self.entries.push_reserved(e);
    }

    /// How many entries there are.
    pub fn len(&self) -> u32
        ensures value { result ≡ length self.now.entries }
        ensures few { result ≤ 2 * interrupt_limit + 1 }
    {
        let entries = &self.entries;
        entries.len() as u32
    }

    /// How many steps all entries are.
    pub fn steps(&self) -> u32
        ensures count { result ≡ step_count self.now.entries }
        ensures sound { IsSound self.now }
    {
        let _ = &self.entries;
        self.steps
    }

    /// How many interrupts there are.
    pub fn irqs(&self) -> u32
        ensures { result ≡ irq_count self.now.entries }
    {
        let _ = &self.entries;
        self.taken
    }

    /// For how many interrupts in all there is room.
    pub fn room(&self) -> u32
        ensures same { result ≡ self.now.irqs }
        ensures at_most { result ≤ interrupt_limit }
    {
        let _ = &self.entries;
        self.irqs
    }

    /// The entry at a place.
    pub fn entry(&self, i: u32) -> Entry
        requires { i < length self.now.entries }
        ensures { result ≡ slice_index_or self.now.entries i result }
    {
        self.entries[i as usize]
    }

    /// The last entry, if it is of steps: the one that a further step still changes.
    pub fn open_entry(&self) -> Option<Entry>
        ensures { MatchOption result (closed self.now.entries ≡ self.now.entries)
            (λ e. self.now.entries ≡ closed self.now.entries ++ e ∷ []) }
    {
        open_entry(&self.entries)
    }
}

/// Raises a last entry of steps by at least one, or opens one.
fn put_steps(entries: &mut Vec<Entry>, n: u32)
    requires some { 0 < n }
    requires history { IsHistory device_limit entries.old.items }
    requires steps { step_count entries.old.items + n ≤ step_limit }
    requires room { length (with_steps n entries.old.items) ≤ vec_capacity entries.old }
    ensures items { entries.new.items ≡ with_steps n entries.old.items }
    ensures capacity { vec_capacity entries.new ≡ vec_capacity entries.old }
{
    let steps = last_steps(entries);
    if steps > 0 {
        entries.pop();
    }
    entries.push_reserved(Entry::Steps(steps + n));
}

/// How many steps the last entry is; 0 where it is none of steps.
pub(crate) fn last_steps(entries: &[Entry]) -> u32
    ensures { result ≡ last_steps entries.now }
{
    match entries.last() {
        Some(e) => e.steps(),
        None => 0,
    }
}

/// The last entry, if it is of steps.
fn open_entry(entries: &[Entry]) -> Option<Entry>
    ensures { MatchOption result (closed entries.now ≡ entries.now)
        (λ e. entries.now ≡ closed entries.now ++ e ∷ []) }
{
    let last = *entries.last()?;
    match last {
        Entry::Steps(_) => Some(last),
        Entry::Irq(..) => None,
    }
}
