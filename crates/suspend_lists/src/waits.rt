//! The table of waits.
//!
//! A thread waits at most once. It stands in the list of its place, after those that began to wait
//! there before it; a sleeper stands in none. A wait keeps the number that it was given, and no other
//! wait is ever given the same.
ghost use Rattle.std.specs.Prelude.{◌≡◌, ◌<◌, ◌≤◌, ◌+◌, ◌-◌, ◌^◌, slice_index_or, None, Some, IfOk, IfSome, IsSome, length, slice_set, ℕ, true};
ghost use Rattle.std.specs.Option.{option_copied};
ghost use Rattle.tx_types.specs.Limits.{slot_limit};
ghost use Rattle.suspend_lists.specs.Wait.{place, place_count};
ghost use Rattle.suspend_lists.specs.ThreadList.{has};
ghost use Rattle.suspend_lists.specs.Waits.{WaitTable, IsTable, new_table, waiters, waiters_in, joined, left, put_ahead, pending, wait_of, number_of, place_of, first_at, after, restored, begun, ended, put_first, counted, pending_count, ended_count, IsFreeNumber};

use crate::thread_list::ThreadList;
use crate::wait::{On, Pending, Wait};
use crate::{PLACES, THREADS};
use std::alloc::Global;
use std::marker::Model;
use tx_types::{End, NoMemory, ThreadNo, Totals, WaitNo};

/// The waits of all threads. It has the memory for all of them from the start.
#[derive(Drop)]
pub struct Waits {
    totals: Totals,
    lists: Vec<ThreadList>,
    waits: Vec<Option<Pending>>,
}

impl Model for Waits {
    ghost use Rattle.suspend_lists.specs.Waits.{WaitTable, IsTable};

    ghost Value = { WaitTable };

    ghost view = { λ w. record {
      totals = w.totals;
      lists = w.lists.items;
      waits = w.waits.items;
    } };

    ghost invariant = { λ w. IsTable
        (record { totals = w.totals; lists = w.lists.items; waits = w.waits.items }) };
}

impl Waits {
    /// No thread waits, and none ever did.
    pub fn new(alloc: Global) -> Result<Waits, NoMemory>
        ensures { IfOk result (λ w. w ≡ new_table) }
    {
        let lists = empty_lists(alloc)?;
        let waits = no_waits(alloc)?;
        Ok(Waits {
            totals: Totals::NONE,
            lists,
            waits,
        })
    }

    /// How many waits began, and how many ended in each way.
    pub fn totals(&self) -> Totals
        ensures value { result ≡ self.now.totals }
        ensures sound { IsTable self.now }
    {
        self.totals
    }

    /// The wait that thread t is in.
    pub fn wait_of(&self, t: ThreadNo) -> Option<&Wait>
        ensures { option_copied result ≡ wait_of self.now t }
    {
        self.waits[t.place()].as_ref().map(|p| &p.wait)
    }

    /// The number of the wait that thread t is in.
    pub fn number(&self, t: ThreadNo) -> Option<WaitNo>
        ensures { result ≡ number_of self.now t }
    {
        self.waits[t.place()].as_ref().map(|p| p.number)
    }

    /// The thread that has waited longest at a place, unless another was put first. Sleepers have
    /// no order, so there is none for them.
    pub fn first(&self, on: On) -> Option<ThreadNo>
        ensures { result ≡ first_at self.now on }
    {
        self.lists[on.place()?].first()
    }

    /// The next thread after thread t at its place.
    pub fn after(&self, t: ThreadNo) -> Option<ThreadNo>
        ensures { result ≡ after self.now t }
    {
        let place = self.waits[t.place()].as_ref()?.wait.on.place()?;
        self.lists[place].after(t)
    }

    /// The threads that wait at a place, in order. Sleepers stand at none.
    pub fn waiters(&self, alloc: Global, on: On) -> Result<Vec<ThreadNo>, NoMemory>
        ensures same { IfOk result (λ ts. ts.items ≡ waiters self.now (place on)) }
        ensures few { IfOk result (λ ts. length ts.items ≤ slot_limit) }
    {
        match on.place() {
            Some(p) => self.lists[p].to_vec(alloc),
            None => Ok(Vec::new(alloc)),
        }
    }

    /// How many threads wait at a place, at most 256. Sleepers stand at none.
    pub fn len(&self, on: On) -> u16
        ensures { result ≡ length (waiters self.now (place on)) }
    {
        match on.place() {
            Some(p) => self.lists[p].len() as u16,
            None => 0,
        }
    }

    /// Thread t begins to wait, last at its place; the answer is the number of the wait.
    pub fn begin(&mut self, t: ThreadNo, w: Wait) -> WaitNo
        requires free { pending self.old t ≡ None }
        requires few { self.old.totals.begun < 2 ^ 63 }
        ensures after { self.new ≡ begun self.old t w }
        ensures number { result ≡ self.old.totals.begun }
    {
        let number = WaitNo::new(self.totals.begun);
        self.totals.begun += 1;
        self.restore(t, w, number);
        number
    }

    /// The wait of thread t ends: it leaves its place, and the total of that end is one more. The
    /// answer is what the wait was.
    pub fn end(&mut self, t: ThreadNo, e: End) -> Wait
        requires waits { IsSome (pending self.old t) }
        ensures after { self.new ≡ ended self.old t e }
        ensures wait { wait_of self.old t ≡ Some result }
    {
        let wait = take_wait(&mut self.waits, t);
        leave(&mut self.lists, wait.on, t);
        count(&mut self.totals, e);
        wait
    }

    /// Thread t goes first at its place.
    pub fn to_front(&mut self, t: ThreadNo)
        requires waits { IsSome (place_of self.old t) }
        ensures { self.new ≡ put_first self.old t }
    {
        if let Some(p) = &self.waits[t.place()] {
            go_first(&mut self.lists, p.wait.on, t);
        }
    }

    /// Sets up the totals of a table in which nothing began.
    pub fn restore_totals(&mut self, x: Totals)
        requires unused { self.old.totals.begun ≡ 0 }
        requires begun { x.begun < 2 ^ 62 }
        requires ended { ended_count x ≤ x.begun }
        ensures { self.new ≡ record self.old { totals = x } }
    {
        self.totals = x;
    }

    /// Sets up a wait of thread t that began earlier: it goes last at its place, with its number.
    pub fn restore(&mut self, t: ThreadNo, w: Wait, n: WaitNo)
        requires free { pending self.old t ≡ None }
        requires given { n < self.old.totals.begun }
        requires unused { IsFreeNumber self.old n }
        requires fits { pending_count self.old + ended_count self.old.totals
            < self.old.totals.begun }
        ensures { self.new ≡ restored self.old t w n }
    {
        join(&mut self.lists, w.on, t);
        self.waits[t.place()] = Some(Pending { wait: w, number: n });
    }
}

/// A list without a thread for each place.
fn empty_lists(alloc: Global) -> Result<Vec<ThreadList>, NoMemory>
    ensures { IfOk result (λ v. v.items ≡ new_table.lists) }
{
    let mut lists = Vec::with_capacity(alloc, PLACES)?;
    for _ in 0..PLACES {
        lists.push_reserved(ThreadList::new(alloc)?);
    }
    Ok(lists)
}

/// No wait for each thread.
fn no_waits(alloc: Global) -> Result<Vec<Option<Pending>>, NoMemory>
    ensures { IfOk result (λ v. v.items ≡ new_table.waits) }
{
    let mut waits = Vec::with_capacity(alloc, THREADS)?;
    for _ in 0..THREADS {
        waits.push_reserved(None);
    }
    Ok(waits)
}

/// Takes the wait of thread t.
fn take_wait(waits: &mut Vec<Option<Pending>>, t: ThreadNo) -> Wait
    requires table { length waits.old.items ≡ slot_limit }
    requires waits { IsSome (slice_index_or waits.old.items t None) }
    ensures after { waits.new.items ≡ slice_set waits.old.items t None }
    ensures wait { IfSome (slice_index_or waits.old.items t None) (λ p. p.wait ≡ result) }
{
    match waits[t.place()].take() {
        Some(p) => p.wait,
        None => unreachable!(),
    }
}

/// Thread t goes last at its place.
fn join(lists: &mut Vec<ThreadList>, on: On, t: ThreadNo)
    requires table { length lists.old.items ≡ place_count }
    requires room { length (waiters_in lists.old.items (place on)) < slot_limit }
    ensures after { lists.new.items ≡ joined lists.old.items (place on) t }
    ensures place { IfSome (place on) (λ p. p < place_count) }
{
    if let Some(p) = on.place() {
        lists[p].push(t);
    }
}

/// Thread t leaves its place.
fn leave(lists: &mut Vec<ThreadList>, on: On, t: ThreadNo)
    requires table { length lists.old.items ≡ place_count }
    ensures { lists.new.items ≡ left lists.old.items (place on) t }
{
    if let Some(p) = on.place() {
        lists[p].take_out(t);
    }
}

/// Thread t goes first at its place.
fn go_first(lists: &mut Vec<ThreadList>, on: On, t: ThreadNo)
    requires table { length lists.old.items ≡ place_count }
    requires there { has t (waiters_in lists.old.items (place on)) ≡ true }
    ensures { lists.new.items ≡ put_ahead lists.old.items (place on) t }
{
    if let Some(p) = on.place() {
        lists[p].to_front(t);
    }
}

/// One wait more ended so.
fn count(totals: &mut Totals, e: End)
    requires room { ended_count totals.old < 2 ^ 64 - 1 }
    ensures { totals.new ≡ counted totals.old e }
{
    match e {
        End::Satisfied => totals.satisfied += 1,
        End::TimedOut => totals.timed_out += 1,
        End::Aborted => totals.aborted += 1,
        End::Deleted => totals.deleted += 1,
        End::Gone => totals.gone += 1,
    }
}
