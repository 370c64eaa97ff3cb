//! The lists of the scheduler's state, and the steps that its moves are made of.
//!
//! No step can run out of memory: the lists have room for every thread, and those that a list holds are
//! distinct.
ghost use Rattle.std.specs.Prelude.{◌≡◌, ◌≢◌, ℕ, ◌+◌, ◌<◌, ◌≤◌, [], ◌∷◌, ◌++◌, All, AllPairs, length, replicate, insert, remove, nat_le, nat_lt, slice_index, slice_set, drop, fold, find, position, None, IfOk, vec_len, vec_capacity, ◌==◌};
ghost use Rattle.std.specs.Option.{option_copied};
ghost use Rattle.std.specs.List.{position_or_len, after_first, list_any};
ghost use Rattle.tx_types.specs.Limits.{slot_limit};
ghost use Rattle.ready_maps.specs.Sched.{has, without, last_in, first_in};

use tx_types::{Prio, ThreadNo};

/// Whether a thread stands in a list.
pub(crate) fn has(threads: &[ThreadNo], t: ThreadNo) -> bool
    ensures { result ≡ has t threads.now }
{
    threads.iter().any(|u| *u == t)
}

/// A thread's priority.
#[inline]
pub(crate) fn priority_of(by: &[Prio], t: ThreadNo) -> Prio
    requires table { length by.now ≡ slot_limit }
    ensures { result ≡ slice_index by.now t }
{
    by[t.place()]
}

/// Whether a thread has this priority.
#[inline]
fn is_at(by: &[Prio], u: ThreadNo, priority: Prio) -> bool
    requires table { length by.now ≡ slot_limit }
    ensures { result ≡ (slice_index by.now u == priority) }
{
    priority_of(by, u) == priority
}

/// Whether a thread's priority is above this one.
#[inline]
fn is_above(by: &[Prio], u: ThreadNo, priority: Prio) -> bool
    requires table { length by.now ≡ slot_limit }
    ensures { result ≡ nat_lt priority (slice_index by.now u) }
{
    priority.number() < priority_of(by, u).number()
}

/// Whether a thread's priority is this one or above it.
#[inline]
fn is_from(by: &[Prio], u: ThreadNo, priority: Prio) -> bool
    requires table { length by.now ≡ slot_limit }
    ensures { result ≡ nat_le priority (slice_index by.now u) }
{
    priority.number() <= priority_of(by, u).number()
}

/// Whether a thread of a priority stands in a list.
pub(crate) fn has_priority(threads: &[ThreadNo], by: &[Prio], priority: Prio) -> bool
    requires table { length by.now ≡ slot_limit }
    ensures { result ≡ list_any (λ u. slice_index by.now u == priority) threads.now }
{
    threads.iter().any(|u| is_at(by, *u, priority))
}

/// The first thread of a priority in a list.
pub(crate) fn first_at(threads: &[ThreadNo], by: &[Prio], priority: Prio) -> Option<ThreadNo>
    requires table { length by.now ≡ slot_limit }
    ensures { result ≡ find (λ u. slice_index by.now u == priority) threads.now }
{
    threads.iter().copied().find(|u| is_at(by, *u, priority))
}

/// The place of a thread in a list.
pub(crate) fn place_of(threads: &[ThreadNo], t: ThreadNo) -> Option<usize>
    ensures { result ≡ position (λ u. u == t) threads.now }
{
    threads.iter().position(|u| *u == t)
}

/// The first place of a priority above this one.
pub(crate) fn place_above(threads: &[ThreadNo], by: &[Prio], priority: Prio) -> Option<usize>
    requires table { length by.now ≡ slot_limit }
    ensures { result ≡ position (λ u. nat_lt priority (slice_index by.now u)) threads.now }
{
    threads.iter().position(|u| is_above(by, *u, priority))
}

/// The first place of this priority or one above it.
pub(crate) fn place_from(threads: &[ThreadNo], by: &[Prio], priority: Prio) -> Option<usize>
    requires table { length by.now ≡ slot_limit }
    ensures { result ≡ position (λ u. nat_le priority (slice_index by.now u)) threads.now }
{
    threads.iter().position(|u| is_from(by, *u, priority))
}

/// The first place of a priority above this one, or the end.
fn last_place(threads: &[ThreadNo], by: &[Prio], priority: Prio) -> usize
    requires table { length by.now ≡ slot_limit }
    ensures value { result ≡ position_or_len
        (λ u. nat_lt priority (slice_index by.now u)) threads.now }
    ensures within { result ≤ length threads.now }
{
    let end = threads.len();
    place_above(threads, by, priority).unwrap_or(end)
}

/// The first place of this priority or one above it, or the end.
fn first_place(threads: &[ThreadNo], by: &[Prio], priority: Prio) -> usize
    requires table { length by.now ≡ slot_limit }
    ensures value { result ≡ position_or_len
        (λ u. nat_le priority (slice_index by.now u)) threads.now }
    ensures within { result ≤ length threads.now }
{
    let end = threads.len();
    place_from(threads, by, priority).unwrap_or(end)
}

/// Puts a thread in after those of its priority.
pub(crate) fn put_last(threads: &mut Vec<ThreadNo>, by: &[Prio], t: ThreadNo)
    requires table { length by.now ≡ slot_limit }
    requires sorted { AllPairs
        (λ u v. slice_index by.now u ≤ slice_index by.now v) threads.old.items }
    requires room { vec_len threads.old < vec_capacity threads.old }
    ensures items { threads.new.items ≡ last_in (slice_index by.now) t threads.old.items }
    ensures same_room { vec_capacity threads.new ≡ vec_capacity threads.old }
{
    let at = last_place(threads, by, priority_of(by, t));
    put(threads, at, t);
}

/// Puts a thread in before those of its priority.
pub(crate) fn put_first(threads: &mut Vec<ThreadNo>, by: &[Prio], t: ThreadNo)
    requires table { length by.now ≡ slot_limit }
    requires sorted { AllPairs
        (λ u v. slice_index by.now u ≤ slice_index by.now v) threads.old.items }
    requires room { vec_len threads.old < vec_capacity threads.old }
    ensures items { threads.new.items ≡ first_in (slice_index by.now) t threads.old.items }
    ensures same_room { vec_capacity threads.new ≡ vec_capacity threads.old }
{
    let at = first_place(threads, by, priority_of(by, t));
    put(threads, at, t);
}

/// The first thread of a priority after this thread.
pub(crate) fn first_after(
    threads: &[ThreadNo],
    by: &[Prio],
    priority: Prio,
    t: ThreadNo,
) -> Option<ThreadNo>
    requires table { length by.now ≡ slot_limit }
    ensures { result ≡ find (λ u. slice_index by.now u == priority)
        (after_first (λ u. u == t) threads.now) }
{
    match place_of(threads, t) {
        Some(at) => first_at(&threads[at + 1..], by, priority),
        None => None,
    }
}

/// Puts a thread in at a place.
pub(crate) fn put(threads: &mut Vec<ThreadNo>, at: usize, t: ThreadNo)
    requires within { at ≤ vec_len threads.old }
    requires room { vec_len threads.old < vec_capacity threads.old }
    ensures items { threads.new.items ≡ insert threads.old.items at t }
    ensures same_room { vec_capacity threads.new ≡ vec_capacity threads.old }
{
    let _ = threads.insert(at, t);
}

/// Takes a thread out.
pub(crate) fn take_out(threads: &mut Vec<ThreadNo>, t: ThreadNo)
    ensures items { threads.new.items ≡ without t threads.old.items }
    ensures same_room { vec_capacity threads.new ≡ vec_capacity threads.old }
{
    threads.retain(|u| *u != t);
}

/// Takes the first thread out.
pub(crate) fn take_first(threads: &mut Vec<ThreadNo>)
    requires some { 0 < vec_len threads.old }
    ensures items { threads.new.items ≡ drop 1 threads.old.items }
    ensures same_room { vec_capacity threads.new ≡ vec_capacity threads.old }
{
    threads.remove(0);
}

/// Puts threads in one after another, each after those of its priority.
pub(crate) fn put_all(threads: &mut Vec<ThreadNo>, by: &[Prio], more: &[ThreadNo])
    requires table { length by.now ≡ slot_limit }
    requires sorted { AllPairs
        (λ u v. slice_index by.now u ≤ slice_index by.now v) threads.old.items }
    requires room { vec_len threads.old + length more.now ≤ vec_capacity threads.old }
    ensures items { threads.new.items ≡ fold
        (λ ts t. last_in (slice_index by.now) t ts) threads.old.items more.now }
    ensures same_room { vec_capacity threads.new ≡ vec_capacity threads.old }
{
    for t in more {
        put_last(threads, by, *t);
    }
}

/// Puts these threads in the place of all.
pub(crate) fn copy(threads: &mut Vec<ThreadNo>, from: &[ThreadNo])
    requires room { length from.now ≤ vec_capacity threads.old }
    ensures items { threads.new.items ≡ from.now }
    ensures room_stays { vec_capacity threads.old ≤ vec_capacity threads.new }
{
    threads.clear();
    let _ = threads.extend_from_slice(from);
}
