//! Sequences of moves worked by hand: who runs after each, and who is held.
//!
//! Threads are numbers with a priority and a threshold; there is no kernel, and no instruction is
//! executed. A move that may not be made fails its sequence.

use ready_maps::Ready;
use std::alloc::Global;
use std::test::Fail;
use tx_types::{Prio, ThreadNo, Thresh};

/// A move, with the numbers of its thread, its priority and its threshold.
#[derive(Clone, Copy, Debug)]
enum Move {
    Ready(u16),
    Unready(u16),
    Yield,
    Threshold(u16, u16),
    Priority(u16, u16, u16),
}

/// A move, who runs after it, and who is held.
type Step = (Move, Option<u16>, &'static [u16]);

fn thread(number: u16) -> ThreadNo {
    ThreadNo::new(number % 256)
}

/// Makes a move, where it may be made.
fn make(r: &mut Ready, m: Move) -> bool {
    match m {
        Move::Ready(t) => ready(r, thread(t)),
        Move::Unready(t) => unready(r, thread(t)),
        Move::Yield => yield_run(r),
        Move::Threshold(t, threshold) => set_threshold(r, thread(t), threshold),
        Move::Priority(t, priority, threshold) => set_priority(r, thread(t), priority, threshold),
    }
}

fn ready(r: &mut Ready, t: ThreadNo) -> bool {
    let may = !r.is_ready(t);
    if may {
        r.ready(t);
    }
    may
}

fn unready(r: &mut Ready, t: ThreadNo) -> bool {
    let may = r.is_ready(t);
    if may {
        r.unready(t);
    }
    may
}

fn yield_run(r: &mut Ready) -> bool {
    let may = r.running().is_some();
    if may {
        r.yield_run();
    }
    may
}

fn set_threshold(r: &mut Ready, t: ThreadNo, threshold: u16) -> bool {
    let threshold = Thresh::new(threshold % 1024);
    let may = threshold.number() <= r.priority(t).number();
    if may {
        r.set_threshold(t, threshold);
    }
    may
}

fn set_priority(r: &mut Ready, t: ThreadNo, priority: u16, threshold: u16) -> bool {
    let priority = Prio::new(priority % 1024);
    let threshold = Thresh::new(threshold % 1024);
    let may = threshold.number() <= priority.number() && priority.number() < r.priorities();
    if may {
        r.set_priority(t, priority, threshold);
    }
    may
}

/// Makes moves, and says at the first one after which another thread runs or is held.
fn follow(r: &mut Ready, steps: &[Step]) -> Result<(), Fail> {
    for (m, runs, held) in steps {
        if !make(r, *m) {
            return Err(Fail::from("a move that may not be made"));
        }
        if r.running() != runs.map(thread) {
            return Err(Fail::from("another thread runs"));
        }
        for t in 0..8 {
            if r.is_held(thread(t)) != held.contains(&t) {
                return Err(Fail::from("another thread is held"));
            }
        }
    }
    Ok(())
}

/// Threads that a threshold keeps back.
const KEPT_BACK: [&[Step]; 3] = [
    // the threshold keeps a thread back that the priority alone would let through
    &[
        (Move::Priority(1, 10, 5), None, &[]),
        (Move::Priority(2, 7, 7), None, &[]),
        (Move::Priority(3, 4, 4), None, &[]),
        (Move::Ready(1), Some(1), &[]),
        (Move::Ready(2), Some(1), &[]),
        (Move::Ready(3), Some(3), &[1]),
        (Move::Unready(3), Some(1), &[]),
        (Move::Unready(1), Some(2), &[]),
    ],
    // a thread at the threshold doesn't preempt, one below it does
    &[
        (Move::Priority(1, 10, 5), None, &[]),
        (Move::Priority(2, 5, 5), None, &[]),
        (Move::Priority(3, 4, 4), None, &[]),
        (Move::Ready(1), Some(1), &[]),
        (Move::Ready(2), Some(1), &[]),
        (Move::Ready(3), Some(3), &[1]),
    ],
    // who takes the priority of a holder goes after it
    &[
        (Move::Priority(1, 20, 8), None, &[]),
        (Move::Priority(2, 7, 2), None, &[]),
        (Move::Ready(1), Some(1), &[]),
        (Move::Ready(2), Some(2), &[1]),
        (Move::Priority(2, 20, 20), Some(1), &[]),
    ],
];

/// The priorities and thresholds of threads 1 to 7 in the sequences after it.
const NUMBERS: &[Step] = &[
    (Move::Priority(1, 10, 5), None, &[]),
    (Move::Priority(2, 7, 7), None, &[]),
    (Move::Priority(3, 4, 4), None, &[]),
    (Move::Priority(4, 10, 10), None, &[]),
    (Move::Priority(5, 10, 10), None, &[]),
    (Move::Priority(6, 20, 8), None, &[]),
    (Move::Priority(7, 3, 1), None, &[]),
];

const SEQUENCES: [&[Step]; 24] = [
    // who yields goes after those of its priority
    &[
        (Move::Ready(4), Some(4), &[]),
        (Move::Ready(5), Some(4), &[]),
        (Move::Yield, Some(5), &[]),
        (Move::Yield, Some(4), &[]),
    ],
    // alone it runs on
    &[(Move::Ready(1), Some(1), &[]), (Move::Yield, Some(1), &[])],
    // and isn't held
    &[
        (Move::Ready(1), Some(1), &[]),
        (Move::Ready(2), Some(1), &[]),
        (Move::Yield, Some(2), &[]),
    ],
    // who is readied goes last
    &[
        (Move::Ready(4), Some(4), &[]),
        (Move::Ready(5), Some(4), &[]),
        (Move::Ready(1), Some(4), &[]),
        (Move::Unready(4), Some(5), &[]),
        (Move::Unready(5), Some(1), &[]),
    ],
    // a thread whose threshold is its priority isn't held
    &[
        (Move::Ready(6), Some(6), &[]),
        (Move::Ready(2), Some(2), &[6]),
        (Move::Ready(3), Some(3), &[6]),
        (Move::Unready(3), Some(2), &[6]),
        (Move::Unready(2), Some(6), &[]),
    ],
    // two are held, and run again one after the other
    &[
        (Move::Priority(2, 7, 4), None, &[]),
        (Move::Ready(6), Some(6), &[]),
        (Move::Ready(2), Some(2), &[6]),
        (Move::Ready(7), Some(7), &[2, 6]),
        (Move::Unready(7), Some(2), &[6]),
        (Move::Unready(2), Some(6), &[]),
    ],
    // the first holder outlasts a second preemption
    &[
        (Move::Ready(1), Some(1), &[]),
        (Move::Ready(3), Some(3), &[1]),
        (Move::Ready(7), Some(7), &[1]),
        (Move::Unready(7), Some(3), &[1]),
        (Move::Unready(3), Some(1), &[]),
    ],
    // a holder is suspended
    &[
        (Move::Ready(1), Some(1), &[]),
        (Move::Ready(3), Some(3), &[1]),
        (Move::Unready(1), Some(3), &[]),
        (Move::Unready(3), None, &[]),
    ],
    // a ready thread is suspended
    &[
        (Move::Ready(1), Some(1), &[]),
        (Move::Ready(2), Some(1), &[]),
        (Move::Unready(2), Some(1), &[]),
        (Move::Unready(1), None, &[]),
    ],
    // a holder's threshold becomes its priority
    &[
        (Move::Ready(1), Some(1), &[]),
        (Move::Ready(3), Some(3), &[1]),
        (Move::Threshold(1, 10), Some(3), &[]),
        (Move::Ready(2), Some(3), &[]),
        (Move::Unready(3), Some(2), &[]),
    ],
    // it is lowered
    &[
        (Move::Ready(1), Some(1), &[]),
        (Move::Ready(3), Some(3), &[1]),
        (Move::Threshold(1, 2), Some(3), &[1]),
        (Move::Ready(2), Some(3), &[1]),
        (Move::Unready(3), Some(1), &[]),
    ],
    // it is raised: a thread below it runs first
    &[
        (Move::Ready(1), Some(1), &[]),
        (Move::Ready(3), Some(3), &[1]),
        (Move::Threshold(1, 8), Some(3), &[1]),
        (Move::Ready(2), Some(3), &[1]),
        (Move::Unready(3), Some(2), &[1]),
        (Move::Unready(2), Some(1), &[]),
    ],
    // the running thread's threshold is raised to its priority, above another's, and to another's
    &[
        (Move::Ready(1), Some(1), &[]),
        (Move::Ready(2), Some(1), &[]),
        (Move::Threshold(1, 10), Some(2), &[]),
    ],
    &[
        (Move::Ready(1), Some(1), &[]),
        (Move::Ready(2), Some(1), &[]),
        (Move::Threshold(1, 8), Some(2), &[1]),
        (Move::Unready(2), Some(1), &[]),
    ],
    &[
        (Move::Ready(1), Some(1), &[]),
        (Move::Ready(2), Some(1), &[]),
        (Move::Threshold(1, 7), Some(1), &[]),
    ],
    // a ready thread gets its priority again and goes last
    &[
        (Move::Ready(4), Some(4), &[]),
        (Move::Ready(5), Some(4), &[]),
        (Move::Ready(1), Some(4), &[]),
        (Move::Priority(5, 10, 10), Some(4), &[]),
        (Move::Unready(4), Some(1), &[]),
        (Move::Unready(1), Some(5), &[]),
    ],
    // it gets another and preempts
    &[
        (Move::Ready(1), Some(1), &[]),
        (Move::Ready(2), Some(1), &[]),
        (Move::Priority(2, 4, 4), Some(2), &[1]),
    ],
    // a holder gets its priority again and is held no longer
    &[
        (Move::Ready(1), Some(1), &[]),
        (Move::Ready(3), Some(3), &[1]),
        (Move::Priority(1, 10, 5), Some(3), &[]),
        (Move::Ready(2), Some(3), &[]),
        (Move::Unready(3), Some(2), &[]),
    ],
    // the running thread gets a less urgent priority, with a threshold above and below another's
    &[
        (Move::Ready(1), Some(1), &[]),
        (Move::Ready(2), Some(1), &[]),
        (Move::Priority(1, 20, 8), Some(2), &[1]),
        (Move::Unready(2), Some(1), &[]),
    ],
    &[
        (Move::Ready(1), Some(1), &[]),
        (Move::Ready(2), Some(1), &[]),
        (Move::Priority(1, 20, 6), Some(1), &[]),
    ],
    // it gets its priority again and runs on
    &[
        (Move::Ready(4), Some(4), &[]),
        (Move::Ready(5), Some(4), &[]),
        (Move::Priority(4, 10, 10), Some(4), &[]),
    ],
    // a thread gets another priority while it isn't ready
    &[
        (Move::Ready(3), Some(3), &[]),
        (Move::Priority(2, 1, 1), Some(3), &[]),
        (Move::Ready(2), Some(2), &[]),
        (Move::Unready(2), Some(3), &[]),
    ],
    // nothing is ready in between
    &[
        (Move::Ready(3), Some(3), &[]),
        (Move::Unready(3), None, &[]),
        (Move::Ready(5), Some(5), &[]),
    ],
    // who yields below a holder runs on; the holder runs before others of its urgency
    &[
        (Move::Ready(6), Some(6), &[]),
        (Move::Ready(2), Some(2), &[6]),
        (Move::Yield, Some(2), &[6]),
        (Move::Ready(1), Some(2), &[6]),
        (Move::Unready(2), Some(6), &[]),
        (Move::Yield, Some(1), &[]),
    ],
];

/// Follows each sequence on a scheduler that begins with the same moves.
fn follow_each(alloc: Global, first: &[Step], sequences: &[&[Step]]) -> Result<(), Fail> {
    for steps in sequences {
        let mut r = Ready::new(alloc, 32).map_err(|_| "no memory")?;
        follow(&mut r, first)?;
        follow(&mut r, steps)?;
    }
    Ok(())
}

#[test]
fn a_threshold_keeps_threads_back(rt: HostRuntime) -> Result<(), Fail> {
    follow_each(rt.alloc(), &[], &KEPT_BACK)
}

#[test]
fn sequences_of_moves(rt: HostRuntime) -> Result<(), Fail> {
    follow_each(rt.alloc(), NUMBERS, &SEQUENCES)
}

/// There are 1024 priorities, and thread 1 has its own.
fn has_numbers(r: &Ready) -> bool {
    let t = thread(1);
    r.priorities() == 1024 && r.priority(t).number() == 10 && r.threshold(t).number() == 5
}

/// Thread 4 comes first at its priority and thread 1 after it, and no other is ready there.
fn has_order(r: &Ready) -> bool {
    r.first_at(Prio::new(10)) == Some(thread(4))
        && r.first_at(Prio::new(5)).is_none()
        && r.after(thread(4)) == Some(thread(1))
        && r.after(thread(1)).is_none()
        && r.after(thread(3)).is_none()
        && r.is_ready(thread(1))
        && !r.is_ready(thread(5))
}

#[test]
fn what_can_be_read(rt: HostRuntime) -> Result<(), Fail> {
    let mut r = Ready::new(rt.alloc(), 1024).map_err(|_| "no memory")?;
    follow(&mut r, NUMBERS)?;
    follow(
        &mut r,
        &[
            (Move::Ready(4), Some(4), &[]),
            (Move::Ready(3), Some(3), &[]),
            (Move::Ready(1), Some(3), &[]),
        ],
    )?;
    assert!(rt; has_numbers(&r) && has_order(&r));
    Ok(())
}

/// Sets up that thread c runs in the place of thread a, which is held.
fn restore_two(r: &mut Ready, a: ThreadNo, c: ThreadNo) -> bool {
    let threshold = r.threshold(a).number();
    let may = r.running().is_none()
        && a != c
        && r.priority(c).number() < threshold
        && threshold < r.priority(a).number();
    if may {
        r.restore(&[a, c], Some(c), &[a]);
    }
    may
}

#[test]
fn a_restored_state_goes_on(rt: HostRuntime) -> Result<(), Fail> {
    let mut r = Ready::new(rt.alloc(), 32).map_err(|_| "no memory")?;
    follow(&mut r, NUMBERS)?;
    let may = restore_two(&mut r, thread(1), thread(3));
    let held = r.is_held(thread(1)) && !r.is_held(thread(3));
    assert!(rt; may && held && r.running() == Some(thread(3)));
    follow(
        &mut r,
        &[
            (Move::Ready(2), Some(3), &[1]),
            (Move::Unready(3), Some(1), &[]),
            (Move::Unready(1), Some(2), &[]),
        ],
    )
}
