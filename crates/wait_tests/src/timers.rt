//! What is due at which tick, in which order, and what is left until then, after each step of a
//! history of timeouts and timers.

use soft_timers::{Due, TimerId, Wheel, Whose};
use std::test::Fail;
use tx_types::{ObjNo, ThreadNo};

/// A step of a history, by the numbers of timeouts and timers.
enum Step {
    /// Arms one, to be due in the number of ticks beside it.
    Arm(u16, u32),
    Disarm(u16),
    /// Makes the number of ticks, at each of which nothing is due.
    Quiet(u32),
    /// Makes a tick at which those are due, in this order, and no others.
    Tick(&'static [u16]),
    /// No tick may be made.
    Stands,
    /// One is armed by that arming, and has that number of ticks left.
    Armed(u16, u64, u32),
    NotArmed(u16),
    /// The first that was due is still armed by the same arming.
    Still,
    Over,
}

/// The number of a timeout, or from 256 on of a timer.
fn id(number: u16) -> TimerId {
    if number < 256 {
        TimerId::of(Whose::Timeout(ThreadNo::new(number)))
    } else {
        TimerId::of(Whose::Timer(ObjNo::new(number % 256)))
    }
}

/// Arms one that isn't armed.
fn arm(w: &mut Wheel, id: TimerId, ticks: u32) -> bool {
    let may = w.arming(id).is_none() && ticks > 0 && w.armings() < 1 << 63;
    if may {
        w.arm(id, ticks);
    }
    may
}

/// Makes a tick where one may come.
fn tick(w: &mut Wheel, due: &mut Due) -> bool {
    let may = w.is_running() && w.ticks() < 1 << 63;
    if may {
        w.tick(due);
    }
    may
}

/// Makes a number of ticks. False where one may not come, or where something is due at one.
fn quiet(w: &mut Wheel, due: &mut Due, ticks: u32) -> bool {
    for _ in 0..ticks {
        if !tick(w, due) || due.len() > 0 {
            return false;
        }
    }
    true
}

/// Whether those are due in this order, and no others.
fn are_due(due: &Due, order: &[u16]) -> bool {
    let mut i = 0;
    for number in order {
        if i >= due.len() || due.id(i).number() != *number {
            return false;
        }
        i += 1;
    }
    i == due.len()
}

/// Whether the first that was due is still armed by the same arming.
fn is_still(w: &Wheel, due: &Due) -> bool {
    due.len() > 0 && w.still(due, 0)
}

/// Makes a step, and says whether it could be made and came out so.
fn make(w: &mut Wheel, due: &mut Due, step: &Step) -> bool {
    match step {
        Step::Arm(n, ticks) => arm(w, id(*n), *ticks),
        Step::Disarm(n) => {
            w.disarm(id(*n));
            true
        }
        Step::Quiet(ticks) => quiet(w, due, *ticks),
        Step::Tick(order) => tick(w, due) && are_due(due, order),
        Step::Stands => !tick(w, due),
        Step::Armed(n, arming, left) => {
            w.arming(id(*n)) == Some(*arming) && w.left(id(*n)) == Some(*left)
        }
        Step::NotArmed(n) => w.left(id(*n)).is_none(),
        Step::Still => is_still(w, due),
        Step::Over => due.len() > 0 && !is_still(w, due),
    }
}

/// Makes the steps of a history. The answer is the place of the first that comes out otherwise.
fn differs_at(w: &mut Wheel, due: &mut Due, history: &[Step]) -> Option<usize> {
    history.iter().position(|step| !make(w, due, step))
}

const IN_ORDER_OF_ARMING: &[Step] = &[
    Step::Arm(265, 32),
    Step::Arm(0, 64),
    Step::Arm(3, 32),
    Step::Quiet(31),
    Step::Tick(&[265, 3]),
    Step::Disarm(265),
    Step::Disarm(3),
    Step::Quiet(31),
    Step::Tick(&[0]),
    Step::Disarm(0),
    Step::NotArmed(0),
];

const OVER_ONCE_DISARMED: &[Step] = &[
    // the greatest number of ticks
    Step::Arm(255, 0xFFFF_FFFF),
    Step::Arm(511, 1),
    Step::Armed(511, 1, 1),
    Step::Tick(&[511]),
    Step::Armed(255, 0, 0xFFFF_FFFE),
    // what is due stays armed until its turn, and no tick comes before
    Step::Armed(511, 1, 0),
    Step::Stands,
    Step::Still,
    Step::Disarm(511),
    Step::Over,
    // armed again, it isn't the same
    Step::Arm(511, 1),
    Step::Over,
    Step::Armed(511, 2, 1),
    Step::Tick(&[511]),
];

#[test]
fn timers_are_due_in_order_of_arming(rt: HostRuntime) -> Result<(), Fail> {
    let mut w = Wheel::new(rt.alloc()).map_err(|_| "no memory")?;
    let mut due = Due::new(rt.alloc()).map_err(|_| "no memory")?;
    assert_eq!(rt; differs_at(&mut w, &mut due, IN_ORDER_OF_ARMING), None);
    Ok(())
}

#[test]
fn an_arming_is_over_once_disarmed(rt: HostRuntime) -> Result<(), Fail> {
    let mut w = Wheel::new(rt.alloc()).map_err(|_| "no memory")?;
    let mut due = Due::new(rt.alloc()).map_err(|_| "no memory")?;
    assert_eq!(rt; differs_at(&mut w, &mut due, OVER_ONCE_DISARMED), None);
    Ok(())
}
