//! Tables of moves: what happens to a core, one after another, and what is to come of it.
//!
//! No clause says that a turn takes a word that waits: the rows on turns refuse one that doesn't.
ghost use Rattle.std.specs.Prelude.{◌≡◌, [], true};
ghost use Rattle.kernel_lock.specs.Holds.{Holds};

use crate::bench::Bench;
use crate::parts::{DEVICES, WORDS, booted, first_two};
use board_core::Machine;
use irq_inbox::{CpuPass, DevPass, Inbox};
use kernel_lock::{Core, Session, Turn};
use log_lane::{GetPass, Lane, PutPass};
use std::alloc::Global;
use std::marker::{Brand, PhantomData};
use std::process::Abort;
use std::sync::Wait;
use std::test::Fail;

/// What a turn answers; `Full` where the history has no room for an interrupt.
#[derive(Clone, Copy, Debug, PartialEq, Eq)]
enum Answer {
    Took(u8, u32),
    Stepped,
    Idle,
    Full,
}

/// What happens, and what is to come of it.
#[derive(Clone, Copy)]
enum Move {
    /// A device raises a word.
    Raise(u8, u32),
    /// A turn that may make a step, where one is left, gives this answer.
    Turn(Answer),
    /// A turn that may make no step gives this answer.
    Still(Answer),
    /// A step is made, or none is left.
    Step(bool),
    /// The lane gives these lines, and then nothing.
    Carries(&'static str),
    /// The history is these lines.
    History(&'static str),
    /// That many words of a device were taken.
    Taken(u8, u32),
}

/// What a turn answered, in plain numbers.
fn answered(turn: Turn) -> Answer {
    match turn {
        Turn::Took(d, w) => Answer::Took(d.number(), w),
        Turn::Stepped => Answer::Stepped,
        Turn::Idle => Answer::Idle,
    }
}

/// Makes a turn where the history has room for an interrupt.
fn turns<O: Session, R: Wait>(rt: &R, bench: &mut Bench<'_, O>, may_step: bool) -> Answer {
    match bench.turn(rt, may_step) {
        Some(turn) => answered(turn),
        None => Answer::Full,
    }
}

/// Makes a move, and says whether what comes of it is what is to come.
fn make<O: Session, R: Wait>(
    rt: &R,
    alloc: Global,
    bench: &mut Bench<'_, O>,
    m: Move,
) -> Result<bool, Fail> {
    match m {
        Move::Raise(d, w) => Ok(bench.raise(rt, d, w).is_ok()),
        Move::Turn(want) => Ok(turns(rt, bench, true) == want),
        Move::Still(want) => Ok(turns(rt, bench, false) == want),
        Move::Step(want) => Ok(bench.step() == want),
        Move::Carries(want) => carries(rt, alloc, bench, want),
        Move::History(want) => has(alloc, bench, want),
        Move::Taken(d, want) => Ok(bench.taken(d) == want),
    }
}

/// Whether the lane gives these lines, and then nothing.
fn carries<O: Session, R: Wait>(
    rt: &R,
    alloc: Global,
    bench: &mut Bench<'_, O>,
    want: &str,
) -> Result<bool, Fail> {
    let text = bench.carried(rt, alloc)?;
    Ok(text.as_str() == want)
}

/// Whether the history is these lines.
fn has<O: Session>(alloc: Global, bench: &Bench<'_, O>, want: &str) -> Result<bool, Fail> {
    let text = bench.history(alloc)?;
    Ok(text.as_str() == want)
}

/// Makes all moves of these tables. Each has to come out as it is to.
fn make_all<O: Session, R: Wait + Abort>(
    rt: &R,
    alloc: Global,
    bench: &mut Bench<'_, O>,
    tables: &[&[Move]],
) -> Result<(), Fail> {
    for (i, moves) in tables.iter().enumerate() {
        let wrong = follow(rt, alloc, bench, moves)?;
        assert_eq!(rt; wrong, None, "table {i}");
    }
    Ok(())
}

/// The number of the first move that comes out otherwise, if there is one.
fn follow<O: Session, R: Wait>(
    rt: &R,
    alloc: Global,
    bench: &mut Bench<'_, O>,
    moves: &[Move],
) -> Result<Option<usize>, Fail> {
    for (i, m) in moves.iter().enumerate() {
        if !make(rt, alloc, bench, *m)? {
            return Ok(Some(i));
        }
    }
    Ok(None)
}

/// Makes all moves on a core of these parts, on which nothing happened yet.
fn plays_on<O: Session, R: Wait + Abort>(
    rt: &R,
    alloc: Global,
    machine: Machine,
    inbox: &Inbox,
    pass: CpuPass,
    devs: (DevPass, DevPass),
    lane: &Lane,
    put: PutPass,
    get: GetPass,
    tables: &[&[Move]],
) -> Result<(), Fail>
    requires holds { Holds O.origin O.inbox O.lane machine inbox.now pass lane.now put }
    requires devs { (devs.0.inbox ≡ inbox.now) × (devs.1.inbox ≡ inbox.now) }
    requires get { (get.live ≡ true) × (get.lane ≡ lane.now.id) }
{
    let (one, two) = devs;
    let core = Core {
        machine,
        inbox,
        pass,
        lane,
        put,
        session: PhantomData::<O>,
    };
    let mut bench = Bench {
        core,
        inbox,
        one,
        two,
        lane,
        get,
    };
    make_all(rt, alloc, &mut bench, tables)
}

/// Makes all moves on a core of its own, over this inbox with its passes.
#[tactic(auto, using(crate::proofs::Cores::new_core))]
fn plays_over<R: Wait + Abort>(
    rt: &R,
    alloc: Global,
    inbox: &Inbox,
    pass: CpuPass,
    devs: (DevPass, DevPass),
    tables: &[&[Move]],
) -> Result<(), Fail>
    requires pass { pass ≡ record {
      inbox = inbox.now;
      devices = 2;
      got = [];
      gathered = [];
    } }
    requires devs { (devs.0.inbox ≡ inbox.now) × (devs.1.inbox ≡ inbox.now) }
{
    let (lane, put, get) = Lane::new(rt, alloc, 2 * WORDS + 1)?;
    let machine = booted(alloc)?;
    plays_on::<Brand, R>(
        rt, alloc, machine, inbox, pass, devs, &lane, put, get, tables,
    )
}

/// Makes all moves on a core of its own.
fn plays<R: Wait + Abort>(rt: &R, alloc: Global, tables: &[&[Move]]) -> Result<(), Fail> {
    let (inbox, pass, devs) = Inbox::new(rt, alloc, DEVICES)?;
    let devs = first_two(&inbox, devs).ok_or("a board of two devices")?;
    plays_over(rt, alloc, &inbox, pass, devs, tables)
}

/// Words that wait are taken one by one, in the order raised, before any step.
const WORDS_BEFORE_STEPS: [Move; 12] = [
    Move::Raise(0, 10),
    Move::Raise(1, 20),
    Move::Raise(1, 21),
    Move::Raise(0, 11),
    Move::Turn(Answer::Took(0, 10)),
    Move::Still(Answer::Took(1, 20)),
    Move::Turn(Answer::Took(1, 21)),
    Move::Still(Answer::Took(0, 11)),
    Move::Still(Answer::Idle),
    Move::Turn(Answer::Stepped),
    Move::Raise(0, 12),
    Move::Turn(Answer::Took(0, 12)),
];

#[test]
fn words_that_wait_are_taken_before_a_step(rt: HostRuntime) -> Result<(), Fail> {
    plays(&rt, rt.alloc(), &[&WORDS_BEFORE_STEPS])
}

/// A closed entry is in the lane at once; an open one of steps, once an interrupt closes it.
const CLOSED: [Move; 13] = [
    Move::Turn(Answer::Stepped),
    Move::Carries(""),
    Move::Raise(0, 10),
    Move::Turn(Answer::Took(0, 10)),
    Move::Turn(Answer::Stepped),
    Move::Step(true),
    Move::History("S 1\nI 0 0000000a\nS 2\n"),
    Move::Carries("S 1\nI 0 0000000a\n"),
    Move::Raise(1, 20),
    Move::Step(true),
    Move::Still(Answer::Took(1, 20)),
    Move::Carries("S 3\nI 1 00000014\n"),
    Move::History("S 1\nI 0 0000000a\nS 3\nI 1 00000014\n"),
];

#[test]
fn closed_entries_are_carried(rt: HostRuntime) -> Result<(), Fail> {
    plays(&rt, rt.alloc(), &[&CLOSED])
}

/// All four steps are made, and then all five words are taken.
const TO_THE_END: [Move; 17] = [
    Move::Raise(1, 20),
    Move::Step(true),
    Move::Step(true),
    Move::Step(true),
    Move::Step(true),
    Move::Step(false),
    Move::Turn(Answer::Took(1, 20)),
    Move::Turn(Answer::Idle),
    Move::Raise(0, 10),
    Move::Raise(0, 11),
    Move::Raise(0, 12),
    Move::Raise(1, 21),
    Move::Turn(Answer::Took(0, 10)),
    Move::Turn(Answer::Took(0, 11)),
    Move::Turn(Answer::Took(0, 12)),
    Move::Turn(Answer::Took(1, 21)),
    Move::Turn(Answer::Full),
];

/// What that leaves: of each device its words, and a last entry that is closed.
const AT_THE_END: [Move; 5] = [
    Move::History("S 4\nI 1 00000014\nI 0 0000000a\nI 0 0000000b\nI 0 0000000c\nI 1 00000015\n"),
    Move::Carries("S 4\nI 1 00000014\nI 0 0000000a\nI 0 0000000b\nI 0 0000000c\nI 1 00000015\n"),
    Move::Taken(0, 3),
    Move::Taken(1, 2),
    Move::Taken(2, 0),
];

#[test]
fn steps_and_words_end(rt: HostRuntime) -> Result<(), Fail> {
    plays(&rt, rt.alloc(), &[&TO_THE_END, &AT_THE_END])
}
