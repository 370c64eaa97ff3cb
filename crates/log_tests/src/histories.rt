//! Histories that grow by steps and interrupts, and are made again on a plain replayer.
//!
//! A history of more than a million steps is only compared with its text, and isn't made again. No
//! board is booted.
use crate::lines::after_lines;
use board_values::DevNo;
use event_log::{Entry, History, MOST_STEPS, PlainReplayer, Replayer, replay};
use std::alloc::Global;
use std::process::Abort;
use std::test::Fail;

/// One step more, the given number of more, or an interrupt of a device with a word.
enum Move {
    Step,
    Steps(u32),
    Irq(u8, u32),
}

/// A move made, where there is room for it.
fn play(h: &mut History, one: &Move) {
    match one {
        Move::Step if h.steps() < MOST_STEPS => h.add_step(),
        Move::Steps(n) if *n <= MOST_STEPS - h.steps() => h.add_steps(*n),
        Move::Irq(d, w) if h.irqs() < h.room() => h.add_irq(DevNo::new(*d % 16), *w),
        _ => {}
    }
}

/// The history of these moves, with room for three interrupts.
fn played(alloc: Global, moves: &[Move]) -> Result<History, Fail> {
    let mut h = History::reserve(alloc, 3).map_err(|_| "no memory")?;
    for one in moves {
        play(&mut h, one);
    }
    Ok(h)
}

/// A replayer of 16 devices on which the history was made.
fn made_again(alloc: Global, h: &History) -> Result<PlainReplayer, Fail> {
    // for the prover: a history is within its limits
    let _ = h.steps();
    let mut plain = PlainReplayer::new(alloc, 16, 65_536).map_err(|_| "no memory")?;
    replay(h, &mut plain);
    Ok(plain)
}

/// Moves, the text of their history, the steps of its open entry, and its numbers of steps and
/// interrupts.
struct Run {
    moves: &'static [Move],
    text: &'static str,
    open: Option<u32>,
    counts: (u32, u32),
}

const RUNS: [Run; 6] = [
    Run {
        moves: &[],
        text: "",
        open: None,
        counts: (0, 0),
    },
    Run {
        moves: &[
            Move::Step,
            Move::Step,
            Move::Irq(1, 5),
            Move::Irq(2, 0xFFFF_FFFF),
            Move::Step,
            Move::Irq(1, 5),
            Move::Step,
            Move::Step,
            Move::Step,
        ],
        text: "S 2\nI 1 00000005\nI 2 ffffffff\nS 1\nI 1 00000005\nS 3\n",
        open: Some(3),
        counts: (6, 3),
    },
    Run {
        moves: &[
            Move::Steps(0),
            Move::Steps(2),
            Move::Steps(3),
            Move::Step,
            Move::Irq(1, 5),
            Move::Steps(0),
            Move::Steps(99_999_994),
        ],
        text: "S 6\nI 1 00000005\nS 99999994\n",
        open: Some(99_999_994),
        counts: (100_000_000, 1),
    },
    Run {
        moves: &[
            Move::Step,
            Move::Irq(15, 9),
            Move::Step,
            Move::Step,
            Move::Irq(0, 0),
        ],
        text: "S 1\nI 15 00000009\nS 2\nI 0 00000000\n",
        open: None,
        counts: (3, 2),
    },
    Run {
        moves: &[
            Move::Steps(2),
            Move::Irq(1, 0xFFFF_FFFF),
            Move::Irq(0, 7),
            Move::Steps(3),
            Move::Irq(1, 1),
        ],
        text: "S 2\nI 1 ffffffff\nI 0 00000007\nS 3\nI 1 00000001\n",
        open: None,
        counts: (5, 3),
    },
    Run {
        moves: &[Move::Irq(0, 0), Move::Steps(1_000_000)],
        text: "I 0 00000000\nS 1000000\n",
        open: Some(1_000_000),
        counts: (1_000_000, 1),
    },
];

/// The most steps that are made one by one.
const FEW: u32 = 1_000_000;

/// The history of the moves is the row's.
fn grows(rt: &impl Abort, alloc: Global, run: &Run) -> Result<History, Fail> {
    let h = played(alloc, run.moves)?;
    let open = h.open_entry().map(Entry::steps);
    assert_eq!(rt;
        (after_lines(&h, run.text), open),
        (Some(""), run.open),
        "{:?}",
        run.text
    );
    Ok(h)
}

/// Made again, it is the same, and the report counts its events.
fn comes_again(rt: &impl Abort, alloc: Global, h: &History, run: &Run) -> Result<(), Fail> {
    let plain = made_again(alloc, h)?;
    let r = plain.look(alloc).map_err(|_| "no memory")?;
    let same = after_lines(plain.history(), run.text);
    assert_eq!(rt;
        (same, (r.steps, r.irqs)),
        (Some(""), run.counts),
        "{:?}",
        run.text
    );
    Ok(())
}

#[test]
fn histories_grow_and_are_made_again(rt: HostRuntime) -> Result<(), Fail> {
    for run in &RUNS {
        let h = grows(&rt, rt.alloc(), run)?;
        if h.steps() <= FEW {
            comes_again(&rt, rt.alloc(), &h, run)?;
        }
    }
    Ok(())
}
