//! The caller's loop: one hold of the kernel's lock after another, and what the lane has is written.
//!
//! A hold makes one event or none. After a failed write no step is made and nothing is written; what
//! the devices still raise is taken, so that they end.
ghost use Rattle.std.specs.Prelude.{◌≡◌, ◌≤◌, true, [], length, OnOk};
ghost use Rattle.board_serve.specs.Got.{Counted, HasAll, WritesOn};
ghost use Rattle.board_serve.specs.Raised.{AreRunning};
ghost use Rattle.board_serve.specs.Scripts.{HasShortScripts};

use crate::device::Device;
use crate::devices::turn_all;
use crate::writer::{has_all, write_closed};
use board_file::Board;
use board_io::{Sink, WriteErr};
use irq_inbox::Inbox;
use kernel_lock::{KernelCell, Session, Turn};
use log_lane::{GetPass, Lane};
use std::sync::Wait;
use std::thread;

/// What a hold of the lock was, and how many steps were made in all.
#[derive(Clone, Copy)]
struct Held {
    turn: Turn,
    steps: u32,
}

/// One hold of the lock: a turn where the history has room for an interrupt, else a step where fewer
/// than the given number were made.
fn turn_once<'a, R: Wait, O: Session>(rt: &R, cell: &KernelCell<'a, O>, most: u32) -> Held
    requires { most ≡ O.origin.board.steps }
{
    let mut core = cell.lock(rt);
    let may_step = core.steps() < most;
    let turn = if core.room() {
        core.turn(rt, may_step)
    } else if may_step {
        core.step();
        Turn::Stepped
    } else {
        Turn::Idle
    };
    Held {
        turn,
        steps: core.steps(),
    }
}

/// One hold of the lock in which no step is made. `None` where all words were taken.
fn take_once<'a, R: Wait, O: Session>(rt: &R, cell: &KernelCell<'a, O>) -> Option<Turn> {
    let mut core = cell.lock(rt);
    if !core.room() {
        return None;
    }
    Some(core.turn(rt, false))
}

/// Turns the core and the devices and writes what is closed, until all steps were made and all words
/// of all devices were got.
pub(crate) fn drive<'a, R: Wait, O: Session, S: Sink>(
    rt: &R,
    cell: &KernelCell<'a, O>,
    inbox: &Inbox,
    lane: &Lane,
    board: &Board,
    working: &mut Vec<Device>,
    get: &mut GetPass,
    counts: &mut [u32],
    sink: &mut S,
) -> Result<(), WriteErr>
    requires steps { board.now.steps ≡ O.origin.board.steps }
    requires short { HasShortScripts board.now.devices }
    requires running { AreRunning inbox.now board.now.devices working.old.items }
    requires get { (get.old.live ≡ true) × (get.old.lane ≡ lane.now.id) }
    requires counts { length counts.old ≡ length board.now.devices }
    requires counted { Counted counts.old get.old.entries }
    ensures running { AreRunning inbox.now board.now.devices working.new.items }
    ensures get { (get.new.live ≡ true) × (get.new.lane ≡ lane.now.id) }
    ensures faults { S.faults sink.old ≤ S.faults sink.new }
    ensures all { OnOk result (HasAll board.now.devices get.new.entries) }
    ensures wrote { WritesOn (S.faults sink.old) (S.faults sink.new)
        (S.written sink.old) (S.written sink.new) get.old.entries get.new.entries result }
{
    let devices = board.devices.items();
    for _ in rt.forever() {
        let held = turn_once(rt, cell, board.steps);
        turn_all(rt, inbox, devices, working);
        let some = write_closed(rt, lane, get, counts, sink)?;
        if held.steps == board.steps && has_all(counts, devices) {
            return Ok(());
        }
        if held.turn == Turn::Idle && !some {
            thread::yield_now();
        }
    }
    unreachable!()
}

/// Takes what the devices still raise, until all words were taken.
pub(crate) fn drain<'a, R: Wait, O: Session>(
    rt: &R,
    cell: &KernelCell<'a, O>,
    inbox: &Inbox,
    board: &Board,
    working: &mut Vec<Device>,
)
    requires short { HasShortScripts board.now.devices }
    requires running { AreRunning inbox.now board.now.devices working.old.items }
    ensures { AreRunning inbox.now board.now.devices working.new.items }
{
    let devices = board.devices.items();
    for _ in rt.forever() {
        let Some(turn) = take_once(rt, cell) else {
            break;
        };
        turn_all(rt, inbox, devices, working);
        if turn == Turn::Idle {
            thread::yield_now();
        }
    }
}
