//! A board is served: its devices raise their words on threads of their own, while the caller turns
//! the kernel under its lock and writes the log.
//!
//! All memory is taken before anything is started or written. All threads have ended at the end.
ghost use Rattle.std.specs.Prelude.{◌≡◌, ◌≤◌, true, [], length, vec_capacity, IfOk};
ghost use Rattle.board_file.specs.Rules.{IsBoard};
ghost use Rattle.irq_inbox.specs.Seen.{AreAllOf, HaveSentNothing};
ghost use Rattle.board_serve.specs.Got.{Counted};
ghost use Rattle.board_serve.specs.Served.{HasServed};

use crate::device::Device;
use crate::devices::{end_all, start_all};
use crate::drive::{drain, drive};
use crate::served::Served;
use board_file::Board;
use board_io::{Gate, Sink};
use irq_inbox::{DevPass, Inbox};
use kernel_lock::{KernelCell, Session};
use log_lane::{GetPass, Lane};
use std::alloc::Global;
use std::sync::Wait;
use std::sync::atomic::AtomicBool;
use std::thread::{Scope, Threads};
use std::{mem, thread};
use tx_types::NoMemory;

/// The given number of flags, none of them set.
fn flags(alloc: Global, n: usize) -> Result<Vec<AtomicBool>, NoMemory>
    ensures { IfOk result (λ v. length v.items ≡ n) }
{
    let mut flags = Vec::with_capacity(alloc, n)?;
    for _ in 0..n {
        flags.push_reserved(AtomicBool::new(false));
    }
    Ok(flags)
}

/// Room for the devices at work and for the passes that come back, and a count of 0 for each device.
struct Room<'b> {
    working: Vec<Device<'b>>,
    passes: Vec<DevPass>,
    counts: Vec<u32>,
}

impl<'b> Room<'b> {
    ghost use Rattle.std.specs.Prelude.{◌≡◌, ◌≤◌, [], length, vec_capacity, IfOk};
    ghost use Rattle.board_serve.specs.Got.{Counted};

    fn new(alloc: Global, n: usize) -> Result<Room<'b>, NoMemory>
        ensures working { IfOk result (λ r. (r.working.items ≡ []) × (n ≤ vec_capacity r.working)) }
        ensures passes { IfOk result (λ r. (r.passes.items ≡ []) × (n ≤ vec_capacity r.passes)) }
        ensures counts { IfOk result (λ r.
            (length r.counts.items ≡ n) × Counted r.counts.items []) }
    {
        Ok(Room {
            working: Vec::with_capacity(alloc, n)?,
            passes: Vec::with_capacity(alloc, n)?,
            counts: vec![in alloc; 0u32; n]?,
        })
    }
}

/// Starts the devices, turns the kernel until all is written or a write failed, and waits for the
/// devices to end.
fn run<'s, 'b: 's, 'a, E, R: Threads + Wait + Sync, O: Session, S: Sink, G: Gate + Sync>(
    scope: &'s Scope<'s, E>,
    rt: &'s R,
    alloc: Global,
    cell: &KernelCell<'a, O>,
    inbox: &'s Inbox,
    lane: &Lane,
    board: &'b Board,
    devs: Vec<DevPass>,
    get: GetPass,
    sink: &mut S,
    gate: &'s G,
    stops: &'s [AtomicBool],
) -> (Served, GetPass)
    requires board { board.now ≡ O.origin.board }
    requires rules { IsBoard board.now }
    requires devs { AreAllOf inbox.now (length board.now.devices) devs.items }
    requires nothing { HaveSentNothing devs.items }
    requires get { (get.live ≡ true) × (get.lane ≡ lane.now.id) × (get.entries ≡ []) }
    requires stops { length stops.now ≡ length board.now.devices }
    ensures get { (result.1.live ≡ true) × (result.1.lane ≡ lane.now.id) }
    ensures faults { S.faults sink.old ≤ S.faults sink.new }
    ensures served { HasServed inbox.now board.now.devices (S.faults sink.old) (S.faults sink.new)
        (S.written sink.old) (S.written sink.new) result.1.entries result.0 }
{
    let Ok(room) = Room::new(alloc, devs.len()) else {
        return (Served::NoMemory, get);
    };
    let Room {
        working,
        passes,
        mut counts,
    } = room;
    let devices = board.devices.items();
    let mut get = get;
    let mut working = start_all(scope, rt, inbox, devices, devs, gate, stops, working);
    match drive(
        rt,
        cell,
        inbox,
        lane,
        board,
        &mut working,
        &mut get,
        &mut counts,
        sink,
    ) {
        Ok(()) => (Served::Done(end_all(rt, working, passes)), get),
        Err(_) => {
            drain(rt, cell, inbox, board, &mut working);
            (Served::WriteFault(end_all(rt, working, passes)), get)
        }
    }
}

/// Serves the board of the session of a kernel under its lock, with the inbox, the lane and the pass
/// that gets from it, and the passes of all devices, which have sent nothing. Each device's thread
/// asks the gate before each word.
///
/// `Done`: all words were got, and the lines of what was got were written. `WriteFault`: a write
/// failed in this call, and a prefix of the lines was written. `NoMemory`: nothing was written.
pub fn serve<'a, R: Threads + Wait + Sync, O: Session, S: Sink, G: Gate + Sync>(
    rt: &R,
    alloc: Global,
    cell: &KernelCell<'a, O>,
    inbox: &'a Inbox,
    lane: &'a Lane,
    board: &Board,
    devs: Vec<DevPass>,
    get: &mut GetPass,
    sink: &mut S,
    gate: &G,
) -> Served
    requires board { board.now ≡ O.origin.board }
    requires rules { IsBoard board.now }
    requires inbox { inbox.now ≡ O.inbox }
    requires lane { lane.now ≡ O.lane }
    requires devs { AreAllOf inbox.now (length board.now.devices) devs.items }
    requires nothing { HaveSentNothing devs.items }
    requires get { (get.old.live ≡ true) × (get.old.lane ≡ lane.now.id) × (get.old.entries ≡ []) }
    ensures get { (get.new.live ≡ true) × (get.new.lane ≡ lane.now.id) }
    ensures faults { S.faults sink.old ≤ S.faults sink.new }
    ensures served { HasServed inbox.now board.now.devices (S.faults sink.old) (S.faults sink.new)
        (S.written sink.old) (S.written sink.new) get.new.entries result }
{
    let Ok(flags) = flags(alloc, devs.len()) else {
        return Served::NoMemory;
    };
    let stops = flags.as_slice();
    let mine = mem::replace(get, GetPass::blank());
    let ((served, mine), _sink) = thread::scope(
        thread::scope_env(),
        rt,
        move |scope| -> ((Served, GetPass), &mut S)
            requires board { (board.now ≡ O.origin.board) × IsBoard board.now }
            requires devs { AreAllOf inbox.now (length board.now.devices) devs.items
                × HaveSentNothing devs.items }
            requires get { (mine.live ≡ true) × (mine.lane ≡ lane.now.id) × (mine.entries ≡ []) }
            requires stops { length stops.now ≡ length board.now.devices }
            ensures get { (result.0.1.live ≡ true) × (result.0.1.lane ≡ lane.entry.now.id) }
            ensures faults { S.faults sink.entry.now ≤ S.faults result.1.now }
            ensures served { HasServed inbox.entry.now board.entry.now.devices
                (S.faults sink.entry.now) (S.faults result.1.now)
                (S.written sink.entry.now) (S.written result.1.now)
                result.0.1.entries result.0.0 }
            ensures same { result.1.ghost_name ≡ sink.entry.ghost_name }
        {
            let ended = run(
                scope, rt, alloc, cell, inbox, lane, board, devs, mine, sink, gate, stops,
            );
            (ended, sink)
        },
    );
    *get = mine;
    served
}
