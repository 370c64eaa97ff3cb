//! The session of a booted board: it is served, and then it is finished or given up.
//!
//! All memory but that of the report is taken before the first line is written.
ghost use Rattle.std.specs.Prelude.{◌≡◌, ◌+◌, ◌*◌, ◌≤◌, true, [], length, MatchResult};
ghost use Rattle.board_file.specs.Board.{script_words};
ghost use Rattle.board_file.specs.Rules.{IsBoard};
ghost use Rattle.board_io.specs.Faults.{Rose};
ghost use Rattle.irq_inbox.specs.Seen.{AreAllOf, HaveSentNothing};
ghost use Rattle.board_live.specs.Live.{HasRun, status_of};

use crate::finish::{FinishErr, finish};
use crate::give_up::give_up;
use board_core::Machine;
use board_file::Board;
use board_io::{Gate, Sink, Status};
use board_run::Booted;
use board_serve::{Served, serve};
use irq_inbox::{CpuPass, DevPass, Inbox};
use kernel_lock::{Core, KernelCell, Session};
use log_lane::{GetPass, Lane, PutPass};
use std::alloc::Global;
use std::marker::{Brand, PhantomData};
use std::sync::{Mutex, Wait};
use std::thread::Threads;

/// Runs a booted board, with an inbox for its devices and a lane for all entries of its log.
pub(crate) fn run_booted<R: Threads + Wait + Sync, S: Sink, G: Gate + Sync>(
    rt: &R,
    alloc: Global,
    booted: Booted,
    sink: &mut S,
    gate: &G,
) -> Status
    requires board { booted.machine.origin.board ≡ booted.board }
    requires rules { IsBoard booted.board }
    requires fresh { booted.machine.history ≡ [] }
    requires room { booted.machine.irqs ≡ script_words booted.board.devices }
    ensures counted { S.faults sink.old ≤ S.faults sink.new }
    ensures ran { HasRun booted.machine.origin (Rose (S.faults sink.old) (S.faults sink.new))
        (S.written sink.old) (S.written sink.new) result }
{
    let Booted { board, machine } = booted;
    let devices = board.devices.items().len() as u8;
    let Ok((inbox, pass, devs)) = Inbox::new(rt, alloc, devices) else {
        return Status::NoMemory;
    };
    let Ok((lane, put, get)) = Lane::new(rt, alloc, 2 * board.words() + 1) else {
        return Status::NoMemory;
    };
    run_session::<Brand, R, S, G>(
        rt, alloc, &board, machine, &inbox, pass, devs, &lane, put, get, sink, gate,
    )
}

/// Runs the board of a session, whose inbox, lane and passes are new.
fn run_session<O: Session, R: Threads + Wait + Sync, S: Sink, G: Gate + Sync>(
    rt: &R,
    alloc: Global,
    board: &Board,
    machine: Machine,
    inbox: &Inbox,
    pass: CpuPass,
    devs: Vec<DevPass>,
    lane: &Lane,
    put: PutPass,
    get: GetPass,
    sink: &mut S,
    gate: &G,
) -> Status
    requires board { (board.now ≡ O.origin.board) × IsBoard board.now }
    requires machine { machine ≡ record {
      origin = O.origin;
      history = [];
      irqs = script_words board.now.devices;
    } }
    requires inbox { inbox.now ≡ O.inbox }
    requires pass { pass ≡ record {
      inbox = O.inbox;
      devices = length board.now.devices;
      got = [];
      gathered = [];
    } }
    requires devs { AreAllOf inbox.now (length board.now.devices) devs.items
        × HaveSentNothing devs.items }
    requires lane { (lane.now ≡ O.lane)
        × (lane.now.most ≡ 2 * script_words board.now.devices + 1) }
    requires put { put ≡ record { lane = O.lane.id; entries = [] } }
    requires get { get ≡ record { live = true; lane = O.lane.id; entries = [] } }
    ensures counted { S.faults sink.old ≤ S.faults sink.new }
    ensures ran { HasRun O.origin (Rose (S.faults sink.old) (S.faults sink.new))
        (S.written sink.old) (S.written sink.new) result }
{
    let cell: KernelCell<O> = Mutex::new(Core {
        machine,
        inbox,
        pass,
        lane,
        put,
        session: PhantomData::<O>,
    });
    let mut get = get;
    let served = serve(
        rt, alloc, &cell, inbox, lane, board, devs, &mut get, sink, gate,
    );
    let core = cell.into_inner();
    match served {
        Served::Done(devs) => end_finished(finish(rt, alloc, core, devs, get, sink)),
        Served::WriteFault(devs) => {
            give_up(rt, core, devs, get);
            Status::WriteFault
        }
        Served::NoMemory => Status::NoMemory,
    }
}

/// Ends a session that was finished, or not whole.
fn end_finished(finished: Result<(), FinishErr>) -> Status
    ensures { result ≡ status_of finished }
{
    match finished {
        Ok(()) => Status::Done,
        Err(FinishErr::WriteFault) => Status::WriteFault,
        Err(FinishErr::NoMemory) => Status::NoMemory,
    }
}
