//! All devices of a board at work: they are started, turned and waited for, one after another.
//!
//! Nothing is allocated for a list here: the lists that are given have the room. What one device
//! does at its work has a file of its own.
ghost use Rattle.std.specs.Prelude.{◌≡◌, ◌≤◌, List, [], length, vec_len, vec_capacity};
ghost use Rattle.tx_types.specs.Limits.{device_limit};
ghost use Rattle.atomic_table.specs.Seated.{TableId};
ghost use Rattle.board_file.specs.declared.board.BoardDevice.{BoardDevice};
ghost use Rattle.irq_inbox.specs.Seen.{AreAllOf, HaveSentNothing};
ghost use Rattle.board_serve.specs.Raised.{AreRunning, HaveSentOf};
ghost use Rattle.board_serve.specs.Scripts.{HasShortScripts};

use crate::device::{Device, end_one, start_one, turn_one};
use board_file::BoardDevice;
use board_io::Gate;
use board_values::DevNo;
use irq_inbox::{DevPass, Inbox};
use std::sync::Wait;
use std::sync::atomic::AtomicBool;
use std::thread::{Scope, Threads};

/// Starts each device, with its pass, its flag and its script. The list that was given has the room.
pub(crate) fn start_all<'s, 'b: 's, E, R: Wait + Sync, G: Gate + Sync>(
    scope: &'s Scope<'s, E>,
    rt: &'s R,
    inbox: &'s Inbox,
    devices: &'b [BoardDevice],
    passes: Vec<DevPass>,
    gate: &'s G,
    stops: &'s [AtomicBool],
    working: Vec<Device<'b>>,
) -> Vec<Device<'b>>
    requires passes { AreAllOf inbox.now (length devices.now) passes.items }
    requires nothing { HaveSentNothing passes.items }
    requires few { length devices.now ≤ device_limit }
    requires short { HasShortScripts devices.now }
    requires stops { length stops.now ≡ length devices.now }
    requires empty { working.items ≡ [] }
    requires room { length devices.now ≤ vec_capacity working }
    ensures { AreRunning inbox.now devices.now result.items }
{
    let mut working = working;
    for pass in passes {
        let at = working.len();
        working.push_reserved(start_one(
            scope,
            rt,
            inbox,
            pass,
            DevNo::new(at as u8),
            devices[at].script.items(),
            gate,
            &stops[at],
        ));
    }
    working
}

/// Turns each device that the caller turns once.
pub(crate) fn turn_all<R: Wait>(
    rt: &R,
    inbox: &Inbox,
    devices: &[BoardDevice],
    working: &mut Vec<Device>,
)
    requires short { HasShortScripts devices.now }
    requires running { AreRunning inbox.now devices.now working.old.items }
    ensures { AreRunning inbox.now devices.now working.new.items }
{
    for at in 0..devices.len() {
        turn_one(rt, inbox, devices[at].script.items(), &mut working[at]);
    }
}

/// Waits for each device to end, and gives back all passes. The list that was given has the room.
pub(crate) fn end_all<R: Threads>(
    rt: &R,
    working: Vec<Device>,
    passes: Vec<DevPass>,
) -> Vec<DevPass>
    requires empty { passes.items ≡ [] }
    requires room { vec_len working ≤ vec_capacity passes }
    ensures { (inbox : TableId) (devices : List BoardDevice) →
        AreRunning inbox devices working.entry.items →
        AreAllOf inbox (length devices) result.items × HaveSentOf devices result.items }
{
    let mut passes = passes;
    for device in working {
        passes.push_reserved(end_one(rt, device));
    }
    passes
}
