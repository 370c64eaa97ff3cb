//! A core is taken apart when its devices have ended: what they sent is held against what was
//! taken, and what went into the lane against what was got from it.
//!
//! Here alone the passes of a run come together, so here it is known that no word was lost.
ghost use Rattle.std.specs.Prelude.{◌≡◌, true, List, ◌++◌, length};
ghost use Rattle.event_log.specs.Log.{closed};
ghost use Rattle.event_log.specs.declared.entry.Entry.{Entry};
ghost use Rattle.irq_inbox.specs.Seen.{AreAllOf};
ghost use Rattle.board_serve.specs.Raised.{HaveSentOf};
ghost use Rattle.board_live.specs.Finish.{HasBegun};

use board_core::Machine;
use event_log::{a_history_stays_one, an_interrupt_closes_an_entry};
use irq_inbox::DevPass;
use kernel_lock::{Core, Session, words_are_those_of_interrupts};
use log_lane::GetPass;
use std::sync::Wait;

/// Gathers the passes of all devices and closes the lane; the machine is what is left. Its history
/// is a run so far, and what was got from the lane are its closed entries up to some point.
pub(crate) fn take_apart<'a, R: Wait, O: Session>(
    rt: &R,
    core: Core<'a, O>,
    devs: Vec<DevPass>,
    get: GetPass,
) -> Machine
    requires devs { AreAllOf O.inbox (length O.origin.board.devices) devs.items }
    requires sent { HaveSentOf O.origin.board.devices devs.items }
    requires get { (get.live ≡ true) × (get.lane ≡ O.lane.id) }
    ensures machine { result ≡ core.entry.machine }
    ensures origin { result.origin ≡ O.origin }
    ensures begun { HasBegun O.origin result.history }
    ensures got { (left : List Entry) × (closed result.history ≡ get.entries ++ left) }
{
    a_history_stays_one();
    an_interrupt_closes_an_entry();
    words_are_those_of_interrupts();
    let Core {
        machine,
        inbox,
        pass,
        lane,
        put,
        session: _,
    } = core;
    inbox.gather(rt, pass, devs);
    lane.close(rt, put, get);
    machine
}
