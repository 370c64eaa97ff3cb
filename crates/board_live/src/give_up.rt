//! The end of a run in which a write failed: nothing more is written.
//!
//! No step is made and no report: what was got from the lane is all that the log can have.
ghost use Rattle.std.specs.Prelude.{◌≡◌, true, length};
ghost use Rattle.irq_inbox.specs.Seen.{AreAllOf};
ghost use Rattle.board_serve.specs.Raised.{HaveSentOf};
ghost use Rattle.board_live.specs.Finish.{HasBegun};

use crate::apart::take_apart;
use event_log::{a_history_stays_one, an_interrupt_closes_an_entry};
use irq_inbox::DevPass;
use kernel_lock::{Core, Session};
use log_lane::GetPass;
use std::sync::Wait;

/// Ends the run of a core without a word more. What was got from its lane is a run so far.
pub(crate) fn give_up<'a, R: Wait, O: Session>(
    rt: &R,
    core: Core<'a, O>,
    devs: Vec<DevPass>,
    get: GetPass,
)
    requires devs { AreAllOf O.inbox (length O.origin.board.devices) devs.items }
    requires sent { HaveSentOf O.origin.board.devices devs.items }
    requires get { (get.live ≡ true) × (get.lane ≡ O.lane.id) }
    ensures { HasBegun O.origin get.entries }
{
    a_history_stays_one();
    an_interrupt_closes_an_entry();
    take_apart(rt, core, devs, get);
}
