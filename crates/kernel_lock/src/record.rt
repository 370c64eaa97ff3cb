//! How an event is recorded. An interrupt closes the entry of steps before it, both entries go into
//! the lane, and the machine takes it; a step is the machine's alone.
//!
//! These are functions over the parts of the core, since between two writes the parts don't agree.
ghost use Rattle.std.specs.Prelude.{◌≡◌, ◌+◌, ◌<◌, length, IsTrue, MatchBool};
ghost use Rattle.tx_types.specs.Limits.{step_limit};
ghost use Rattle.event_log.specs.Log.{closed, irq_count, step_count, with_irq};
ghost use Rattle.kernel_lock.specs.Turn.{after_turn};
ghost use Rattle.kernel_lock.specs.declared.turn.Turn.TheVariants.{Stepped, Idle};

use crate::turn::Turn;
use board_core::Machine;
use board_values::DevNo;
use event_log::Entry;
use log_lane::{Lane, PutPass};
use std::sync::Wait;

/// Puts the open entry of steps into the lane, if there is one; afterwards all entries are in it.
fn put_open<R: Wait>(rt: &R, lane: &Lane, put: &mut PutPass, machine: &Machine)
    requires lane { put.old.lane ≡ lane.now.id }
    requires entries { put.old.entries ≡ closed machine.now.history }
    requires room { length put.old.entries < lane.now.most }
    ensures { put.new ≡ record put.old { entries = machine.now.history } }
{
    if let Some(open) = machine.history().open_entry() {
        lane.put(rt, put, open);
    }
}

/// Puts the open entry and the interrupt into the lane, and the machine takes the interrupt.
pub(crate) fn record_irq<R: Wait>(
    rt: &R,
    lane: &Lane,
    put: &mut PutPass,
    machine: &mut Machine,
    d: DevNo,
    w: u32,
)
    requires room { irq_count machine.old.history < machine.old.irqs }
    requires device { d < length machine.old.origin.board.devices }
    requires lane { put.old.lane ≡ lane.now.id }
    requires entries { put.old.entries ≡ closed machine.old.history }
    requires fits { length machine.old.history < lane.now.most }
    requires open_fits { length put.old.entries < lane.now.most }
    ensures put { put.new ≡ record put.old { entries = with_irq d w machine.old.history } }
    ensures machine { machine.new
        ≡ record machine.old { history = with_irq d w machine.old.history } }
{
    put_open(rt, lane, put, machine);
    lane.put(rt, put, Entry::Irq(d, w));
    machine.take(d, w);
}

/// Makes a step, where one may be made; else nothing.
pub(crate) fn step_where(machine: &mut Machine, may_step: bool) -> Turn
    requires { IsTrue may_step → step_count machine.old.history < step_limit }
    ensures answer { MatchBool may_step (result ≡ Stepped) (result ≡ Idle) }
    ensures machine { machine.new
        ≡ record machine.old { history = after_turn machine.old.history result } }
{
    if may_step {
        machine.step();
        Turn::Stepped
    } else {
        Turn::Idle
    }
}
