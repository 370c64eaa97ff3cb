//! The core, and the calls that are made in a hold of its lock.
//!
//! Its type keeps that the interrupts of the history are what its pass got, in order, and that the
//! closed entries of the history are what was put into the lane; so no event is made beside them.
ghost use Rattle.std.specs.Prelude.{◌≡◌, ◌<◌, ◌↔◌, length, IsTrue, IsFalse};
ghost use Rattle.event_log.specs.Events.{words_of};
ghost use Rattle.event_log.specs.Log.{irq_count, step_count, with_step};
ghost use Rattle.kernel_lock.specs.Holds.{Holds};
ghost use Rattle.kernel_lock.specs.Turn.{after_turn, TookOneOf};
ghost use Rattle.kernel_lock.specs.declared.turn.Turn.TheVariants.{Stepped, Idle};

use crate::record::{record_irq, step_where};
use crate::session::Session;
use crate::turn::Turn;
use board_core::Machine;
use board_values::DevNo;
use event_log::{a_history_grows_by_one_event, a_history_stays_one, an_interrupt_closes_an_entry};
use irq_inbox::{CpuPass, Inbox};
use log_lane::{Lane, PutPass};
use std::marker::PhantomData;
use std::sync::{Mutex, Wait};

/// A machine, the inbox that it takes from and the lane that it puts into, of one session.
#[derive(Drop)]
pub struct Core<'a, O: Session> {
    pub machine: Machine,
    pub inbox: &'a Inbox,
    pub pass: CpuPass,
    pub lane: &'a Lane,
    pub put: PutPass,
    pub session: PhantomData<O>,
    pub ghost holds: { Holds O.origin O.inbox O.lane machine inbox.now pass lane.now put },
}

/// A core under its lock.
pub type KernelCell<'a, O> = Mutex<Core<'a, O>>;

impl<'a, O: Session> Core<'a, O> {
    /// Takes an interrupt where the inbox gives one; else makes a step where `may_step`; else does
    /// nothing. No clause says that it takes what the inbox has.
    pub fn turn<R: Wait>(&mut self, rt: &R, may_step: bool) -> Turn
        requires room { irq_count self.old.machine.history < self.old.machine.irqs }
        requires steps { IsTrue may_step →
            step_count self.old.machine.history < self.old.machine.origin.board.steps }
        ensures one { self.new.machine ≡ record self.old.machine {
          history = after_turn self.old.machine.history result;
        } }
        ensures took { TookOneOf (length self.old.machine.origin.board.devices) result }
        ensures stepped { result ≡ Stepped → IsTrue may_step }
        ensures idle { result ≡ Idle → IsFalse may_step }
    {
        a_history_grows_by_one_event();
        a_history_stays_one();
        an_interrupt_closes_an_entry();
        match self.inbox.take(rt, &mut self.pass) {
            Some((d, w)) => {
                record_irq(rt, self.lane, &mut self.put, &mut self.machine, d, w);
                Turn::Took(d, w)
            }
            None => step_where(&mut self.machine, may_step),
        }
    }

    /// Makes a step, and takes nothing from the inbox.
    pub fn step(&mut self)
        requires { step_count self.old.machine.history < self.old.machine.origin.board.steps }
        ensures one { self.new.machine ≡ record self.old.machine {
          history = with_step self.old.machine.history;
        } }
        ensures same { (self.new.pass ≡ self.old.pass) × (self.new.put ≡ self.old.put) }
    {
        a_history_grows_by_one_event();
        a_history_stays_one();
        an_interrupt_closes_an_entry();
        self.machine.step();
    }

    /// Whether the history has room for one more interrupt.
    pub fn room(&self) -> bool
        ensures { IsTrue result ↔ (irq_count self.now.machine.history < self.now.machine.irqs) }
    {
        let history = self.machine.history();
        history.irqs() < history.room()
    }

    /// How many steps the history has.
    pub fn steps(&self) -> u32
        ensures { result ≡ step_count self.now.machine.history }
    {
        self.machine.history().steps()
    }

    /// How many words of a device were taken, by the machine's own count.
    pub fn taken(&self, d: DevNo) -> u32
        ensures { result ≡ length (words_of d self.now.machine.history) }
    {
        self.machine.taken(d)
    }
}
