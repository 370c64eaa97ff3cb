//! The machine: a board on which events are made, and the history of them.
//!
//! Its type keeps that the parts show what the written machine reaches from the board and the images
//! by that history. Every event's memory was taken at boot, and each event always returns.
ghost use Rattle.std.specs.Prelude.{◌≡◌, ◌+◌, ◌<◌, ◌≤◌, length};
ghost use Rattle.tx_types.specs.Limits.{step_limit};
ghost use Rattle.event_log.specs.Events.{words_of};
ghost use Rattle.event_log.specs.Log.{IsHistory, irq_count, step_count, with_irq, with_step, with_steps};
ghost use Rattle.region_guard.specs.Memory.{IsSound as IsSoundMemory};
ghost use Rattle.module_manager.specs.Modules.{module_at};
ghost use Rattle.board_core.specs.Laws.{IsWorld};
ghost use Rattle.board_core.specs.Run.{run};
ghost use Rattle.board_core.specs.Trace.{IsTallied};
ghost use Rattle.board_core.specs.Devices.{device_at};

use crate::laws::{
    an_event_keeps_regions_and_images, no_wait_is_lost, slots_are_of_started_modules,
};
use crate::parts::Parts;
use board_file::Board;
use board_values::DevNo;
use event_log::{
    History, a_history_grows_by_one_event, a_history_grows_by_steps, an_interrupt_is_one_word_more,
};
use flat_ram::a_write_changes_its_range_alone;
use kernel_state::laws::{
    a_kernel_stays_sound, a_promised_result_may_be_stored, who_runs_is_a_thread,
};
use module_loader::Placed;
use region_guard::Guard;
use std::marker::Model;
use tx_types::{Code, ModNo};

/// A booted board and the events that were made on it.
#[derive(Drop)]
pub struct Machine {
    pub(crate) board: Board,
    pub(crate) parts: Parts,
    pub(crate) history: History,
}

impl Model for Machine {
    ghost use Rattle.std.specs.Prelude.{◌≡◌};
    ghost use Rattle.board_core.specs.Machine.{Recorded, Stands, origin_of};

    ghost Value = { Recorded };

    ghost view = { λ m. record {
      origin = origin_of m.board m.parts;
      history = m.history.entries;
      irqs = m.history.irqs;
    } };

    ghost invariant = { λ m. Stands m.board m.parts m.history.entries };
}

impl Machine {
    /// Makes one step: the running thread's next instruction, with its whole call where that is an
    /// ECALL, or nothing where no thread runs.
    pub fn step(&mut self)
        requires { step_count self.old.history < step_limit }
        ensures { self.new ≡ record self.old { history = with_step self.old.history } }
    {
        self.steps(1);
    }

    /// Makes n steps, one after another.
    pub fn steps(&mut self, n: u32)
        requires { step_count self.old.history + n ≤ step_limit }
        ensures { self.new ≡ record self.old { history = with_steps n self.old.history } }
    {
        a_history_grows_by_steps();
        let mut left = n;
        while left > 0 {
            left -= self.make(left);
        }
    }

    /// Makes at least one step and at most the given number, and says how many.
    fn make(&mut self, most: u32) -> u32
        requires some { 0 < most }
        requires room { step_count self.old.history + most ≤ step_limit }
        ensures some { 0 < result }
        ensures at_most { result ≤ most }
        ensures history { self.new
            ≡ record self.old { history = with_steps result self.old.history } }
    {
        a_history_grows_by_steps();
        an_event_keeps_regions_and_images();
        slots_are_of_started_modules();
        no_wait_is_lost();
        who_runs_is_a_thread();
        a_kernel_stays_sound();
        a_promised_result_may_be_stored();
        a_write_changes_its_range_alone();
        let made = self.parts.make_steps(most);
        is_guarded(&self.parts.memory);
        self.history.add_steps(made);
        made
    }

    /// Takes one interrupt of device d with word w: the device's action is made, and the device keeps
    /// its status.
    pub fn take(&mut self, d: DevNo, w: u32)
        requires room { irq_count self.old.history < self.old.irqs }
        requires device { d < length self.old.origin.board.devices }
        ensures { self.new ≡ record self.old { history = with_irq d w self.old.history } }
    {
        a_history_grows_by_one_event();
        an_interrupt_is_one_word_more();
        an_event_keeps_regions_and_images();
        slots_are_of_started_modules();
        no_wait_is_lost();
        let _ = self.history.room();
        self.parts.interrupt(&self.board, d, w);
        is_guarded(&self.parts.memory);
        self.history.add_irq(d, w);
    }

    /// The run of the machine's history is a world of which the laws speak, and no wait was lost or
    /// ended twice on the way; the history is one of the board's devices, within its limits and the
    /// room.
    pub fn stands(&self)
        ensures world { IsWorld (run self.now.origin self.now.history).now }
        ensures tallied { IsTallied (run self.now.origin self.now.history) }
        ensures history { IsHistory (length self.now.origin.board.devices) self.now.history }
        ensures room { irq_count self.now.history ≤ self.now.irqs }
    {
        let _ = self.history.steps();
    }

    /// The events so far.
    pub fn history(&self) -> &History
        ensures history { result.now.entries ≡ self.now.history }
        ensures room { result.now.irqs ≡ self.now.irqs }
    {
        &self.history
    }

    /// The board that the machine keeps.
    pub fn board(&self) -> &Board
        ensures { result.now ≡ self.now.origin.board }
    {
        &self.board
    }

    /// Where a module lies.
    pub fn placed(&self, m: ModNo) -> Placed
        requires { m < length self.now.origin.board.modules }
        ensures { result
            ≡ (module_at (run self.now.origin self.now.history).now.parts.modules m).placed }
    {
        self.parts.modules.row(m).placed
    }

    /// How many words of a device were taken.
    pub fn taken(&self, d: DevNo) -> u32
        ensures { result ≡ length (words_of d self.now.history) }
    {
        self.parts.devices.taken(d)
    }

    /// The status of a device's last action; SUCCESS before the first.
    pub fn last(&self, d: DevNo) -> Code
        requires { d < length self.now.origin.board.devices }
        ensures { result
            ≡ (device_at (run self.now.origin self.now.history).now.parts.devices d).last }
    {
        self.parts.devices.row(d).last
    }
}

/// What holds of all guarded memory.
#[inline]
fn is_guarded(g: &Guard)
    ensures { IsSoundMemory g.now }
{
    let _ = g.regions();
}
