//! A machine as what stands for a world: a history can be made again on it.
//!
//! Each event and the report are the machine's own; nothing is kept here beside the machine.
use crate::laws::a_run_is_its_events;
use crate::machine::Machine;
use board_values::{DevNo, Report};
use event_log::{Replayer, a_history_grows_by_one_event, a_history_grows_by_steps};
use std::alloc::Global;
use tx_types::NoMemory;

impl Replayer for Machine {
    ghost use Rattle.std.specs.Prelude.{length, ◌-◌};
    ghost use Rattle.tx_types.specs.Limits.{step_limit};
    ghost use Rattle.event_log.specs.Log.{irq_count, step_count};
    ghost use Rattle.board_core.specs.After.{after};
    ghost use Rattle.board_core.specs.Report.{report_of};
    ghost use Rattle.board_core.specs.Run.{run};
    ghost use Rattle.board_core.specs.World.{World};

    ghost World = { World };

    ghost world = { λ m. (run m.origin m.history).now };

    ghost next = { after };

    ghost report = { report_of };

    ghost devices = { λ m. length m.origin.board.devices };

    ghost steps_left = { λ m. step_limit - step_count m.history };

    ghost irqs_left = { λ m. m.irqs - irq_count m.history };

    fn step(&mut self) {
        a_history_grows_by_one_event();
        a_run_is_its_events();
        Machine::step(self);
    }

    fn steps(&mut self, n: u32) {
        a_history_grows_by_steps();
        a_run_is_its_events();
        // Where there is no step to make, nothing is known of the room.
        if n > 0 {
            Machine::steps(self, n);
        }
    }

    fn take(&mut self, d: DevNo, w: u32) {
        a_history_grows_by_one_event();
        a_run_is_its_events();
        Machine::take(self, d, w);
    }

    fn look(&self, alloc: Global) -> Result<Report, NoMemory> {
        Machine::look(self, alloc)
    }
}
