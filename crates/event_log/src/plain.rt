//! The plainest replayer: its world is the list of the events that were made on it.
//!
//! There is no board: an event changes no module, thread or memory, and the report has the numbers
//! of steps and interrupts, and is otherwise empty.
ghost use Rattle.std.specs.Prelude.{◌≡◌, ◌≤◌, ◌∷◌, ◌++◌, [], List, Ok, IfOk};
ghost use Rattle.event_log.specs.Events.{Event, events_of};
ghost use Rattle.event_log.specs.Plain.{counts_of};
ghost use Rattle.tx_types.specs.Limits.{step_limit, interrupt_limit};

use crate::history::History;
use crate::replayer::Replayer;
use board_values::{DevNo, Report, Rows};
use std::alloc::Global;
use std::marker::Model;
use tx_types::{NoMemory, Totals};

/// A replayer that keeps the events made on it, and has nothing else of a board.
#[derive(Drop)]
pub struct PlainReplayer {
    made: History,
    devices: u8,
}

impl Model for PlainReplayer {
    ghost use Rattle.std.specs.Prelude.{◌-◌};
    ghost use Rattle.event_log.specs.Log.{step_count, irq_count};
    ghost use Rattle.event_log.specs.Events.{events_of};
    ghost use Rattle.event_log.specs.Plain.{Made};
    ghost use Rattle.tx_types.specs.Limits.{step_limit};

    ghost Value = { Made };

    ghost view = { λ r. record {
      events = events_of r.made.entries;
      devices = r.devices;
      steps_left = step_limit - step_count r.made.entries;
      irqs_left = r.made.irqs - irq_count r.made.entries;
    } };
}

impl PlainReplayer {
    /// A replayer with the given number of devices on which no event was made, with room for
    /// 100,000,000 steps and the given number of interrupts.
    pub fn new(alloc: Global, devices: u8, irqs: u32) -> Result<PlainReplayer, NoMemory>
        requires { irqs ≤ interrupt_limit }
        ensures { IfOk result (λ r. r ≡ record {
          events = [];
          devices = devices;
          steps_left = step_limit;
          irqs_left = irqs;
        }) }
    {
        let made = History::reserve(alloc, irqs)?;
        Ok(PlainReplayer { made, devices })
    }

    /// The events that were made, as a history.
    pub fn history(&self) -> &History
        ensures { events_of result.now.entries ≡ self.now.events }
    {
        &self.made
    }
}

impl Replayer for PlainReplayer {
    ghost World = { List Event };

    ghost world = { λ r. r.events };

    ghost next = { λ events e. events ++ e ∷ [] };

    ghost report = { counts_of };

    ghost devices = { λ r. r.devices };

    ghost steps_left = { λ r. r.steps_left };

    ghost irqs_left = { λ r. r.irqs_left };

    #[tactic(auto, using(crate::proofs::EventLists::one_more))]
    fn step(&mut self) {
        self.made.add_step();
    }

    #[tactic(auto, using(crate::proofs::EventLists::one_more))]
    fn take(&mut self, d: DevNo, w: u32) {
        self.made.add_irq(d, w);
    }

    #[tactic(auto, using(crate::proofs::EventLists::made))]
    fn look(&self, alloc: Global) -> Result<Report, NoMemory>
        ensures { result ≡ Ok (counts_of self.now.events) }
    {
        Ok(Report {
            steps: self.made.steps(),
            irqs: self.made.irqs(),
            ticks: 0,
            clock: 0,
            running: None,
            held: Rows::new(Vec::new(alloc)),
            ready: Rows::new(Vec::new(alloc)),
            totals: Totals::NONE,
            modules: Rows::new(Vec::new(alloc)),
            threads: Rows::new(Vec::new(alloc)),
            objects: Rows::new(Vec::new(alloc)),
            devices: Rows::new(Vec::new(alloc)),
            shows: Rows::new(Vec::new(alloc)),
        })
    }
}
