//! A history made again, event by event, on whatever stands for a world.
//!
//! A replayer gives its own kind of world, the next world by an event, and what a report says of a
//! world. Whoever makes a history's events on it knows the world that it then stands for.
ghost use Rattle.std.specs.Prelude.{◌≡◌, ℕ, ◌+◌, ◌<◌, ◌≤◌, ◌∷◌, [], List, All, IfOk, if◌then◌else◌, fold, length, replicate};
ghost use Rattle.event_log.specs.Events.{Event, Step, Irq, events_in, events_of};
ghost use Rattle.event_log.specs.Log.{IsEntry, step_count, irq_count, steps_in, is_irq};

use crate::entry::Entry;
use crate::history::History;
use board_values::{DevNo, Report};
use std::alloc::Global;
use tx_types::NoMemory;

/// What stands for a world on which events are made.
pub trait Replayer {
    ghost use Rattle.board_values.specs.declared.report.Report.{Report};

    // a kind of world
    ghost World: { Type 0 };

    // the world that it stands for
    ghost world: { Self → Self.World };

    // the next world by an event
    ghost next: { Self.World → Event → Self.World };

    // what a report says of a world
    ghost report: { Self.World → Report };

    // the number of its devices
    ghost devices: { Self → ℕ };

    // for how many steps it has room
    ghost steps_left: { Self → ℕ };

    // for how many interrupts it has room
    ghost irqs_left: { Self → ℕ };

    /// Makes one step. It can't run out of memory.
    fn step(&mut self)
        requires { 0 < steps_left self.old }
        ensures world { world self.new ≡ next (world self.old) Step }
        ensures devices { devices self.new ≡ devices self.old }
        ensures steps_left { steps_left self.new + 1 ≡ steps_left self.old }
        ensures irqs_left { irqs_left self.new ≡ irqs_left self.old };

    /// Makes n steps. It can't run out of memory.
    fn steps(&mut self, n: u32)
        requires { n ≤ steps_left self.old }
        ensures world { world self.new ≡ fold next (world self.old) (replicate n Step) }
        ensures devices { devices self.new ≡ devices self.old }
        ensures steps_left { steps_left self.new + n ≡ steps_left self.old }
        ensures irqs_left { irqs_left self.new ≡ irqs_left self.old }
    {
        for _ in 0..n {
            self.step();
        }
    }

    /// Takes one interrupt of device d with word w. It can't run out of memory.
    fn take(&mut self, d: DevNo, w: u32)
        requires room { 0 < irqs_left self.old }
        requires device { d < devices self.old }
        ensures world { world self.new ≡ next (world self.old) (Irq d w) }
        ensures devices { devices self.new ≡ devices self.old }
        ensures steps_left { steps_left self.new ≡ steps_left self.old }
        ensures irqs_left { irqs_left self.new + 1 ≡ irqs_left self.old };

    /// The report of the world. `NoMemory` at any time.
    fn look(&self, alloc: Global) -> Result<Report, NoMemory>
        ensures { IfOk result (λ r. r ≡ report (world self.now)) };
}

/// Makes every event of a history on a replayer, in order. It can't run out of memory.
pub fn replay<R: Replayer>(history: &History, r: &mut R)
    requires steps { step_count history.now.entries ≤ R.steps_left r.old }
    requires irqs { irq_count history.now.entries ≤ R.irqs_left r.old }
    requires devices { All (IsEntry (R.devices r.old)) history.now.entries }
    ensures world { R.world r.new ≡ fold R.next (R.world r.old) (events_of history.now.entries) }
    ensures devices { R.devices r.new ≡ R.devices r.old }
    ensures steps_left { R.steps_left r.new + step_count history.now.entries ≡ R.steps_left r.old }
    ensures irqs_left { R.irqs_left r.new + irq_count history.now.entries ≡ R.irqs_left r.old }
{
    for i in 0..history.len() {
        replay_entry(history.entry(i), r);
    }
}

/// Makes the events of one entry.
fn replay_entry<R: Replayer>(e: Entry, r: &mut R)
    requires steps { steps_in e ≤ R.steps_left r.old }
    requires irqs { (if is_irq e then 1 else 0) ≤ R.irqs_left r.old }
    requires device { IsEntry (R.devices r.old) e }
    ensures world { R.world r.new ≡ fold R.next (R.world r.old) (events_in e) }
    ensures devices { R.devices r.new ≡ R.devices r.old }
    ensures steps_left { R.steps_left r.new + steps_in e ≡ R.steps_left r.old }
    ensures irqs_left { R.irqs_left r.new + (if is_irq e then 1 else 0) ≡ R.irqs_left r.old }
{
    match e {
        Entry::Steps(n) => r.steps(n),
        Entry::Irq(d, w) => r.take(d, w),
    }
}
