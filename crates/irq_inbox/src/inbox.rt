//! The inbox, with its four calls.
//!
//! A word is never lost: it is in the queue, or was taken, or came back as `Full`.
ghost use Rattle.std.specs.Prelude.{◌≡◌, ℕ, ◌^◌, ◌<◌, ◌≤◌, List, [], ◌∷◌, ◌++◌, length, map, slice_index_or, IfOk, IfErr, IfSome, IfNone, OnOk};
ghost use Rattle.tx_types.specs.Limits.{device_limit, inbox_limit};
ghost use Rattle.irq_inbox.specs.Rule.{words, HoldsRest, AreSent};
ghost use Rattle.irq_inbox.specs.Seen.{AreAllOf, HaveSentNothing};

use crate::pass::{CpuPass, DevPass};
use crate::rule::{Ended, OneMore, Queue, Raises, Takes};
use board_values::DevNo;
use std::alloc::Global;
use std::marker::Model;
use std::sync::Wait;
use tx_types::NoMemory;

/// How many words an inbox holds.
const CAPACITY: usize = 256;

/// Why a word wasn't raised: the inbox was full. It has the word.
#[derive(Clone, Copy, Debug, PartialEq, Eq)]
pub struct Full(pub u32);

/// The pass that takes, with what all devices have sent.
#[derive(Drop)]
pub struct Joined {
    pub cpu: CpuPass,
}

/// Up to 256 words of devices, on their way to the one that takes them. Contracts see which inbox
/// it is.
#[derive(Drop)]
pub struct Inbox {
    queue: Queue,
}

impl Model for Inbox {
    ghost use Rattle.std.specs.Prelude.{◌≡◌};
    ghost use Rattle.tx_types.specs.Limits.{inbox_limit};
    ghost use Rattle.atomic_table.specs.Seated.{TableId, table_id_coded};
    ghost use Rattle.crossbeam_queue.specs.Passes.{ruled_capacity};

    ghost Value = { TableId };

    ghost coded = { table_id_coded };

    ghost view = { λ q. q.queue.table.shared.table_id };

    ghost invariant = { λ q. ruled_capacity q.queue ≡ inbox_limit };
}

impl Inbox {
    /// An empty inbox for the given number of devices, the pass that takes from it, and the passes
    /// of the devices in the order of their numbers.
    pub fn new<R: Wait>(
        _rt: &R,
        alloc: Global,
        devices: u8,
    ) -> Result<(Inbox, CpuPass, Vec<DevPass>), NoMemory>
        requires { devices ≤ device_limit }
        ensures cpu { IfOk result (λ r. r.1 ≡ record {
          inbox = r.0;
          devices = devices;
          got = [];
          gathered = [];
        }) }
        ensures devs { IfOk result (λ r.
            AreAllOf r.0 devices r.2.items × HaveSentNothing r.2.items) }
    {
        let mut devs = Vec::with_capacity(alloc, devices as usize)?;
        let (queue, mut pass) = Queue::ruled(alloc, CAPACITY)?;
        for number in 0..devices {
            devs.push_reserved(DevPass {
                pass: queue.another::<OneMore>(&mut pass),
                number: DevNo::new(number),
            });
        }
        Ok((Inbox { queue }, CpuPass { pass }, devs))
    }

    /// A device raises a word. `Full`, with the word, where the queue was full at one moment of the
    /// call; a pass doesn't see the words of other devices, so `full` can't say that they were there.
    pub fn raise<R: Wait>(&self, rt: &R, pass: &mut DevPass, w: u32) -> Result<(), Full>
        requires { pass.old.inbox ≡ self.now }
        ensures sent { OnOk result (pass.new.sent ≡ pass.old.sent ++ w ∷ []) }
        ensures full { IfErr result (λ e. (e.0 ≡ w) × (pass.new ≡ pass.old)
            × ((items : List (ℕ × ℕ)) × (length items ≡ inbox_limit)
            × HoldsRest pass.old.number pass.old.sent items)) }
        ensures same { (pass.new.inbox ≡ pass.old.inbox) × (pass.new.number ≡ pass.old.number) }
    {
        let number = pass.number;
        self.queue
            .push_as::<Raises, R>(rt, &mut pass.pass, (number, w))
            .map_err(|(_, w)| Full(w))
    }

    /// Takes the first word, with its device. `None` where the queue was empty at one moment of the
    /// call; then all that gathered passes sent was got.
    #[tactic(auto, using(crate::proofs::Steps::takes, crate::proofs::Steps::totals))]
    pub fn take<R: Wait>(&self, rt: &R, pass: &mut CpuPass) -> Option<(DevNo, u32)>
        requires { pass.old.inbox ≡ self.now }
        ensures some { IfSome result (λ x.
            (pass.new.got ≡ pass.old.got ++ x ∷ []) × (x.0 < pass.old.devices)) }
        ensures fits { IfSome result (λ x. x.1 < 2 ^ 32) }
        ensures none { IfNone result (pass.new ≡ pass.old) }
        ensures all { IfNone result (AreSent pass.old.gathered pass.old.got []) }
        ensures same { (pass.new.inbox ≡ pass.old.inbox) × (pass.new.devices ≡ pass.old.devices)
            × (pass.new.gathered ≡ pass.old.gathered) }
    {
        self.queue.pop_as::<Takes, R>(rt, &mut pass.pass)
    }

    /// Gathers the passes of all devices: of each, what it sent is what was got and then what is
    /// left.
    pub fn gather<R: Wait>(&self, _rt: &R, cpu: CpuPass, devs: Vec<DevPass>) -> Joined
        requires cpu { (cpu.inbox ≡ self.now) × (cpu.gathered ≡ []) }
        requires devs { AreAllOf self.now cpu.devices devs.items }
        ensures cpu { result.cpu ≡ record cpu { gathered = map (λ p. p.sent) devs.items } }
        ensures sent { (left : List (ℕ × ℕ)) × ((d : ℕ) → d < cpu.devices →
            slice_index_or (map (λ p. p.sent) devs.items) d []
            ≡ words d cpu.got ++ words d left) }
    {
        let CpuPass { mut pass } = cpu;
        for dev in devs {
            let DevPass {
                pass: other,
                number: _,
            } = dev;
            self.queue.absorb::<Ended>(&mut pass, other);
        }
        self.queue.learn_as::<Takes>(&mut pass);
        Joined {
            cpu: CpuPass { pass },
        }
    }
}
