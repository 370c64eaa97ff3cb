//! The lane, with its four calls.
//!
//! An entry is never lost and never refused: it is in the queue, or was got.
ghost use Rattle.std.specs.Prelude.{◌≡◌, ◌<◌, true, List, [], ◌∷◌, ◌++◌, length, IfOk, IfSome, IfNone};
ghost use Rattle.event_log.specs.declared.entry.Entry.{Entry};

use crate::pass::{GetPass, PutPass};
use crate::rule::{Gets, Puts, Queue, Roles, Total};
use event_log::Entry;
use std::alloc::Global;
use std::marker::Model;
use std::sync::Wait;
use tx_types::NoMemory;

/// Entries on their way from the one that puts them to the one that gets them. Contracts see which
/// lane it is, and how many entries it has room for.
#[derive(Drop)]
pub struct Lane {
    queue: Queue,
}

impl Model for Lane {
    ghost use Rattle.crossbeam_queue.specs.Passes.{ruled_capacity};
    ghost use Rattle.log_lane.specs.Seen.{LaneSeen};

    ghost Value = { LaneSeen };

    ghost view = { λ l. record {
      id = l.queue.table.shared.table_id;
      most = ruled_capacity l.queue;
    } };
}

impl Lane {
    /// An empty lane for the given number of entries, and its two passes.
    #[tactic(auto, using(crate::proofs::Steps::begins, crate::proofs::Steps::forks))]
    pub fn new<R: Wait>(
        _rt: &R,
        alloc: Global,
        most: u32,
    ) -> Result<(Lane, PutPass, GetPass), NoMemory>
        requires { 0 < most }
        ensures lane { IfOk result (λ r. r.0.most ≡ most) }
        ensures put { IfOk result (λ r. r.1 ≡ record { lane = r.0.id; entries = [] }) }
        ensures get { IfOk result (λ r.
            r.2 ≡ record { live = true; lane = r.0.id; entries = [] }) }
    {
        let (queue, mut put) = Queue::ruled(alloc, most as usize)?;
        let get = queue.another::<Roles>(&mut put);
        Ok((
            Lane { queue },
            PutPass { pass: put },
            GetPass { pass: Some(get) },
        ))
    }

    /// An entry goes last. A lane holds no more than was put, so there is room for it.
    pub fn put<R: Wait>(&self, rt: &R, pass: &mut PutPass, e: Entry)
        requires lane { pass.old.lane ≡ self.now.id }
        requires room { length pass.old.entries < self.now.most }
        ensures { pass.new ≡ record pass.old { entries = pass.old.entries ++ e ∷ [] } }
    {
        match self.queue.push_as::<Puts, R>(rt, &mut pass.pass, e) {
            Ok(()) => {}
            Err(_) => unreachable!(),
        }
    }

    /// Gets the first entry. `None` where the queue was empty at one moment of the call; the pass
    /// doesn't see what the other one puts, so no clause says so.
    pub fn get<R: Wait>(&self, rt: &R, pass: &mut GetPass) -> Option<Entry>
        requires { (pass.old.live ≡ true) × (pass.old.lane ≡ self.now.id) }
        ensures some { IfSome result (λ e.
            pass.new ≡ record pass.old { entries = pass.old.entries ++ e ∷ [] }) }
        ensures none { IfNone result (pass.new ≡ pass.old) }
    {
        match &mut pass.pass {
            Some(hold) => self.queue.pop_as::<Gets, R>(rt, hold),
            None => None,
        }
    }

    /// Ends the lane: what was put is what was got and then what is left.
    #[tactic(auto, using(crate::proofs::Steps::merges, crate::proofs::Steps::totals))]
    pub fn close<R: Wait>(&self, _rt: &R, put: PutPass, get: GetPass)
        requires put { put.lane ≡ self.now.id }
        requires get { (get.lane ≡ self.now.id) × (get.live ≡ true) }
        ensures { (left : List Entry) × (put.entries ≡ get.entries ++ left) }
    {
        let PutPass { mut pass } = put;
        let GetPass { pass: Some(other) } = get else {
            unreachable!()
        };
        self.queue.absorb::<Roles>(&mut pass, other);
        self.queue.learn_as::<Total>(&mut pass);
    }
}
