//! The table of counts, by the number of their object.
//!
//! Each call changes one count, and no call but `new` takes memory. An object that is no semaphore
//! counts 0.
ghost use Rattle.std.specs.Prelude.{◌≡◌, IfOk};
ghost use Rattle.sync_objects.specs.Semas.{IsSemaTable, no_semas, count_of, with_count, removed};

use crate::OBJECTS;
use std::alloc::Global;
use std::marker::Model;
use tx_types::{NoMemory, ObjNo};

/// The counts of all semaphores.
#[derive(Drop)]
pub struct Semas {
    counts: Vec<u32>,
}

impl Model for Semas {
    ghost use Rattle.std.specs.Prelude.{ℕ, List};
    ghost use Rattle.sync_objects.specs.Semas.{IsSemaTable};

    ghost Value = { List ℕ };

    ghost view = { λ t. t.counts.items };

    ghost invariant = { λ t. IsSemaTable t.counts.items };
}

impl Semas {
    /// All counts 0.
    pub fn new(alloc: Global) -> Result<Semas, NoMemory>
        ensures { IfOk result (λ t. t ≡ no_semas) }
    {
        let counts = vec![in alloc; 0u32; OBJECTS]?;
        Ok(Semas { counts })
    }

    /// Makes object o a semaphore of a count.
    pub fn create(&mut self, o: ObjNo, count: u32)
        ensures { self.new ≡ with_count self.old o count }
    {
        self.set(o, count);
    }

    /// Object o is no semaphore any more.
    pub fn remove(&mut self, o: ObjNo)
        ensures { self.new ≡ removed self.old o }
    {
        self.counts[o.place()] = 0;
    }

    /// The count of the semaphore o.
    pub fn get(&self, o: ObjNo) -> u32
        ensures value { result ≡ count_of self.now o }
        ensures sound { IsSemaTable self.now }
    {
        self.counts[o.place()]
    }

    /// Sets the count of the semaphore o.
    pub fn set(&mut self, o: ObjNo, count: u32)
        ensures { self.new ≡ with_count self.old o count }
    {
        self.counts[o.place()] = count;
    }
}
