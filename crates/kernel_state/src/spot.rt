//! Where the threads of each module begin.
//!
//! There is an entry for each of the 16 module numbers, whether there is such a module or not. The
//! addresses are only kept: nothing here checks them or uses them.
use std::alloc::Global;
use std::marker::Model;
use tx_types::{ModNo, NoMemory, ThreadNo};

/// The address of a module's shell entry, its data base, and its callback thread, where it has one.
#[derive(Clone, Copy, Debug)]
pub struct Spot {
    pub shell: u32,
    pub data_base: u32,
    pub callback: Option<ThreadNo>,
}

/// A table of 16 spots, by module.
#[derive(Drop)]
pub struct Spots {
    entries: Vec<Spot>,
}

impl Model for Spots {
    ghost use Rattle.std.specs.Prelude.{◌≡◌, List, length};
    ghost use Rattle.tx_types.specs.Limits.{module_limit};
    ghost use Rattle.kernel_state.specs.declared.spot.Spot.{Spot};

    ghost Value = { List Spot };

    ghost view = { λ s. s.entries.items };

    ghost invariant = { λ s. length s.entries.items ≡ module_limit };
}

impl Spots {
    ghost use Rattle.std.specs.Prelude.{◌≡◌, length, IfOk, replicate, slice_set};
    ghost use Rattle.tx_types.specs.Limits.{module_limit};
    ghost use Rattle.std.specs.List.{slice_index_or};
    ghost use Rattle.kernel_state.specs.Spot.{blank_spot};

    /// No module has a spot yet.
    pub fn new(alloc: Global) -> Result<Spots, NoMemory>
        ensures { IfOk result (λ s. s ≡ replicate module_limit blank_spot) }
    {
        let blank = Spot {
            shell: 0,
            data_base: 0,
            callback: None,
        };
        let entries = vec![in alloc; blank; 16]?;
        Ok(Spots { entries })
    }

    /// The spot of a module.
    pub fn at(&self, m: ModNo) -> Spot
        ensures value { result ≡ slice_index_or self.now m blank_spot }
        ensures size { length self.now ≡ module_limit }
    {
        self.entries[m.number() as usize]
    }

    /// A module gets a spot.
    pub fn set(&mut self, m: ModNo, spot: Spot)
        ensures { self.new ≡ slice_set self.old m spot }
    {
        self.entries[m.number() as usize] = spot;
    }
}
