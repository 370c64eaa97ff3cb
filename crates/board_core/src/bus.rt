//! Guarded memory as the bus of a module's code.
//!
//! Each fetch, load and store asks the guard, for one module. What the guard doesn't allow, and a
//! load or store that isn't aligned, is answered with its cause, and no byte changes.
ghost use Rattle.std.specs.Prelude.{◌≡◌};
ghost use Rattle.board_core.specs.Bus.{seen, StoresItsBytes};
ghost use Rattle.region_guard.specs.Memory.{with_number};

use region_guard::{
    Access, Guard, a_store_is_its_low_bytes, a_write_changes_its_bytes_alone,
    what_may_be_used_is_in_ram,
};
use rv_core::{Bus, Cause};
use tx_types::ModNo;

/// The guard, asked on behalf of one module.
#[derive(Drop)]
pub struct GuardBus<'g> {
    pub guard: &'g mut Guard,
    pub module: ModNo,
}

/// A store that the guard allows puts its bytes, and nothing else changes.
pub fn a_store_puts_its_bytes()
    ensures { StoresItsBytes }
{
    what_may_be_used_is_in_ram();
    a_store_is_its_low_bytes();
    a_write_changes_its_bytes_alone();
}

impl Bus for GuardBus<'_> {
    ghost memory = { λ bus. seen bus.«module» bus.guard.now };

    ghost after_store = { λ bus a n value. record bus {
      guard = record bus.guard { now = with_number bus.guard.now a n value };
    } };

    fn fetch(&self, a: u32) -> Result<u32, Cause> {
        if self.guard.may(self.module, Access::Fetch, a, 4) {
            Ok(self.guard.get(self.module, Access::Fetch, a, 4))
        } else {
            Err(Cause::FetchOutside)
        }
    }

    fn load(&self, a: u32, n: u32) -> Result<u32, Cause> {
        if a % n != 0 {
            return Err(Cause::LoadMisaligned);
        }
        if self.guard.may(self.module, Access::Load, a, n) {
            Ok(self.guard.get(self.module, Access::Load, a, n))
        } else {
            Err(Cause::LoadOutside)
        }
    }

    fn store(&mut self, a: u32, n: u32, value: u32) -> Result<(), Cause> {
        if a % n != 0 {
            return Err(Cause::StoreMisaligned);
        }
        if self.guard.may(self.module, Access::Store, a, n) {
            a_store_puts_its_bytes();
            self.guard.put(self.module, a, n, value);
            Ok(())
        } else {
            Err(Cause::StoreOutside)
        }
    }
}
