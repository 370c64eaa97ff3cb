//! The registers with which a module's threads begin, at the module's shell entry.
//!
//! Besides pc, only sp, gp and a0 are set, and all other registers are 0. No thread is made here,
//! and no memory is read or written.
ghost use Rattle.std.specs.Prelude.{◌≡◌, true};
ghost use Rattle.module_preamble.specs.Words.{has_callback};
ghost use Rattle.module_loader.specs.Opening.{opening, stack_top, LiesAt, Begins};
ghost use Rattle.module_loader.specs.Want.{HasSizes};

use crate::Placed;
use crate::want::part;
use module_preamble::Preamble;
use rv_core::Hart;
use rv_core::registers::{A0, GP, SP};

/// The address right above the stack of the start thread, or of the second, the callback thread.
fn stack_top(p: &Preamble, at: Placed, second: bool) -> u32
    requires sizes { HasSizes p.now }
    requires lies { LiesAt p.now at }
    requires callback { second ≡ true → has_callback p.now ≡ true }
    ensures { result ≡ stack_top p.now at second }
{
    let start_top = at.data_base + part(p.data_size) + part(p.start_stack);
    if second {
        start_top + part(p.callback_stack)
    } else {
        start_top
    }
}

/// The registers with which the start thread begins, or the second, the callback thread: the shell
/// is to call the entry.
pub fn opening(p: &Preamble, at: Placed, entry: u32, second: bool) -> Hart
    requires sizes { HasSizes p.now }
    requires lies { LiesAt p.now at }
    requires begins { Begins p.now entry second }
    ensures { result ≡ opening p.now at entry second }
{
    let mut x = [0; 32];
    x[SP as usize] = stack_top(p, at, second);
    x[GP as usize] = at.data_base;
    x[A0 as usize] = at.code_base + entry;
    Hart {
        pc: at.code_base + p.shell,
        x,
    }
}
