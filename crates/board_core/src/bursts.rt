//! A burst: the code of a module runs for as long as its instructions complete.
//!
//! All instructions of a program go through this one loop, so that the compiler makes one function of it.
ghost use Rattle.std.specs.Prelude.{◌≡◌, ◌≢◌, ◌<◌, ◌^◌};
ghost use Rattle.board_core.specs.Burst.{before_call, burst, hart_at, out_at};

use crate::bus::GuardBus;
use region_guard::Guard;
use rv_core::{Hart, Out, step};
use tx_types::ModNo;

/// How far code ran: how many instructions completed, and how the one after them ended; `Done`
/// where as many completed as were asked for.
#[derive(Clone, Copy, Debug, PartialEq, Eq)]
pub struct BurstEnd {
    pub done: u32,
    pub out: Out,
}

/// Executes a module's code from pc on until an instruction doesn't complete, at most the given
/// number. After a call pc is past it; after a fault nothing of the instruction was done.
pub fn burst(hart: &mut Hart, guard: &mut Guard, module: ModNo, most: u32) -> BurstEnd
    ensures done { result.done ≡ (burst «module» most hart.old guard.old).done }
    ensures out { result.out ≡ out_at (burst «module» most hart.old guard.old).end }
    ensures hart { hart.new ≡ (let b = burst «module» most hart.old guard.old in
        hart_at b.end b.hart) }
    ensures memory { guard.new ≡ (burst «module» most hart.old guard.old).memory }
    ensures call { result.out ≡ Out.Call
        → (burst «module» most hart.old guard.old).hart ≡ before_call hart.new }
    ensures stays { result.out ≢ Out.Call
        → (burst «module» most hart.old guard.old).hart ≡ hart.new }
{
    let mut bus = GuardBus { guard, module };
    for done in 0..most {
        pc_is_a_word(hart);
        match step(hart, &mut bus) {
            Out::Done => {}
            out => return BurstEnd { done, out },
        }
    }
    BurstEnd {
        done: most,
        out: Out::Done,
    }
}

/// What holds of the program counter of every hart.
#[inline]
fn pc_is_a_word(h: &Hart)
    ensures { h.now.pc < 2 ^ 32 }
{
    let _pc = h.pc;
}
