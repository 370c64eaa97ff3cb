//! Where modules lie in RAM that is all free.
//!
//! The places are those of `module_loader`; a module that finds no room is refused by its number.
//! Nothing is read or written in RAM here.
ghost use Rattle.std.specs.Prelude.{◌≡◌, ◌<◌, ◌≤◌, ◌^◌, length, IfOk};
ghost use Rattle.module_loader.specs.Placement.{most_wants};
ghost use Rattle.board_run.specs.Placing.{places_in};
ghost use Rattle.board_run.specs.Reading.{GivesHere};

use crate::refusal::{Refusal, Stop};
use module_loader::{PlaceErr, Placed, Range, Want, place};
use region_guard::RAM_BASE;
use std::alloc::Global;

/// The places of modules in RAM of the given number of bytes, or which is the first that finds no
/// room.
#[tactic(auto, using(crate::proofs::Places::length_placement))]
pub fn placed(alloc: Global, ram: u32, wants: &[Want]) -> Result<Vec<Placed>, Stop>
    requires ram { ram < 2 ^ 31 }
    requires few { length wants.now ≤ most_wants }
    ensures places { GivesHere (λ v. v.items) (places_in ram wants.now) result }
    ensures count { IfOk result (λ v. length v.items ≡ length wants.now) }
{
    let free = [Range {
        base: RAM_BASE,
        size: ram,
    }];
    match place(alloc, &free, wants) {
        Ok(places) => Ok(places),
        Err(PlaceErr::NoMemory) => Err(Stop::NoMemory),
        Err(PlaceErr::NoRoom(number)) => Err(Stop::Refused(Refusal::Room(number))),
    }
}
