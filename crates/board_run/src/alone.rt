//! An image that lies alone in RAM, as module 0: its place, and its memory.
//!
//! Only the place and memory of an accepted image are asked for, so there is always room in RAM. No
//! other module is there, and no instruction is executed here.
ghost use Rattle.std.specs.Prelude.{◌≡◌, ◌+◌, ◌≤◌, ◌<◌, ◌^◌, ◌++◌, ◌∷◌, [], length, IfOk, None, Ok, position};
ghost use Rattle.tx_types.specs.Limits.{region_limit};
ghost use Rattle.module_loader.specs.Want.{HasSizes};
ghost use Rattle.module_preamble.specs.Preamble.{IsAccepted};
ghost use Rattle.region_guard.specs.Memory.{IsInRam};
ghost use Rattle.region_guard.specs.Region.{meets};
ghost use Rattle.board_run.specs.Alone.{ram_alone, alone, alone_at, code_region, data_region};
ghost use Rattle.board_run.specs.Held.{most_image};
ghost use Rattle.board_run.specs.Reading.{GivesHere};

use crate::placing::placed;
use crate::refusal::Stop;
use flat_ram::Ram;
use module_loader::{Placed, load, want_of};
use module_preamble::Preamble;
use region_guard::{Guard, Region, Rights};
use std::alloc::Global;
use tx_types::NoMemory;

/// The size of the RAM that an image alone has, in bytes.
pub const RAM_ALONE: u32 = 4_194_304;

/// The bit of module 0 among the modules of a region.
const MODULE_0: u16 = 1;

/// The place of an accepted image that lies alone, which always finds room.
#[tactic(auto, using(crate::proofs::LyingAlone::places_alone, crate::proofs::Step::never_stops))]
pub fn place_alone(alloc: Global, p: &Preamble) -> Result<Placed, Stop>
    requires sizes { HasSizes p.now }
    requires code { p.now.code_size ≤ most_image }
    ensures { GivesHere (λ at. at) (Ok (alone_at p.now)) result }
{
    let places = placed(alloc, RAM_ALONE, &[want_of(p)])?;
    Ok(places[0])
}

/// The memory of an image that lies alone in RAM of a size.
#[tactic(auto, unfolding(crate::specs::Alone::alone))]
pub fn memory_alone(
    alloc: Global,
    size: u32,
    p: &Preamble,
    at: Placed,
    image: &[u8],
) -> Result<Guard, NoMemory>
    requires room { ram_alone ≤ size }
    requires addressable { size ≤ 2 ^ 31 }
    requires accepted { IsAccepted image.now p.now }
    requires small { length image.now ≤ most_image }
    requires place { at ≡ alone_at p.now }
    ensures { IfOk result (λ g. g ≡ alone size p.now at image.now) }
{
    let mut ram = Ram::new(alloc, size).map_err(|_| NoMemory)?;
    load(&mut ram, image, at);
    let mut guard = Guard::new(alloc, ram)?;
    add(&mut guard, code_region(p, at));
    add(&mut guard, data_region(p, at));
    Ok(guard)
}

/// The region of the code.
fn code_region(p: &Preamble, at: Placed) -> Region
    ensures { result ≡ code_region p.now at }
{
    Region {
        base: at.code_base,
        size: p.code_size,
        rights: Rights::Code,
        who: MODULE_0,
    }
}

/// The region of the data and the stacks.
fn data_region(p: &Preamble, at: Placed) -> Region
    requires { HasSizes p.now }
    ensures { result ≡ data_region p.now at }
{
    Region {
        base: at.data_base,
        size: want_of(p).data_bytes,
        rights: Rights::ReadWrite,
        who: MODULE_0,
    }
}

/// Adds a region that meets no other.
fn add(guard: &mut Guard, region: Region)
    requires in_ram { IsInRam guard.old.bytes region }
    requires few { length guard.old.regions < region_limit }
    requires apart { position (meets region) guard.old.regions ≡ None }
    ensures { guard.new ≡ record guard.old { regions = guard.old.regions ++ region ∷ [] } }
{
    let _ = guard.add(region);
}
