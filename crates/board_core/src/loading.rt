//! What a board is made of as it is booted: RAM with the images, the guard with the regions, and the
//! kernel with the modules' spots.
ghost use Rattle.std.specs.Prelude.{◌≡◌, ◌≤◌, length, map, replicate, All, IfOk};
ghost use Rattle.tx_types.specs.Limits.{module_limit, priority_count};
ghost use Rattle.kernel_state.specs.Kernel.{blank_kernel};
ghost use Rattle.kernel_state.specs.Sound.{IsSound as IsSoundKernel};
ghost use Rattle.module_manager.specs.Modules.{IsPlaced, loaded};
ghost use Rattle.region_guard.specs.Memory.{IsSound};
ghost use Rattle.board_core.specs.Boot.{contents, memory_with, regions_of, with_images, with_spots};
ghost use Rattle.board_core.specs.Laid.{AreImagesOf, AreLaid};

use flat_ram::{Ram, a_write_changes_its_range_alone};
use kernel_state::{Kernel, Spot};
use module_loader::{Placed, load, want_of};
use module_preamble::Preamble;
use region_guard::{Guard, Region, Rights};
use std::alloc::{AllocError, Global};
use tx_types::{ModNo, NoMemory};

/// RAM of the given number of bytes, zero but for each image at its module's code.
fn ram_with(
    alloc: Global,
    size: u32,
    images: &[Vec<u8>],
    rows: &[(Preamble, Placed)],
) -> Result<Ram, flat_ram::NoMemory>
    requires laid { let ms = map loaded rows.now in
        AreLaid (memory_with size (contents images.now) ms) ms }
    requires images { AreImagesOf (map loaded rows.now) (contents images.now) }
    ensures { IfOk result (λ ram. ram
        ≡ with_images (replicate size 0) (contents images.now) (map loaded rows.now)) }
{
    a_write_changes_its_range_alone();
    let mut ram = Ram::new(alloc, size)?;
    for (i, image) in images.iter().enumerate() {
        load(&mut ram, image, rows[i].1);
    }
    Ok(ram)
}

/// The regions of modules: each has one for its code, and one for its data.
fn regions(alloc: Global, rows: &[(Preamble, Placed)]) -> Result<Vec<Region>, AllocError>
    requires few { length rows.now ≤ module_limit }
    requires placed { All (λ r. IsPlaced r.0 r.1) rows.now }
    ensures { IfOk result (λ rs. rs.items ≡ regions_of 0 (map loaded rows.now)) }
{
    let mut regions = Vec::with_capacity(alloc, 2 * rows.len())?;
    for (i, (p, at)) in rows.iter().enumerate() {
        let want = want_of(p);
        let who = 1 << i;
        regions.push_reserved(Region {
            base: at.code_base,
            size: want.code,
            rights: Rights::Code,
            who,
        });
        regions.push_reserved(Region {
            base: at.data_base,
            size: want.data_bytes,
            rights: Rights::ReadWrite,
            who,
        });
    }
    Ok(regions)
}

/// RAM with regions that don't meet.
fn guarded(alloc: Global, ram: Ram, regions: &[Region]) -> Result<Guard, NoMemory>
    requires { IsSound (record { regions = regions.now; bytes = ram }) }
    ensures { IfOk result (λ g. g ≡ record { regions = regions.now; bytes = ram }) }
{
    let mut guard = Guard::new(alloc, ram)?;
    for r in regions {
        if guard.add(*r).is_err() {
            unreachable!();
        }
    }
    Ok(guard)
}

/// A kernel in which each module has its spot.
pub(crate) fn kernel_with(alloc: Global, rows: &[(Preamble, Placed)]) -> Result<Kernel, NoMemory>
    requires few { length rows.now ≤ module_limit }
    requires placed { All (λ r. IsPlaced r.0 r.1) rows.now }
    ensures spots { IfOk result (λ k. k ≡ with_spots 0 (map loaded rows.now) blank_kernel) }
    ensures sound { IfOk result IsSoundKernel }
    ensures levels { IfOk result (λ k. k.ready.levels ≡ priority_count) }
{
    let mut kernel = Kernel::new(alloc)?;
    for (i, (p, at)) in rows.iter().enumerate() {
        let spot = Spot {
            shell: at.code_base + p.shell,
            data_base: at.data_base,
            callback: None,
        };
        kernel.set_spot(ModNo::new(i as u8), spot);
    }
    Ok(kernel)
}

/// Guarded memory with the images, in which each module has its regions.
pub(crate) fn memory_with(
    alloc: Global,
    size: u32,
    images: &[Vec<u8>],
    rows: &[(Preamble, Placed)],
) -> Result<Guard, NoMemory>
    requires laid { let ms = map loaded rows.now in
        AreLaid (memory_with size (contents images.now) ms) ms }
    requires images { AreImagesOf (map loaded rows.now) (contents images.now) }
    ensures { IfOk result (λ g. g
        ≡ memory_with size (contents images.now) (map loaded rows.now)) }
{
    let Ok(ram) = ram_with(alloc, size, images, rows) else {
        return Err(NoMemory);
    };
    let regions = regions(alloc, rows)?;
    guarded(alloc, ram, &regions)
}
