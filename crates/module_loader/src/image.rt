//! Images that are copied into RAM.
//!
//! The bytes of the image are all that is written, and the rest of RAM stays as it is. The image
//! isn't looked into, and where it goes is decided before.
ghost use Rattle.std.specs.Prelude.{◌≡◌, ℕ, ◌-◌, length, slice_index};
ghost use Rattle.flat_ram.specs.Laws.{IsOutside};
ghost use Rattle.module_loader.specs.Image.{loaded, IsInRam, ram_base};

use crate::Placed;
use flat_ram::{Ram, a_write_changes_its_range_alone};

/// The address of the first byte of RAM.
const RAM_BASE: u32 = 0x8000_0000;

/// Copies an image to its code base.
pub fn load(ram: &mut Ram, image: &[u8], at: Placed)
    requires { IsInRam ram.old at.code_base (length image.now) }
    ensures image { ram.new ≡ loaded ram.old image.now at.code_base }
    ensures size { length ram.new ≡ length ram.old }
    ensures others { (k : ℕ) → IsOutside (at.code_base - ram_base) (length image.now) k
        → slice_index ram.new k ≡ slice_index ram.old k }
{
    a_write_changes_its_range_alone();
    ram.copy_in(at.code_base - RAM_BASE, image);
}
