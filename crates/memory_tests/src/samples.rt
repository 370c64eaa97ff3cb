//! Regions of module 0 in 4,096 bytes of RAM, the memory that has them, and the preamble of a
//! module.
//!
//! There is no test here: the tests of this crate share these values.

use flat_ram::Ram;
use module_preamble::Preamble;
use region_guard::{AddErr, Guard, RAM_BASE, Region, Rights};
use std::alloc::Global;
use std::test::Fail;

/// Module 0's: 0x80000000 to 0x80000083 can be executed.
pub const CODE: Region = Region {
    base: 0x8000_0000,
    size: 0x84,
    rights: Rights::Code,
    who: 1,
};

/// Module 0's: 0x800000A0 to 0x800001DF can be written.
pub const DATA: Region = Region {
    base: 0x8000_00A0,
    size: 0x140,
    rights: Rights::ReadWrite,
    who: 1,
};

/// Right after the data, a region that modules 0 and 3 alone can read.
pub const SHARE: Region = Region {
    base: 0x8000_01E0,
    size: 0x20,
    rights: Rights::Read,
    who: 0b1001,
};

/// RAM with these regions.
pub fn memory(alloc: Global, regions: &[Region]) -> Result<Guard, Fail> {
    let ram = Ram::new(alloc, 4096).map_err(|_| "no memory")?;
    let mut g = Guard::new(alloc, ram).map_err(|_| "no memory")?;
    for r in regions {
        if add(&mut g, *r) != Some(Ok(())) {
            return Err(Fail::from("a region was refused"));
        }
    }
    Ok(g)
}

/// Adds a region, where it is in RAM.
pub fn add(g: &mut Guard, r: Region) -> Option<Result<(), AddErr>> {
    let is_in_ram = r.size > 0
        && r.base >= RAM_BASE
        && r.size <= g.size()
        && r.base - RAM_BASE <= g.size() - r.size;
    if is_in_ram { Some(g.add(r)) } else { None }
}

/// A module of 224 bytes of code, whose shell entry is 128.
pub const MODULE: Preamble = Preamble {
    id: 0x4D4F_4455,
    major: 6,
    minor: 0,
    words: 32,
    app: 1,
    props: 3,
    shell: 128,
    start: 160,
    stop: 0,
    start_prio: 10,
    start_stack: 100,
    callback: 164,
    callback_prio: 5,
    callback_stack: 130,
    code_size: 224,
    data_size: 100,
};
