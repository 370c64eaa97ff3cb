//! Who may use what of one module's code, data and share; what is stored there; and full memory.
//!
//! The guard is asked directly, for a module's number: there are no threads, and no instruction is
//! executed.

use crate::samples::{CODE, DATA, SHARE, add, memory};
use region_guard::Access::{Fetch, Load, Store};
use region_guard::{Access, AddErr, Guard, Region, Rights};
use std::test::Fail;
use tx_types::ModNo;

/// A module, how it uses memory, an address, and how many bytes from there on.
type Use = (u8, Access, u32, u32);

#[rattlefmt::skip]
const ALLOWED: [Use; 10] = [
    (0, Store, 0x8000_01DC, 4),
    (0, Store, 0x8000_01DF, 1),
    (0, Store, 0x8000_00A0, 0x140),
    (0, Load, 0x8000_0000, 4),
    (0, Load, 0x8000_0080, 4),
    (0, Fetch, 0x8000_0080, 4),
    (0, Load, 0x8000_00A0, 4),
    (0, Load, 0x8000_01E0, 4),
    (3, Load, 0x8000_01E0, 4),
    (3, Load, 0x8000_01FC, 4),
];

#[rattlefmt::skip]
const REFUSED: [Use; 18] = [
    (0, Store, 0x8000_01DD, 4),
    (0, Store, 0x8000_01E0, 4),
    (0, Store, 0x8000_00A0, 0x141),
    (0, Store, 0x8000_009F, 4),
    (0, Load, 0x8000_0081, 4),
    (0, Store, 0x8000_0080, 4),
    (0, Fetch, 0x8000_00A0, 4),
    (0, Load, 0x8000_01DE, 4),
    (3, Load, 0x8000_00A0, 4),
    (1, Load, 0x8000_01E0, 4),
    (1, Load, 0x8000_0000, 4),
    (0, Load, 0x7FFF_FFFF, 4),
    (0, Load, 0x0000_0000, 4),
    (0, Load, 0xFFFF_FFFC, 0x8000_0020),
    (0, Load, 0x8000_0000, 0xFFFF_FFFF),
    (15, Load, 0x8000_01E0, 4),
    (1, Store, 0x0000_0000, 4),
    (0, Fetch, 0xFFFF_FFFF, 4),
];

/// Each of the uses is allowed, or none is; and no address at all may be used by anyone.
fn are(g: &Guard, uses: &[Use], allowed: bool) -> bool {
    for (m, access, a, n) in uses {
        let m = ModNo::new(*m % 16);
        let is = g.may(m, *access, *a, *n) == allowed
            && g.reaches(m, *access, *a, *n) == allowed
            && g.bytes(m, *access, *a, *n).is_some() == allowed
            && g.may(m, *access, *a, 0)
            && !g.reaches(m, *access, *a, 0);
        if !is {
            return false;
        }
    }
    true
}

#[test]
fn a_range_lies_in_one_region_that_allows_it(rt: HostRuntime) -> Result<(), Fail> {
    let g = memory(rt.alloc(), &[CODE, DATA, SHARE])?;
    let allowed = are(&g, &ALLOWED, true);
    let refused = are(&g, &REFUSED, false);
    assert!(rt; allowed && refused);
    Ok(())
}

/// The two bytes at an address, where module 0 may load them.
fn half(g: &Guard, a: u32) -> Option<u32> {
    let m = ModNo::new(0);
    if g.may(m, Load, a, 2) {
        Some(g.get(m, Load, a, 2))
    } else {
        None
    }
}

/// A word is stored at the end of the data, and read in parts.
fn stores(g: &mut Guard) -> bool {
    let m = ModNo::new(0);
    if g.may(m, Store, 0x8000_01DC, 4) {
        g.put(m, 0x8000_01DC, 4, 0x0403_0201);
    }
    half(g, 0x8000_01DD) == Some(0x0302)
        && g.byte(m, Load, 0x8000_01DF) == Some(4)
        && g.byte(m, Store, 0x8000_01E0).is_none()
        && read(g, 0x8000_01DA, 6) == [0, 0, 1, 2, 3, 4].as_slice()
}

/// The last bytes of the data are written through windows, and no others.
fn writes(g: &mut Guard) -> bool {
    let m = ModNo::new(0);
    if g.reaches(m, Store, 0x8000_01DC, 2) {
        g.window(m, 0x8000_01DC, 2).copy_from_slice(&[7, 8]);
    }
    let one = g.with_window(m, 0x8000_01DF, 1, |w| w.fill(9));
    let two = g.with_window(m, 0x8000_01DF, 2, |w| w.fill(1));
    let none = g.with_window(m, 0x8000_01DF, 0, |w| w.fill(1));
    let written = read(g, 0x8000_01DA, 6) == [0, 0, 7, 8, 0, 9].as_slice();
    one.is_some() && two.is_none() && none.is_none() && written
}

#[test]
fn what_is_stored_is_read(rt: HostRuntime) -> Result<(), Fail> {
    let mut stored = memory(rt.alloc(), &[CODE, DATA, SHARE])?;
    let mut written = memory(rt.alloc(), &[CODE, DATA, SHARE])?;
    assert!(rt; stores(&mut stored) && writes(&mut written));
    Ok(())
}

fn read(g: &Guard, a: u32, n: u32) -> &[u8] {
    g.bytes(ModNo::new(0), Load, a, n).unwrap_or(&[])
}

/// Where a region begins, its size, and the place of the first region that it meets.
#[rattlefmt::skip]
const OVERLAPS: [(u32, u32, u8); 6] = [
    (0x8000_0000, 1, 0),
    (0x8000_0083, 0x1F, 0),
    (0x8000_009F, 2, 1),
    (0x8000_01DF, 2, 1),
    (0x8000_01FF, 0x10, 2),
    (0x8000_0000, 0x1000, 0),
];

/// A region of module 0's.
fn region(base: u32, size: u32) -> Region {
    Region {
        base,
        size,
        rights: Rights::ReadWrite,
        who: 1,
    }
}

/// Each region that meets another is refused, and the regions stay.
fn refuses_what_meets(g: &mut Guard) -> bool {
    for (base, size, place) in OVERLAPS {
        if add(g, region(base, size)) != Some(Err(AddErr::Overlap(place))) {
            return false;
        }
    }
    g.regions() == [CODE, DATA, SHARE].as_slice()
}

/// Memory with three regions takes as many more as there is room for.
fn is_filled(g: &mut Guard) -> bool {
    for i in 3..64 {
        if add(g, region(0x8000_0200 + 32 * i, 32)) != Some(Ok(())) {
            return false;
        }
    }
    true
}

/// Full memory takes no region, though it meets none, or meets one.
fn takes_no_more(g: &mut Guard) -> bool {
    let apart = add(g, region(0x8000_0FFF, 1)) == Some(Err(AddErr::Full));
    let meets = add(g, CODE) == Some(Err(AddErr::Full));
    apart && meets && g.regions().len() == 64
}

#[test]
fn regions_are_refused(rt: HostRuntime) -> Result<(), Fail> {
    let mut g = memory(rt.alloc(), &[CODE, DATA, SHARE])?;
    assert!(rt; refuses_what_meets(&mut g) && is_filled(&mut g) && takes_no_more(&mut g));
    Ok(())
}
