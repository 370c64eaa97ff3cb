//! How much memory modules need, where they lie in small free memories, and an image in its place.
//!
//! Places are addresses: only the test of an image writes to RAM, and no module is started.

use crate::samples::MODULE;
use flat_ram::Ram;
use module_loader::{PlaceErr, Placed, Range, Want, load, place, want_of};
use module_preamble::Preamble;
use std::alloc::Global;
use std::test::Fail;

/// What a module wants, where its sizes have their bounds.
fn want(p: &Preamble) -> Option<(u32, u32)> {
    let sizes = p.data_size <= 0x10_0000 && p.start_stack <= 0x1_0000;
    if sizes && (!p.has_callback() || p.callback_stack <= 0x1_0000) {
        let w = want_of(p);
        Some((w.code, w.data_bytes))
    } else {
        None
    }
}

#[test]
fn a_module_wants_its_code_and_all_its_data(rt: HostRuntime) {
    let alone = Preamble {
        callback: 0,
        ..MODULE
    };
    let large = Preamble {
        code_size: 0x10_0000,
        data_size: 0x10_0000,
        start_stack: 0x1_0000,
        callback_stack: 0xFFF1,
        ..MODULE
    };
    let small = Preamble {
        data_size: 1,
        start_stack: 64,
        callback_stack: 0xFFFF_FFFF,
        ..alone
    };
    // 112 bytes of data, 112 and 144 of stacks
    let both = want(&MODULE) == Some((224, 368)) && want(&alone) == Some((224, 224));
    let edges = want(&large) == Some((0x10_0000, 0x12_0000)) && want(&small) == Some((224, 80));
    assert!(rt; both && edges);
}

/// Places modules, given as code and data bytes, where the free ranges are addressable.
fn places(
    alloc: Global,
    free: &[Range],
    wants: &[(u32, u32)],
) -> Result<Vec<(u32, u32)>, PlaceErr> {
    let mut all = Vec::new(alloc);
    for (code, data_bytes) in wants {
        let want = Want {
            code: *code,
            data_bytes: *data_bytes,
        };
        put(&mut all, want)?;
    }
    let addressable = free
        .iter()
        .all(|r| u64::from(r.base) + u64::from(r.size) < 0x1_0000_0000);
    if !addressable || all.len() > 256 {
        return Err(PlaceErr::NoMemory);
    }
    let mut pairs = Vec::new(alloc);
    for p in place(alloc, free, &all)? {
        put(&mut pairs, (p.code_base, p.data_base))?;
    }
    Ok(pairs)
}

fn put<T: Drop>(all: &mut Vec<T>, x: T) -> Result<(), PlaceErr> {
    match all.push(x) {
        Ok(()) => Ok(()),
        Err(_) => Err(PlaceErr::NoMemory),
    }
}

/// The code and the data of the modules lie there.
fn lie(alloc: Global, free: &[Range], wants: &[(u32, u32)], due: &[(u32, u32)]) -> bool {
    match places(alloc, free, wants) {
        Ok(all) => all.as_slice() == due,
        Err(_) => false,
    }
}

/// The first of the modules that finds no room is this one.
fn stop(alloc: Global, free: &[Range], wants: &[(u32, u32)], first: u8) -> bool {
    places(alloc, free, wants).err() == Some(PlaceErr::NoRoom(first))
}

/// Three modules that fill RAM from its start.
const WANTS: [(u32, u32); 3] = [(224, 384), (216, 320), (156, 320)];

/// How many bytes are free from the start of RAM, and the first of those modules that finds no room there.
/// The last byte of the last one's data would be at 0x8000065F.
#[rattlefmt::skip]
const TOO_SMALL: [(u32, u8); 5] = [
    (0x65F, 2),
    (0x47F, 1),
    (0x260, 1),
    (0x25F, 0),
    (0xDF, 0),
];

const fn free(base: u32, size: u32) -> Range {
    Range { base, size }
}

/// Where those modules lie.
const DUE: [(u32, u32); 3] = [
    (0x8000_0000, 0x8000_00E0),
    (0x8000_0260, 0x8000_0340),
    (0x8000_0480, 0x8000_0520),
];

/// Each smaller memory stops at its module.
fn each_stops(alloc: Global) -> bool {
    for (size, first) in TOO_SMALL {
        if !stop(alloc, &[free(0x8000_0000, size)], &WANTS, first) {
            return false;
        }
    }
    true
}

#[test]
fn modules_lie_one_after_the_other(rt: HostRuntime) {
    let page = lie(rt.alloc(), &[free(0x8000_0000, 4096)], &WANTS, &DUE);
    let tight = lie(rt.alloc(), &[free(0x8000_0000, 0x660)], &WANTS, &DUE);
    assert!(rt; page && tight && each_stops(rt.alloc()));
}

/// Three modules whose code and data lie now in the one and now in the other of two free ranges.
const THREE: [(u32, u32); 3] = [(132, 64), (132, 96), (132, 32)];

const APART: [(u32, u32); 3] = [
    (0x8000_0100, 0x8000_0000),
    (0x8000_01A0, 0x8000_0240),
    (0x8000_02A0, 0x8000_0040),
];

#[test]
fn the_first_range_that_holds_it_is_taken(rt: HostRuntime) {
    let a = rt.alloc();
    let ranges = [free(0x8000_0000, 0x60), free(0x8000_0100, 0x300)];
    let apart = lie(a, &ranges, &THREE, &APART);
    // nothing begins before the first multiple of 32
    let odd = [free(0x8000_0004, 0x200)];
    let multiple = lie(a, &odd, &[(132, 64)], &[(0x8000_0020, 0x8000_00C0)]);
    let none = lie(a, &[], &[], &[]);
    let full = stop(a, &[], &[(132, 64)], 0);
    let last = stop(a, &[free(0xFFFF_FFE1, 1)], &[(4, 4)], 0);
    assert!(rt; apart && multiple && none && full && last);
}

/// Loads an image, where it is in RAM.
fn loaded(ram: &mut Ram, image: &[u8], code_base: u32) -> bool {
    let offset = code_base.wrapping_sub(0x8000_0000);
    let is_in_ram = code_base >= 0x8000_0000
        && image.len() as u64 + u64::from(offset) <= u64::from(ram.size());
    if is_in_ram {
        let at = Placed {
            code_base,
            data_base: 0x8000_0000,
        };
        load(ram, image, at);
    }
    is_in_ram
}

/// The n bytes from an offset on, where they are in RAM.
fn bytes(ram: &Ram, at: u32, n: u32) -> &[u8] {
    if n <= ram.size() && at <= ram.size() - n {
        ram.bytes(at, n)
    } else {
        &[]
    }
}

/// Images are loaded where they are in RAM, up to its end.
fn loads(ram: &mut Ram) -> bool {
    let low = loaded(ram, &[1, 2, 3, 4, 5], 0x8000_0260);
    let high = loaded(ram, &[6, 7, 8, 9], 0x8000_03FC);
    let past = loaded(ram, &[6, 7, 8, 9, 10], 0x8000_03FC);
    low && high && !past
}

#[test]
fn an_image_is_read_back(rt: HostRuntime) -> Result<(), Fail> {
    let mut ram = Ram::new(rt.alloc(), 0x400)?;
    let done = loads(&mut ram);
    let low = bytes(&ram, 0x25E, 9) == [0, 0, 1, 2, 3, 4, 5, 0, 0].as_slice();
    let high = bytes(&ram, 0x3FA, 6) == [0, 0, 6, 7, 8, 9].as_slice();
    assert!(rt; done && low && high);
    Ok(())
}
