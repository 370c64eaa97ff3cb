//! Free memory, and the places of modules in it.
//!
//! Code and data begin at multiples of 32. What a module doesn't take of a free range stays free, as
//! small as it may be.
ghost use Rattle.std.specs.Prelude.{◌≡◌, ◌+◌, ◌^◌, ◌<◌, ◌≤◌, ◌++◌, length, take, drop, vec_len, position, Ok, IfOk, IfErr, OnOk};
ghost use Rattle.module_loader.specs.Placement.{most_wants, place_in, holds, piece, taken, placed_one, placement, Refuses};
ghost use Rattle.module_loader.specs.Taking.{IsAddressable, IsTaken, IsPlacedOne};

use crate::want::{Want, rounded_up};
use std::alloc::{AllocError, Global};

/// What the base of a module's code or data is divisible by.
const ALIGNMENT: u64 = 32;

/// The `size` addresses from `base` on.
#[derive(Clone, Copy, Debug, PartialEq, Eq)]
pub struct Range {
    pub base: u32,
    pub size: u32,
}

/// Where a module lies: the first address of its code, and of its data region.
#[derive(Clone, Copy, Debug, PartialEq, Eq)]
pub struct Placed {
    pub code_base: u32,
    pub data_base: u32,
}

/// Why modules aren't placed: there is no memory for the lists, or no room for the module with this
/// number, the first.
#[derive(Clone, Copy, Debug, PartialEq, Eq)]
pub enum PlaceErr {
    NoMemory,
    NoRoom(u8),
}

impl From<AllocError> for PlaceErr {
    ghost use Rattle.std.specs.Prelude.{◌≡◌};
    ghost use Rattle.module_loader.specs.declared.placement.PlaceErr.TheVariants.{NoMemory};

    ghost from_gives = { λ e r. r ≡ NoMemory };

    fn from(_error: AllocError) -> PlaceErr {
        PlaceErr::NoMemory
    }
}

impl Range {
    /// The first place in the range where code or data may begin.
    fn place(&self) -> u64
        ensures value { result ≡ place_in self.now }
        ensures most { result < 2 ^ 33 }
    {
        rounded_up(u64::from(self.base), ALIGNMENT)
    }

    /// Whether the given number of bytes from that place on lie in the range.
    fn holds(&self, size: u32) -> bool
        ensures { result ≡ holds size self.now }
    {
        self.place() + u64::from(size) <= u64::from(self.base) + u64::from(self.size)
    }
}

/// Puts the addresses from one up to another into a list, if there are any.
fn put_piece(free: &mut Vec<Range>, at: usize, from: u32, to: u32) -> Result<(), AllocError>
    requires { at ≤ vec_len free.old }
    ensures { OnOk result (free.new.items
        ≡ take at free.old.items ++ (piece from to ++ drop at free.old.items)) }
{
    if from < to {
        let size = to - from;
        free.insert(at, Range { base: from, size })?;
    }
    Ok(())
}

/// The number of the first free range that holds the given number of bytes.
fn first_to_hold(free: &[Range], size: u32) -> Option<usize>
    ensures { result ≡ position (holds size) free.now }
{
    free.iter().position(|r| r.holds(size))
}

/// Takes the given number of bytes from the first free range that holds them, and says where they
/// begin.
fn take(free: &mut Vec<Range>, size: u32) -> Result<Option<u32>, AllocError>
    requires { IsAddressable free.old.items }
    ensures taken { IfOk result (λ base. IsTaken (taken size free.old.items) base free.new.items) }
    ensures addressable { OnOk result (IsAddressable free.new.items) }
{
    let Some(i) = first_to_hold(free, size) else {
        return Ok(None);
    };
    let r = free.remove(i);
    let base = r.place() as u32;
    put_piece(free, i, base + size, r.base + r.size)?;
    put_piece(free, i, r.base, base)?;
    Ok(Some(base))
}

/// Takes memory for one module's code, and then for its data.
fn take_both(free: &mut Vec<Range>, want: &Want) -> Result<Option<Placed>, AllocError>
    requires { IsAddressable free.old.items }
    ensures placed { IfOk result
        (λ p. IsPlacedOne (placed_one free.old.items want.now) p free.new.items) }
    ensures addressable { OnOk result (IsAddressable free.new.items) }
{
    let Some(code_base) = take(free, want.code)? else {
        return Ok(None);
    };
    let Some(data_base) = take(free, want.data_bytes)? else {
        return Ok(None);
    };
    Ok(Some(Placed {
        code_base,
        data_base,
    }))
}

/// Places modules in free ranges, which stand in the order of their addresses. One after another
/// takes memory for its code and then for its data, each from the first free range that holds it from
/// the range's base rounded up to 32; the bytes before and after it stay free.
pub fn place(alloc: Global, free: &[Range], wants: &[Want]) -> Result<Vec<Placed>, PlaceErr>
    requires addressable { IsAddressable free.now }
    requires count { length wants.now ≤ most_wants }
    ensures ok { IfOk result (λ places. placement free.now wants.now ≡ Ok places.items) }
    ensures refusal { IfErr result (λ e. Refuses (placement free.now wants.now) e) }
{
    let mut left = Vec::from_slice(alloc, free)?;
    let mut places = Vec::with_capacity(alloc, wants.len())?;
    for (i, want) in wants.iter().enumerate() {
        match take_both(&mut left, want)? {
            Some(placed) => places.push_reserved(placed),
            None => return Err(PlaceErr::NoRoom(i as u8)),
        }
    }
    Ok(places)
}
