//! The regions of guarded memory: all of them, and those of each module once more in a list of its own.
//!
//! A module's use of memory is looked up in its own list alone, so the regions of other modules cost it no
//! time. Regions are only added, and each one goes into the list of every module that it is for.
ghost use Rattle.std.specs.Prelude.{◌≡◌, ℕ, ◌+◌, ◌<◌, ◌^◌, ◌≤◌, [], ◌∷◌, ◌++◌, length, All, IfOk, replicate};
ghost use Rattle.std.specs.List.{filter, list_any, slice_index_or};
ghost use Rattle.tx_types.specs.Limits.{module_limit, region_limit};
ghost use Rattle.region_guard.specs.Region.{allows, is_for, lets};
ghost use Rattle.region_guard.specs.Regions.{added};

use crate::MOST_REGIONS;
use crate::region::{Access, Region};
use std::alloc::{AllocError, Global};
use std::marker::Model;
use tx_types::ModNo;

/// How many modules there can be.
const MODULES: u8 = 16;

/// Regions in the order in which they were added, with the memory for 64 from the start.
#[derive(Drop)]
struct RegionList {
    regions: Vec<Region>,
}

impl Model for RegionList {
    ghost use Rattle.std.specs.Prelude.{◌≤◌, List, vec_capacity};
    ghost use Rattle.tx_types.specs.Limits.{region_limit};
    ghost use Rattle.region_guard.specs.declared.region.Region.{Region};

    ghost Value = { List Region };

    ghost view = { λ l. l.regions.items };

    ghost invariant = { λ l. region_limit ≤ vec_capacity l.regions };
}

impl RegionList {
    /// No region yet.
    fn new(alloc: Global) -> Result<RegionList, AllocError>
        ensures { IfOk result (λ l. l ≡ []) }
    {
        let regions = Vec::with_capacity(alloc, usize::from(MOST_REGIONS))?;
        Ok(RegionList { regions })
    }

    /// Puts a region last.
    fn push(&mut self, r: Region)
        requires { length self.old < region_limit }
        ensures { self.new ≡ self.old ++ r ∷ [] }
    {
        self.regions.push_reserved(r);
    }

    fn as_slice(&self) -> &[Region]
        ensures { result.now ≡ self.now }
    {
        &self.regions
    }
}

/// Up to 64 regions. All memory is taken at the start.
#[derive(Drop)]
pub(crate) struct Regions {
    all: RegionList,
    /// The regions of each module, by its number.
    own: Vec<RegionList>,
}

impl Model for Regions {
    ghost use Rattle.std.specs.Prelude.{List};
    ghost use Rattle.region_guard.specs.declared.region.Region.{Region};
    ghost use Rattle.region_guard.specs.Regions.{AreOwn};

    ghost Value = { List Region };

    ghost view = { λ r. r.all };

    ghost invariant = { λ r. AreOwn r.all r.own.items };
}

impl Regions {
    /// No region yet.
    pub fn new(alloc: Global) -> Result<Regions, AllocError>
        ensures { IfOk result (λ r. r ≡ []) }
    {
        let all = RegionList::new(alloc)?;
        let own = empty_lists(alloc)?;
        Ok(Regions { all, own })
    }

    /// All regions, in the order in which they were added.
    pub fn as_slice(&self) -> &[Region]
        ensures { result.now ≡ self.now }
    {
        self.all.as_slice()
    }

    /// The regions of a module, in the order in which they were added.
    #[inline]
    fn own(&self, m: ModNo) -> &[Region]
        ensures { result.now ≡ filter (is_for m) self.now }
    {
        self.own[usize::from(m.number())].as_slice()
    }

    /// Puts a region last.
    pub fn push(&mut self, r: Region)
        requires { length self.old < region_limit }
        ensures { self.new ≡ self.old ++ r ∷ [] }
    {
        add_to_own(&mut self.own, r);
        self.all.push(r);
    }

    /// Whether one of the regions lets a module use the n addresses from a on.
    #[inline]
    pub fn some_lets(&self, m: ModNo, access: Access, a: u32, n: u32) -> bool
        requires some { 0 < n }
        requires addressable { All (λ r. r.base + r.size ≤ 2 ^ 32) self.now }
        ensures { result ≡ list_any (lets m access a n) self.now }
    {
        some_allows(self.own(m), access, a, n)
    }
}

/// A list for each module, with no region yet.
fn empty_lists(alloc: Global) -> Result<Vec<RegionList>, AllocError>
    ensures { IfOk result (λ lists. lists.items ≡ replicate module_limit []) }
{
    let mut lists = Vec::with_capacity(alloc, usize::from(MODULES))?;
    for _ in 0..MODULES {
        lists.push_reserved(RegionList::new(alloc)?);
    }
    Ok(lists)
}

/// Puts a region last in the list of each module that it is for.
fn add_to_own(own: &mut [RegionList], r: Region)
    requires modules { length own.old ≡ module_limit }
    requires room { All (λ list. length list < region_limit) own.old }
    ensures modules { length own.new ≡ module_limit }
    ensures each { (m : ℕ) → m < module_limit
        → slice_index_or own.new m [] ≡ added m r (slice_index_or own.old m []) }
{
    for m in 0..MODULES {
        if r.is_for(ModNo::new(m)) {
            let list = &mut own[usize::from(m)];
            list.push(r);
        }
    }
}

/// Whether one of the regions allows a use of the n addresses from a on.
#[inline]
fn some_allows(regions: &[Region], access: Access, a: u32, n: u32) -> bool
    requires some { 0 < n }
    requires addressable { All (λ r. r.base + r.size ≤ 2 ^ 32) regions.now }
    ensures { result ≡ list_any (allows access a n) regions.now }
{
    regions.iter().any(|r| r.allows(access, a, n))
}
