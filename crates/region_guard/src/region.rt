//! Regions: ranges of addresses with the rights that they give, and to whom.
//!
//! A region is judged by itself: which regions there are isn't known here, and no memory is read or
//! written.
ghost use Rattle.std.specs.Prelude.{◌≡◌, ◌+◌, ◌^◌, ◌<◌, ◌≤◌};
ghost use Rattle.region_guard.specs.Region.{allows, gives, is_for, meets};

use tx_types::ModNo;

/// What a region may be used for.
#[derive(Clone, Copy, Debug, PartialEq, Eq)]
pub enum Rights {
    /// To execute and to read.
    Code,
    Read,
    ReadWrite,
}

/// How an address is used.
#[derive(Clone, Copy, Debug, PartialEq, Eq)]
pub enum Access {
    Fetch,
    Load,
    Store,
}

/// The `size` addresses from `base` on. Bit m of `who` says that module m has the rights.
#[derive(Clone, Copy, Debug, PartialEq, Eq)]
pub struct Region {
    pub base: u32,
    pub size: u32,
    pub rights: Rights,
    pub who: u16,
}

impl Rights {
    /// Whether they give an access.
    #[inline]
    pub fn gives(self, access: Access) -> bool
        ensures { result ≡ gives self access }
    {
        match self {
            Rights::Code => access != Access::Store,
            Rights::Read => access == Access::Load,
            Rights::ReadWrite => access != Access::Fetch,
        }
    }
}

impl Region {
    /// Whether the region is one of a module's.
    #[inline]
    pub fn is_for(&self, m: ModNo) -> bool
        ensures { result ≡ is_for m self.now }
    {
        self.who >> m.number() & 1 == 1
    }

    /// Whether the region allows a use of the n addresses from a on, by a module that it is for.
    #[inline]
    pub fn allows(&self, access: Access, a: u32, n: u32) -> bool
        requires some { 0 < n }
        requires addressable { self.now.base + self.now.size ≤ 2 ^ 32 }
        ensures { result ≡ allows access a n self.now }
    {
        let into = a.wrapping_sub(self.base);
        into < self.size && n <= self.size - into && self.rights.gives(access)
    }

    /// Whether two regions have an address in common.
    pub fn meets(&self, other: &Region) -> bool
        requires own { self.now.base + self.now.size ≤ 2 ^ 32 }
        requires others { other.now.base + other.now.size ≤ 2 ^ 32 }
        ensures { result ≡ meets self.now other.now }
    {
        u64::from(self.base) < u64::from(other.base) + u64::from(other.size)
            && u64::from(other.base) < u64::from(self.base) + u64::from(self.size)
    }
}
