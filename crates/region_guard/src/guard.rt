//! RAM and its regions.
//!
//! Every use of memory is by a module, at an address, and has been allowed by the rule `may`; what is
//! read or changed is that range alone.
ghost use Rattle.std.specs.Prelude.{◌≡◌, ℕ, List, ◌+◌, ◌-◌, ◌<◌, ◌≤◌, ◌^◌, ◌↔◌, true, [], length, All, position, if◌then◌else◌, Some, None, IfOk, IsSome, MatchOption};
ghost use Rattle.std.specs.Borrow.{sem, MutBor};
ghost use Rattle.std.specs.Fn.{FnOnceReturnsAtMut};
ghost use Rattle.std.specs.Option.{option_copied};
ghost use Rattle.machine_words.specs.Number.{IsWidth};
ghost use Rattle.region_guard.specs.Add.{add_answer, after_add};
ghost use Rattle.region_guard.specs.Lending.{LendsWindow};
ghost use Rattle.region_guard.specs.Region.{meets};
ghost use Rattle.region_guard.specs.Memory.{Memory, IsInRam, IsRangeInRam, IsSound, may, reaches, byte, number, bytes_from, with_bytes, with_number};

use crate::region::{Access, Region};
use crate::regions::Regions;
use crate::{MOST_REGIONS, RAM_BASE};
use flat_ram::Ram;
use std::alloc::Global;
use std::marker::Model;
use tx_types::{ModNo, NoMemory};

/// Why a region isn't added: there are 64 already, or it meets the one with this number, the first.
#[derive(Clone, Copy, Debug, PartialEq, Eq)]
pub enum AddErr {
    Full,
    Overlap(u8),
}

/// RAM from `RAM_BASE` on and its regions, which never meet. It has the memory for all of them from
/// the start.
#[derive(Drop)]
pub struct Guard {
    regions: Regions,
    ram: Ram,
}

impl Model for Guard {
    ghost use Rattle.region_guard.specs.Memory.{Memory, IsSound};

    ghost Value = { Memory };

    ghost view = { λ g. record { regions = g.regions; bytes = g.ram } };

    ghost invariant = { λ g. IsSound (record { regions = g.regions; bytes = g.ram }) };
}

impl Guard {
    /// RAM with no region.
    pub fn new(alloc: Global, ram: Ram) -> Result<Guard, NoMemory>
        requires { RAM_BASE + length ram ≤ 2 ^ 32 }
        ensures { IfOk result (λ g. g ≡ record { regions = []; bytes = ram }) }
    {
        let regions = Regions::new(alloc)?;
        Ok(Guard { regions, ram })
    }

    /// The regions, in the order in which they were added.
    pub fn regions(&self) -> &[Region]
        ensures value { result.now ≡ self.now.regions }
        ensures sound { IsSound self.now }
    {
        self.regions.as_slice()
    }

    /// How many bytes of RAM there are.
    pub fn size(&self) -> u32
        ensures { result ≡ length self.now.bytes }
    {
        self.ram.size()
    }

    /// Whether module m may use the n addresses from a on: they lie in one region that gives it this
    /// access. No address at all may always be used.
    #[inline]
    pub fn may(&self, m: ModNo, access: Access, a: u32, n: u32) -> bool
        ensures answer { result ≡ may self.now m access a n }
        ensures sound { IsSound self.now }
    {
        n == 0 || self.regions.some_lets(m, access, a, n)
    }

    /// Whether module m may use the n addresses from a on, and there is at least one.
    #[inline]
    pub fn reaches(&self, m: ModNo, access: Access, a: u32, n: u32) -> bool
        ensures { result ≡ reaches self.now m access a n }
    {
        n != 0 && self.may(m, access, a, n)
    }

    /// Adds a region. `Full` comes where there are 64 regions, and then `Overlap` with the number of
    /// the first region that the new one meets; a refusal changes nothing.
    pub fn add(&mut self, r: Region) -> Result<(), AddErr>
        requires { IsInRam self.old.bytes r }
        ensures answer { result ≡ add_answer self.old r }
        ensures after { self.new ≡ after_add self.old r result }
    {
        let regions = self.regions.as_slice();
        if regions.len() == usize::from(MOST_REGIONS) {
            return Err(AddErr::Full);
        }
        match first_met(regions, &r) {
            Some(i) => Err(AddErr::Overlap(i as u8)),
            None => {
                self.regions.push(r);
                Ok(())
            }
        }
    }

    /// The offset in RAM of an address in a range that may be used.
    #[inline]
    fn offset(&self, m: ModNo, access: Access, a: u32, n: u32) -> u32
        requires some { 0 < n }
        requires allowed { may self.now m access a n ≡ true }
        ensures from_base { RAM_BASE + result ≡ a }
        ensures inside { result + n ≤ length self.now.bytes }
    {
        let _ = &self.regions;
        a - RAM_BASE
    }

    /// The number in the n bytes from an address on, with zeros above them.
    #[inline]
    pub fn get(&self, m: ModNo, access: Access, a: u32, n: u32) -> u32
        requires width { IsWidth n }
        requires allowed { may self.now m access a n ≡ true }
        ensures number { result ≡ number self.now a n }
        ensures in_ram { IsRangeInRam self.now.bytes a n }
    {
        self.ram.get(self.offset(m, access, a, n), n)
    }

    /// The byte at an address, where module m may use it so.
    pub fn byte(&self, m: ModNo, access: Access, a: u32) -> Option<u8>
        ensures { result ≡ (if may self.now m access a 1 then Some (byte self.now a) else None) }
    {
        if self.may(m, access, a, 1) {
            Some(self.ram.bytes(self.offset(m, access, a, 1), 1)[0])
        } else {
            None
        }
    }

    /// Stores the low n bytes of v from an address on.
    #[inline]
    pub fn put(&mut self, m: ModNo, a: u32, n: u32, v: u32)
        requires width { IsWidth n }
        requires allowed { may self.old m Access.Store a n ≡ true }
        ensures after { self.new ≡ with_number self.old a n v }
        ensures in_ram { IsRangeInRam self.old.bytes a n }
    {
        let at = self.offset(m, Access::Store, a, n);
        self.ram.put(at, n, v);
    }

    /// The n bytes from an address on, where they may be used and there is at least one.
    pub fn bytes(&self, m: ModNo, access: Access, a: u32, n: u32) -> Option<&[u8]>
        ensures { option_copied result
            ≡ (if reaches self.now m access a n then Some (bytes_from self.now a n) else None) }
    {
        if self.reaches(m, access, a, n) {
            Some(self.ram.bytes(self.offset(m, access, a, n), n))
        } else {
            None
        }
    }

    /// The n bytes from an address on, to be written.
    pub fn window(&mut self, m: ModNo, a: u32, n: u32) -> &mut [u8]
        requires { reaches self.old m Access.Store a n ≡ true }
        ensures* writes_back { sem 𝓛 (LendsWindow self.entry a result) }
        ensures value { result.now ≡ bytes_from self.old a n }
        ensures len { length result.now ≡ n }
    {
        let at = self.offset(m, Access::Store, a, n);
        self.ram.part(at, n)
    }

    /// What f makes of the n bytes from an address on, which it may write; nothing where module m
    /// may not store there, or there is no address.
    pub fn with_window<R, F: FnOnce(&mut [u8]) -> R>(
        &mut self,
        m: ModNo,
        a: u32,
        n: u32,
        f: F,
    ) -> Option<R>
    where
        F: Drop,
        requires callable { (w : MutBor (List ℕ)) → length w.now ≡ n → F.pre f w }
        ensures some { IsSome result ↔ (reaches self.old m Access.Store a n ≡ true) }
        ensures wrote { MatchOption result (self.new ≡ self.old) (λ r.
            (w : List ℕ) × (length w ≡ n)
            × FnOnceReturnsAtMut F.FnOnce f (bytes_from self.old a n) r w
            × (self.new ≡ with_bytes self.old a w)) }
    {
        if self.reaches(m, Access::Store, a, n) {
            Some(f(self.window(m, a, n)))
        } else {
            None
        }
    }
}

/// The place of the first region that a region meets.
fn first_met(regions: &[Region], r: &Region) -> Option<usize>
    requires own { r.now.base + r.now.size ≤ 2 ^ 32 }
    requires others { All (λ s. s.base + s.size ≤ 2 ^ 32) regions.now }
    ensures { result ≡ position (meets r.now) regions.now }
{
    regions.iter().position(|s| r.meets(s))
}
