//! A row of bytes whose length never changes.
//!
//! A number of several bytes lies with its lowest byte first (RISC-V Unprivileged ISA Manual,
//! introduction, "Memory").
ghost use Rattle.std.specs.Prelude.{◌≡◌, ◌+◌, ◌^◌, ◌<◌, ◌≤◌, length, replicate, slice_range, IfOk};
ghost use Rattle.std.specs.Borrow.{sem};
ghost use Rattle.machine_words.specs.Number.{IsWidth};
ghost use Rattle.flat_ram.specs.Lending.{LendsPart};
ghost use Rattle.flat_ram.specs.Ram.{over, number_at, stored, zeroed};

use byteorder::{ByteOrder, LittleEndian};
use std::alloc::{AllocError, Global};
use std::marker::Model;

/// There is no memory for a value.
#[derive(Clone, Copy, Debug, PartialEq, Eq)]
pub struct NoMemory;

impl From<AllocError> for NoMemory {
    ghost from_gives = { λ e r. r ≡ record {} };

    fn from(_error: AllocError) -> NoMemory {
        NoMemory
    }
}

/// Bytes by offset, from 0. Their count stays below 2^32.
#[derive(Drop)]
pub struct Ram {
    bytes: Vec<u8>,
}

impl Model for Ram {
    ghost use Rattle.std.specs.Prelude.{ℕ, ◌^◌, ◌<◌, List, vec_len};

    ghost Value = { List ℕ };

    ghost view = { λ r. r.bytes.items };

    ghost invariant = { λ r. vec_len r.bytes < 2 ^ 32 };
}

impl Ram {
    /// The given number of bytes, all zero.
    pub fn new(alloc: Global, size: u32) -> Result<Ram, NoMemory>
        ensures { IfOk result (λ r. r ≡ replicate size 0) }
    {
        let bytes = vec![in alloc; 0u8; size as usize]?;
        Ok(Ram { bytes })
    }

    /// How many bytes there are.
    pub fn size(&self) -> u32
        ensures { result ≡ length self.now }
    {
        self.bytes.len() as u32
    }

    /// The number in the n bytes from an offset on, with zeros above them.
    #[inline]
    pub fn get(&self, at: u32, n: u32) -> u32
        requires width { IsWidth n }
        requires inside { at + n ≤ length self.now }
        ensures { result ≡ number_at self.now at n }
    {
        let start = at as usize;
        match n {
            1 => u32::from(self.bytes[start]),
            2 => u32::from(LittleEndian::read_u16(&self.bytes[start..start + 2])),
            _ => LittleEndian::read_u32(&self.bytes[start..start + 4]),
        }
    }

    /// Stores the low n bytes of v from an offset on.
    #[inline]
    #[tactic(auto, using(crate::proofs::Over::slice_set_is_over))]
    pub fn put(&mut self, at: u32, n: u32, v: u32)
        requires width { IsWidth n }
        requires inside { at + n ≤ length self.old }
        ensures { self.new ≡ stored self.old at n v }
    {
        let start = at as usize;
        match n {
            1 => self.bytes[start] = (v % 0x100) as u8,
            2 => LittleEndian::write_u16(&mut self.bytes[start..start + 2], (v % 0x1_0000) as u16),
            _ => LittleEndian::write_u32(&mut self.bytes[start..start + 4], v),
        }
    }

    /// Copies bytes to an offset.
    pub fn copy_in(&mut self, at: u32, bytes: &[u8])
        requires { at + length bytes.now ≤ length self.old }
        ensures { self.new ≡ over self.old at bytes.now }
    {
        let start = at as usize;
        self.bytes[start..start + bytes.len()].copy_from_slice(bytes);
    }

    /// Makes n bytes from an offset on zero.
    pub fn zero(&mut self, at: u32, n: u32)
        requires { at + n ≤ length self.old }
        ensures { self.new ≡ zeroed self.old at n }
    {
        let start = at as usize;
        self.bytes[start..start + n as usize].fill(0);
    }

    /// The n bytes from an offset on, to be written.
    pub fn part(&mut self, at: u32, n: u32) -> &mut [u8]
        requires { at + n ≤ length self.old }
        ensures* writes_back { sem 𝓛 (LendsPart self.entry at result) }
        ensures value { result.now ≡ slice_range self.old at (at + n) }
        ensures len { length result.now ≡ n }
    {
        let start = at as usize;
        let end = start + n as usize;
        self.bytes.slice_mut(start..end)
    }

    /// The n bytes from an offset on.
    pub fn bytes(&self, at: u32, n: u32) -> &[u8]
        requires { at + n ≤ length self.now }
        ensures value { result.now ≡ slice_range self.now at (at + n) }
        ensures len { length result.now ≡ n }
    {
        let start = at as usize;
        let end = start + n as usize;
        &self.bytes[start..end]
    }
}
