//! A plain bus: twelve bytes from an address on, for any use.
//!
//! Each of the bytes may be fetched, loaded and stored. What lies outside of them, and a load or
//! store that isn't aligned, is answered with its cause, and then nothing changes.
ghost use Rattle.std.specs.Prelude.{◌≡◌, ℕ, ◌+◌, ◌-◌, ◌≤◌, ◌&&◌, nat_le, length, map, slice_index, if◌then◌else◌};
ghost use Rattle.std.specs.List.{range_with_len};
ghost use Rattle.machine_words.specs.Number.{IsWidth, number_from, after_store as bytes_after};
ghost use Rattle.rv_core.specs.Memory.{Memory};

use rv_core::{Bus, Cause};

/// How many bytes there are.
const SIZE: u64 = 12;

/// The bytes from an address on.
#[derive(Clone, Copy, Debug, PartialEq, Eq)]
pub struct Plain {
    pub base: u32,
    pub bytes: [u8; 12],
}

impl Plain {
    /// An instruction at an address, and eight bytes after it.
    pub fn new(base: u32, word: u32, [d0, d1, d2, d3, d4, d5, d6, d7]: [u8; 8]) -> Plain {
        let [w0, w1, w2, w3] = word.to_le_bytes();
        Plain {
            base,
            bytes: [w0, w1, w2, w3, d0, d1, d2, d3, d4, d5, d6, d7],
        }
    }

    /// Whether the n addresses from a on have bytes.
    fn holds(&self, a: u32, n: u32) -> bool
        ensures { result ≡ (nat_le self.now.base a && nat_le (a + n) (self.now.base + 12)) }
    {
        a >= self.base && u64::from(a) + u64::from(n) <= u64::from(self.base) + SIZE
    }
}

impl Bus for Plain {
    ghost memory = { λ bus. record {
      byte = λ a. if nat_le bus.base a then slice_index bus.bytes (a - bus.base) else 0;
      fetches = λ a n. nat_le bus.base a && nat_le (a + n) (bus.base + 12);
      loads = λ a n. nat_le bus.base a && nat_le (a + n) (bus.base + 12);
      stores = λ a n. nat_le bus.base a && nat_le (a + n) (bus.base + 12);
    } };

    ghost after_store = { λ bus a n value. record bus {
      bytes = map (bytes_after (slice_index bus.bytes) (a - bus.base) n value) (range_with_len 0 12);
    } };

    fn fetch(&self, a: u32) -> Result<u32, Cause> {
        if !self.holds(a, 4) {
            return Err(Cause::FetchOutside);
        }
        Ok(number(&self.bytes, (a - self.base) as usize, 4))
    }

    fn load(&self, a: u32, n: u32) -> Result<u32, Cause> {
        if a % n != 0 {
            return Err(Cause::LoadMisaligned);
        }
        if !self.holds(a, n) {
            return Err(Cause::LoadOutside);
        }
        Ok(number(&self.bytes, (a - self.base) as usize, n))
    }

    fn store(&mut self, a: u32, n: u32, value: u32) -> Result<(), Cause> {
        if a % n != 0 {
            return Err(Cause::StoreMisaligned);
        }
        if !self.holds(a, n) {
            return Err(Cause::StoreOutside);
        }
        put_number(&mut self.bytes, (a - self.base) as usize, n, value);
        Ok(())
    }
}

/// The number in the n bytes from a place on, the lowest first.
fn number(bytes: &[u8], at: usize, n: u32) -> u32
    requires width { IsWidth n }
    requires inside { at + n ≤ length bytes.now }
    ensures { result ≡ number_from (slice_index bytes.now) at n }
{
    let low = u32::from(bytes[at]);
    match n {
        1 => low,
        2 => low + 0x100 * u32::from(bytes[at + 1]),
        _ => {
            let high = u32::from(bytes[at + 2]) + 0x100 * u32::from(bytes[at + 3]);
            low + 0x100 * u32::from(bytes[at + 1]) + 0x1_0000 * high
        }
    }
}

/// Puts the low n bytes of a value from a place on, the lowest first.
fn put_number(bytes: &mut [u8], at: usize, n: u32, value: u32)
    requires { at + n ≤ length bytes.old }
    ensures { (k : ℕ) → slice_index bytes.new k ≡ bytes_after (slice_index bytes.old) at n value k }
{
    if n > 0 {
        bytes[at] = (value % 0x100) as u8;
        put_number(bytes, at + 1, n - 1, value / 0x100);
    }
}
