//! What a hart reaches memory through.
//!
//! The trait says what a bus answers, in contracts. What memory there is, and who may use it, is
//! left to the types that implement it; a store that is refused changes nothing.
ghost use Rattle.std.specs.Prelude.{◌≡◌, ◌%◌, ℕ, if◌then◌else◌, is_ok, OnOk};
ghost use Rattle.machine_words.specs.Number.{IsWidth};
ghost use Rattle.rv_core.specs.Cause.{cause_number};
ghost use Rattle.rv_core.specs.Memory.{Memory, fetch_answer, load_answer, store_answer, IsStored};

/// Why an instruction can't be executed.
#[derive(Clone, Copy, Debug, PartialEq, Eq)]
pub enum Cause {
    FetchMisaligned,
    FetchOutside,
    Illegal,
    Breakpoint,
    LoadMisaligned,
    LoadOutside,
    StoreMisaligned,
    StoreOutside,
}

impl Cause {
    /// The number of the cause, from 0 in the order of the variants.
    pub fn number(self) -> u32
        ensures { result ≡ cause_number self }
    {
        self as u32
    }
}

/// Memory as a hart sees it: bytes by address, and the ranges that it may use.
pub trait Bus {
    /// The byte at each address, and which ranges may be fetched, loaded and stored.
    ghost memory: { Self → Memory };

    /// The bus after the low n bytes of a value were put at an address.
    ghost after_store: { Self → (a n value : ℕ) → Self };

    /// The word at an address that 4 divides, the lowest byte first. `FetchOutside` where its bytes may
    /// not be fetched.
    fn fetch(&self, a: u32) -> Result<u32, Cause>
        requires { a % 4 ≡ 0 }
        ensures { result ≡ fetch_answer (memory self.now) a };

    /// The number in the n bytes from an address on, the lowest first. `LoadMisaligned` where n doesn't
    /// divide the address, then `LoadOutside` where the bytes may not be loaded.
    fn load(&self, a: u32, n: u32) -> Result<u32, Cause>
        requires { IsWidth n }
        ensures { result ≡ load_answer (memory self.now) a n };

    /// Puts the low n bytes of a value at an address, the lowest first. `StoreMisaligned` where n doesn't
    /// divide the address, then `StoreOutside` where the bytes may not be stored; nothing changes then.
    fn store(&mut self, a: u32, n: u32, value: u32) -> Result<(), Cause>
        requires { IsWidth n }
        ensures answer { result ≡ store_answer (memory self.old) a n }
        ensures after { self.new
            ≡ (if is_ok result then after_store self.old a n value else self.old) }
        ensures bytes { OnOk result (IsStored (memory self.old) (memory self.new) a n value) };
}
