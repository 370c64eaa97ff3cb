//! References, by which a module names a kernel object.
//!
//! Each word is a reference. Whether it names an object that is still there, and who may use that,
//! is asked of the table of slots, so a made-up reference gives no rights here.
use crate::numbers::ObjNo;
use std::marker::Model;

/// A word that names an object: the number of its slot in the low 8 bits, and in the high 24 the
/// slot's generation.
#[derive(Clone, Copy, Debug, PartialEq, Eq)]
pub struct ObjRef(u32);

impl Model for ObjRef {
    ghost use Rattle.std.specs.Prelude.{ℕ, ◌<◌, ◌^◌};

    ghost Value = { ℕ };

    ghost view = { λ r. r.0 };

    ghost invariant = { λ r. r.0 < 2 ^ 32 };

    ghost inverse = { λ n. record { 0 = n } };
}

impl ObjRef {
    ghost use Rattle.std.specs.Prelude.{◌≡◌, ◌<◌, ◌^◌};
    ghost use Rattle.tx_types.specs.Reference.{reference, slot_of, generation_of};

    /// The reference that a word is.
    #[inline]
    pub fn new(word: u32) -> ObjRef
        ensures { result ≡ word }
    {
        ObjRef(word)
    }

    /// The reference to a slot at a generation.
    #[inline]
    pub fn of(slot: ObjNo, generation: u32) -> ObjRef
        requires { generation < 2 ^ 24 }
        ensures { result ≡ reference slot generation }
    {
        ObjRef(generation * 256 + u32::from(slot.number()))
    }

    /// The word.
    #[inline]
    pub fn word(self) -> u32
        ensures { result ≡ self }
    {
        self.0
    }

    /// The slot that it names.
    #[inline]
    pub fn slot(self) -> ObjNo
        ensures { result ≡ slot_of self }
    {
        ObjNo::new((self.0 % 256) as u16)
    }

    /// The generation of the slot that it names.
    #[inline]
    pub fn generation(self) -> u32
        ensures same { result ≡ generation_of self }
        ensures below_24_bits { result < 2 ^ 24 }
    {
        self.0 / 256
    }
}
