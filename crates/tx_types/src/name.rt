//! Names of kernel objects.
//!
//! A name has room for its bytes in itself, so making one can't run out of memory. It may have any
//! bytes; the zero that ends a name in a module's memory isn't known here.
ghost use Rattle.std.specs.Prelude.{◌≡◌, ◌≤◌, ◌<◌, ◌+◌, ◌∷◌, ◌++◌, [], length};
ghost use Rattle.std.specs.Str.{bytes_eq};
ghost use Rattle.tx_types.specs.Limits.{name_limit};

use arrayvec::ArrayVec;
use std::marker::Model;

/// The name of a kernel object: at most 31 bytes, none for no name.
#[derive(Clone, Debug, Drop)]
pub struct Name {
    bytes: ArrayVec<u8, 31>,
}

impl Model for Name {
    ghost use Rattle.std.specs.Prelude.{ℕ, List};

    ghost Value = { List ℕ };

    ghost view = { λ n. n.bytes.items };
}

impl Name {
    /// The empty name.
    pub fn empty() -> Name
        ensures { result ≡ [] }
    {
        Name {
            bytes: ArrayVec::new(),
        }
    }

    /// The name of these bytes.
    pub fn from_bytes(bytes: &[u8]) -> Name
        requires { length bytes.now ≤ name_limit }
        ensures { result ≡ bytes.now }
    {
        let mut name = Name::empty();
        for b in bytes {
            name.push(*b);
        }
        name
    }

    /// Adds a byte at the end.
    pub fn push(&mut self, b: u8)
        requires { length self.old < name_limit }
        ensures { self.new ≡ self.old ++ b ∷ [] }
    {
        self.bytes.push(b);
    }

    /// Its bytes.
    pub fn bytes(&self) -> &[u8]
        ensures value { result.now ≡ self.now }
        ensures short { length self.now ≤ name_limit }
    {
        &self.bytes
    }

    /// Whether two names are the same.
    pub fn same(&self, other: &Name) -> bool
        ensures { result ≡ bytes_eq self.now other.now }
    {
        self.bytes() == other.bytes()
    }
}
