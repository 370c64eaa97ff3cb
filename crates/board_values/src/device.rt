//! The number of a device, as a type that holds its range.
//!
//! It is below 16, so no user of it needs to check that. Whether a board has such a device isn't
//! known here.
use std::marker::Model;

/// The number of a device, 0 to 15.
#[derive(Clone, Copy, Debug, PartialEq, Eq)]
pub struct DevNo(u8);

impl Model for DevNo {
    ghost use Rattle.std.specs.Prelude.{ℕ, ◌<◌};
    ghost use Rattle.tx_types.specs.Limits.{device_limit};

    ghost Value = { ℕ };

    ghost view = { λ d. d.0 };

    ghost invariant = { λ d. d.0 < device_limit };

    ghost inverse = { λ n. record { 0 = n } };
}

impl DevNo {
    ghost use Rattle.std.specs.Prelude.{◌≡◌, ◌<◌};
    ghost use Rattle.tx_types.specs.Limits.{device_limit};

    /// The device of a number.
    #[inline]
    pub fn new(number: u8) -> DevNo
        requires { number < device_limit }
        ensures { result ≡ number }
    {
        DevNo(number)
    }

    /// Its number.
    #[inline]
    pub fn number(self) -> u8
        ensures same { result ≡ self }
        ensures below_16 { result < device_limit }
    {
        self.0
    }
}
