//! Numbers of the board's parts, as types that hold their range.
//!
//! A number is never out of its range. Whether a board has such a module, object or thread isn't
//! known here.
use std::marker::Model;

/// The number of a module, 0 to 15.
#[derive(Clone, Copy, Debug, PartialEq, Eq)]
pub struct ModNo(u8);

impl Model for ModNo {
    ghost use Rattle.std.specs.Prelude.{ℕ, ◌<◌};
    ghost use Rattle.tx_types.specs.Limits.{module_limit};

    ghost Value = { ℕ };

    ghost view = { λ m. m.0 };

    ghost invariant = { λ m. m.0 < module_limit };

    ghost inverse = { λ n. record { 0 = n } };
}

impl ModNo {
    ghost use Rattle.std.specs.Prelude.{◌≡◌, ◌<◌};
    ghost use Rattle.tx_types.specs.Limits.{module_limit};

    /// The module of a number.
    pub fn new(number: u8) -> ModNo
        requires { number < module_limit }
        ensures { result ≡ number }
    {
        ModNo(number)
    }

    /// Its number.
    #[inline]
    pub fn number(self) -> u8
        ensures same { result ≡ self }
        ensures below_16 { result < module_limit }
    {
        self.0
    }
}

/// The number of a kernel object, which is that of its slot, 0 to 255.
#[derive(Clone, Copy, Debug, PartialEq, Eq)]
pub struct ObjNo(u16);

/// The number of a thread, which is its object's number.
pub type ThreadNo = ObjNo;

impl Model for ObjNo {
    ghost use Rattle.std.specs.Prelude.{ℕ, ◌<◌};
    ghost use Rattle.tx_types.specs.Limits.{slot_limit};

    ghost Value = { ℕ };

    ghost view = { λ o. o.0 };

    ghost invariant = { λ o. o.0 < slot_limit };

    ghost inverse = { λ n. record { 0 = n } };
}

impl ObjNo {
    ghost use Rattle.std.specs.Prelude.{◌≡◌, ◌<◌};
    ghost use Rattle.tx_types.specs.Limits.{slot_limit};

    /// The object of a number.
    #[inline]
    pub fn new(number: u16) -> ObjNo
        requires { number < slot_limit }
        ensures { result ≡ number }
    {
        ObjNo(number)
    }

    /// Its number.
    #[inline]
    pub fn number(self) -> u16
        ensures same { result ≡ self }
        ensures below_256 { result < slot_limit }
    {
        self.0
    }

    /// Its place in a table of 256 entries.
    #[inline]
    pub fn place(self) -> usize
        ensures same { result ≡ self }
        ensures below_256 { result < slot_limit }
    {
        self.0 as usize
    }
}

/// The priority of a thread, below 1,024; 0 is the most urgent (ThreadX User Guide, "Thread
/// Priorities").
#[derive(Clone, Copy, Debug, PartialEq, Eq)]
pub struct Prio(u16);

impl Model for Prio {
    ghost use Rattle.std.specs.Prelude.{ℕ, ◌<◌};
    ghost use Rattle.tx_types.specs.Limits.{priority_limit};

    ghost Value = { ℕ };

    ghost view = { λ p. p.0 };

    ghost invariant = { λ p. p.0 < priority_limit };

    ghost inverse = { λ n. record { 0 = n } };
}

impl Prio {
    ghost use Rattle.std.specs.Prelude.{◌≡◌, ◌<◌};
    ghost use Rattle.tx_types.specs.Limits.{priority_limit};

    /// The priority of a number.
    #[inline]
    pub fn new(number: u16) -> Prio
        requires { number < priority_limit }
        ensures { result ≡ number }
    {
        Prio(number)
    }

    /// Its number.
    #[inline]
    pub fn number(self) -> u16
        ensures same { result ≡ self }
        ensures below_1024 { result < priority_limit }
    {
        self.0
    }
}

/// The preemption-threshold of a thread, below 1,024: only threads of a lower priority number may
/// preempt it (ThreadX User Guide, "Preemption-Threshold").
#[derive(Clone, Copy, Debug, PartialEq, Eq)]
pub struct Thresh(u16);

impl Model for Thresh {
    ghost use Rattle.std.specs.Prelude.{ℕ, ◌<◌};
    ghost use Rattle.tx_types.specs.Limits.{priority_limit};

    ghost Value = { ℕ };

    ghost view = { λ p. p.0 };

    ghost invariant = { λ p. p.0 < priority_limit };

    ghost inverse = { λ n. record { 0 = n } };
}

impl Thresh {
    ghost use Rattle.std.specs.Prelude.{◌≡◌, ◌<◌};
    ghost use Rattle.tx_types.specs.Limits.{priority_limit};

    /// The threshold of a number.
    #[inline]
    pub fn new(number: u16) -> Thresh
        requires { number < priority_limit }
        ensures { result ≡ number }
    {
        Thresh(number)
    }

    /// Its number.
    #[inline]
    pub fn number(self) -> u16
        ensures same { result ≡ self }
        ensures below_1024 { result < priority_limit }
    {
        self.0
    }
}
