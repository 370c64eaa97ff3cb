//! The numbers of timeouts and timers.
//!
//! First come the threads, then the timer objects; each number is below 512.
use std::marker::Model;
use tx_types::{ObjNo, ThreadNo};

/// The number of a timeout or timer, 0 to 511.
#[derive(Clone, Copy, Debug, PartialEq, Eq)]
pub struct TimerId(u16);

impl Model for TimerId {
    ghost use Rattle.std.specs.Prelude.{ℕ, ◌<◌};
    ghost use Rattle.tx_types.specs.Limits.{timer_limit};

    ghost Value = { ℕ };

    ghost view = { λ i. i.0 };

    ghost invariant = { λ i. i.0 < timer_limit };

    ghost inverse = { λ n. record { 0 = n } };
}

/// Whose time runs.
#[derive(Clone, Copy, Debug)]
pub enum Whose {
    /// The wait of a thread.
    Timeout(ThreadNo),
    /// A timer object.
    Timer(ObjNo),
}

impl TimerId {
    ghost use Rattle.std.specs.Prelude.{◌≡◌, ◌<◌};
    ghost use Rattle.tx_types.specs.Limits.{timer_limit};
    ghost use Rattle.soft_timers.specs.Id.{id_of};

    /// The number of a thread's timeout or of a timer object.
    pub fn of(whose: Whose) -> TimerId
        ensures { result ≡ id_of whose }
    {
        match whose {
            Whose::Timeout(t) => TimerId(t.number()),
            Whose::Timer(o) => TimerId(256 + o.number()),
        }
    }

    /// Whose number it is.
    pub fn whose(self) -> Whose
        ensures { id_of result ≡ self }
    {
        if self.0 < 256 {
            Whose::Timeout(ThreadNo::new(self.0))
        } else {
            Whose::Timer(ObjNo::new(self.0 - 256))
        }
    }

    /// The number.
    #[inline]
    pub fn number(self) -> u16
        ensures same { result ≡ self }
        ensures below_512 { result < timer_limit }
    {
        self.0
    }
}
