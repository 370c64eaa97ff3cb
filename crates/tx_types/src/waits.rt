//! What is known of waits everywhere: their numbers, how they end, and how many there were.
//!
//! These are plain values. Who waits, where and for what is kept in `suspend_lists`, and nothing is
//! counted here.
use std::marker::Model;

/// The number of a wait, counted from 0 in the order in which waits began.
#[derive(Clone, Copy, Debug, PartialEq, Eq)]
pub struct WaitNo(u64);

impl Model for WaitNo {
    ghost use Rattle.std.specs.Prelude.{ℕ, ◌<◌, ◌^◌};

    ghost Value = { ℕ };

    ghost view = { λ n. n.0 };

    ghost invariant = { λ n. n.0 < 2 ^ 64 };

    ghost inverse = { λ n. record { 0 = n } };
}

impl WaitNo {
    ghost use Rattle.std.specs.Prelude.{◌≡◌, ◌<◌, ◌^◌};

    /// The wait of a number.
    #[inline]
    pub fn new(number: u64) -> WaitNo
        ensures { result ≡ number }
    {
        WaitNo(number)
    }

    /// Its number.
    #[inline]
    pub fn number(self) -> u64
        ensures { result ≡ self }
    {
        self.0
    }
}

/// How a wait ends.
#[derive(Clone, Copy, Debug, PartialEq, Eq)]
pub enum End {
    /// What was waited for came.
    Satisfied,
    /// Its time ran out first.
    TimedOut,
    /// Another thread ended it (ThreadX User Guide, `tx_thread_wait_abort`).
    Aborted,
    /// The object that it waited for was removed.
    Deleted,
    /// The thread that waited was terminated.
    Gone,
}

/// How many waits began, and how many ended in each way.
#[derive(Clone, Copy, Debug, PartialEq, Eq)]
pub struct Totals {
    pub begun: u64,
    pub satisfied: u64,
    pub timed_out: u64,
    pub aborted: u64,
    pub deleted: u64,
    pub gone: u64,
}

impl Totals {
    /// No wait began.
    pub const NONE: Totals = Totals {
        begun: 0,
        satisfied: 0,
        timed_out: 0,
        aborted: 0,
        deleted: 0,
        gone: 0,
    };
}
