//! Status codes.
//!
//! Each number below 256 is a code, whether it has a name here or not. Which service answers which
//! code isn't said here.
use std::marker::Model;

/// The status that a service answers, by the numbers of the ThreadX API (`tx_api.h`).
#[derive(Clone, Copy, Debug, PartialEq, Eq)]
pub struct Code(u8);

impl Model for Code {
    ghost use Rattle.std.specs.Prelude.{ℕ, ◌<◌};

    ghost Value = { ℕ };

    ghost view = { λ c. c.0 };

    ghost invariant = { λ c. c.0 < 256 };

    ghost inverse = { λ n. record { 0 = n } };
}

impl Code {
    ghost use Rattle.std.specs.Prelude.{◌≡◌};

    /// The call did what it was asked for.
    pub const SUCCESS: Code = Code(0x00);

    /// The object that the thread waited for was removed.
    pub const DELETED: Code = Code(0x01);

    /// The reference names no pool that the module may use.
    pub const POOL_ERROR: Code = Code(0x02);

    /// A pointer is 0 or isn't aligned, or a name has no end.
    pub const PTR_ERROR: Code = Code(0x03);

    /// A size is out of range.
    pub const SIZE_ERROR: Code = Code(0x05);

    /// The reference names no event flags that the module may use.
    pub const GROUP_ERROR: Code = Code(0x06);

    /// The wanted event flags aren't set.
    pub const NO_EVENTS: Code = Code(0x07);

    /// There is no such kind or option.
    pub const OPTION_ERROR: Code = Code(0x08);

    /// The reference names no queue that the module may use.
    pub const QUEUE_ERROR: Code = Code(0x09);

    /// The queue is empty.
    pub const QUEUE_EMPTY: Code = Code(0x0A);

    /// The queue is full.
    pub const QUEUE_FULL: Code = Code(0x0B);

    /// The reference names no semaphore that the module may use.
    pub const SEMAPHORE_ERROR: Code = Code(0x0C);

    /// There is no such object, or a semaphore has no instance.
    pub const NO_INSTANCE: Code = Code(0x0D);

    /// The reference names no thread that the module may use.
    pub const THREAD_ERROR: Code = Code(0x0E);

    /// A priority is out of range.
    pub const PRIORITY_ERROR: Code = Code(0x0F);

    /// No object slot is usable.
    pub const NO_MEMORY: Code = Code(0x10);

    /// An automatic start is neither 0 nor 1, or the module isn't in a state for the call. It has the
    /// number of `NO_MEMORY`.
    pub const START_ERROR: Code = Code(0x10);

    /// The thread is neither completed nor terminated.
    pub const DELETE_ERROR: Code = Code(0x11);

    /// The thread isn't suspended.
    pub const RESUME_ERROR: Code = Code(0x12);

    /// The module may not make this call.
    pub const CALLER_ERROR: Code = Code(0x13);

    /// The thread is completed or terminated.
    pub const SUSPEND_ERROR: Code = Code(0x14);

    /// The reference names no timer that the module may use.
    pub const TIMER_ERROR: Code = Code(0x15);

    /// A number of ticks is out of range.
    pub const TICK_ERROR: Code = Code(0x16);

    /// The timer is active already, or its automatic activation is neither 0 nor 1.
    pub const ACTIVATE_ERROR: Code = Code(0x17);

    /// A threshold is out of range.
    pub const THRESH_ERROR: Code = Code(0x18);

    /// A suspension that was held is lifted.
    pub const SUSPEND_LIFTED: Code = Code(0x19);

    /// The wait was given up by `thread_wait_abort`.
    pub const WAIT_ABORTED: Code = Code(0x1A);

    /// The thread doesn't wait.
    pub const WAIT_ABORT_ERROR: Code = Code(0x1B);

    /// The reference names no mutex that the module may use.
    pub const MUTEX_ERROR: Code = Code(0x1C);

    /// The mutex is owned by another thread.
    pub const NOT_AVAILABLE: Code = Code(0x1D);

    /// The mutex isn't owned by the caller.
    pub const NOT_OWNED: Code = Code(0x1E);

    /// The choice of priority inheritance is neither 0 nor 1.
    pub const INHERIT_ERROR: Code = Code(0x1F);

    /// The thread is neither completed nor terminated.
    pub const NOT_DONE: Code = Code(0x20);

    /// The semaphore's count isn't below the ceiling.
    pub const CEILING_EXCEEDED: Code = Code(0x21);

    /// A ceiling of 0.
    pub const INVALID_CEILING: Code = Code(0x22);

    /// A range isn't one that the caller's module may use so.
    pub const INVALID_MEMORY: Code = Code(0xF4);

    /// The number has no service.
    pub const FEATURE_NOT_ENABLED: Code = Code(0xFF);

    /// The status of a number.
    pub fn new(number: u8) -> Code
        ensures { result ≡ number }
    {
        Code(number)
    }

    /// Its number.
    pub fn number(self) -> u8
        ensures { result ≡ self }
    {
        self.0
    }
}
