//! Threads: their registers, what the user asked for, and what is left of a time slice.
//!
//! The priority and the threshold in effect are the scheduler's, and aren't kept here. A thread is
//! made suspended; no function here starts or changes one.
use rv_core::Hart;
use tx_types::{ModNo, Prio, State, Thresh};

/// A thread (ThreadX User Guide, "Thread Control"). `priority` and `threshold` are the user's;
/// `left` is the rest of the time slice `slice`, in ticks; `held` says that a suspension waits for
/// the end of a wait; `fresh`, that the thread was never started since it was created or reset.
#[derive(Clone, Copy, Debug)]
pub struct Thread {
    pub module: ModNo,
    pub state: State,
    pub hart: Hart,
    pub opening: Hart,
    pub priority: Prio,
    pub threshold: Thresh,
    pub slice: u32,
    pub left: u32,
    pub held: bool,
    pub fresh: bool,
}

/// What a thread is made of: its opening registers and its numbers.
#[derive(Clone, Copy, Debug)]
pub struct ThreadSpec {
    pub module: ModNo,
    pub hart: Hart,
    pub priority: Prio,
    pub threshold: Thresh,
    pub slice: u32,
}

impl ThreadSpec {
    ghost use Rattle.std.specs.Prelude.{◌≡◌};
    ghost use Rattle.kernel_state.specs.Thread.{new_thread};

    /// The thread that is made of it: suspended, and never started yet.
    pub fn thread(&self) -> Thread
        ensures { result ≡ new_thread self.now }
    {
        Thread {
            module: self.module,
            state: State::Suspended,
            hart: self.hart,
            opening: self.hart,
            priority: self.priority,
            threshold: self.threshold,
            slice: self.slice,
            left: self.slice,
            held: false,
            fresh: true,
        }
    }
}

impl Thread {
    ghost use Rattle.std.specs.Prelude.{◌≡◌};
    ghost use Rattle.kernel_state.specs.Thread.{blank_thread};

    /// An entry in which no thread was made yet.
    pub fn blank() -> Thread
        ensures { result ≡ blank_thread }
    {
        let hart = Hart { pc: 0, x: [0; 32] };
        Thread {
            module: ModNo::new(0),
            state: State::Completed,
            hart,
            opening: hart,
            priority: Prio::new(0),
            threshold: Thresh::new(0),
            slice: 0,
            left: 0,
            held: false,
            fresh: false,
        }
    }
}
