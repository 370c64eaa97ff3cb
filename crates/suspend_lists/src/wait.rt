//! One wait: where, for what, and what is answered when its time runs out.
//!
//! What is kept of a wait never changes while it lasts.
ghost use Rattle.std.specs.Prelude.{◌≡◌, ◌<◌, IfSome};
ghost use Rattle.suspend_lists.specs.Wait.{place, place_count};

use tx_types::{Code, Message, ModNo, ObjNo, Prio, WaitNo};

/// Where a thread waits.
#[derive(Clone, Copy, Debug)]
pub enum On {
    /// At a kernel object.
    Object(ObjNo),
    /// At the queue of a module's callbacks.
    Callbacks(ModNo),
    /// Nowhere: it sleeps.
    Sleep,
}

impl On {
    /// The number of the place, where there is one: first the objects, then the modules.
    pub(crate) fn place(self) -> Option<usize>
        ensures place { result ≡ place self }
        ensures below { IfSome result (λ p. p < place_count) }
    {
        match self {
            On::Object(o) => Some(o.place()),
            On::Callbacks(m) => Some(256 + usize::from(m.number())),
            On::Sleep => None,
        }
    }
}

/// What a waiting thread asked for. `to` is the address at which it wants the result.
#[derive(Clone, Debug, Drop)]
pub enum Asks {
    /// Time to pass.
    Sleep,
    /// A message of a queue.
    Receive { to: u32 },
    /// Room in a queue for a message, which goes first or last.
    Send { message: Message, front: bool },
    /// An instance of a semaphore.
    Instance,
    /// To own a mutex.
    Own,
    /// Event flags (ThreadX User Guide, `tx_event_flags_get`).
    Flags { want: u32, option: u32, to: u32 },
    /// Bytes of a byte pool.
    Bytes { size: u32, to: u32 },
    /// A block of a block pool.
    Block { to: u32 },
    /// A request for the module's callback thread.
    Callback { to: u32 },
}

/// A wait: where and for what, the status at a timeout, and the effective priority of the thread as
/// its wait began.
#[derive(Clone, Debug, Drop)]
pub struct Wait {
    pub on: On,
    pub asks: Asks,
    pub code: Code,
    pub asked: Prio,
}

/// A wait that has begun and not ended, with its number.
#[derive(Clone, Debug, Drop)]
pub struct Pending {
    pub wait: Wait,
    pub number: WaitNo,
}
