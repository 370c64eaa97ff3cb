//! The kinds of kernel objects.
//!
//! A kind has a number, 1 to 8, and no other number is a kind. What can be done with an object of a
//! kind isn't said here.
ghost use Rattle.std.specs.Prelude.{◌≡◌};
ghost use Rattle.tx_types.specs.Kind.{kind_number, kind_of};

/// What a kernel object is.
#[derive(Clone, Copy, Debug, PartialEq, Eq)]
pub enum Kind {
    Thread,
    Queue,
    Semaphore,
    Mutex,
    Events,
    BytePool,
    BlockPool,
    Timer,
}

impl Kind {
    /// Its number, 1 to 8.
    pub fn number(self) -> u32
        ensures { result ≡ kind_number self }
    {
        match self {
            Kind::Thread => 1,
            Kind::Queue => 2,
            Kind::Semaphore => 3,
            Kind::Mutex => 4,
            Kind::Events => 5,
            Kind::BytePool => 6,
            Kind::BlockPool => 7,
            Kind::Timer => 8,
        }
    }

    /// The kind of a number, where it is 1 to 8.
    pub fn of(number: u32) -> Option<Kind>
        ensures { result ≡ kind_of number }
    {
        match number {
            1 => Some(Kind::Thread),
            2 => Some(Kind::Queue),
            3 => Some(Kind::Semaphore),
            4 => Some(Kind::Mutex),
            5 => Some(Kind::Events),
            6 => Some(Kind::BytePool),
            7 => Some(Kind::BlockPool),
            8 => Some(Kind::Timer),
            _ => None,
        }
    }
}
