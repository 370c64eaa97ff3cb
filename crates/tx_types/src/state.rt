//! The states of a thread.
//!
//! Each state has the number of the ThreadX API, and no number is read as a state. Which changes of
//! state may be made isn't said here.
ghost use Rattle.std.specs.Prelude.{◌≡◌};
ghost use Rattle.tx_types.specs.State.{state_number};

/// The state of a thread, by the names of the ThreadX User Guide ("tx_thread_info_get"). A wait for
/// a callback is `QueueSusp`.
#[derive(Clone, Copy, Debug, PartialEq, Eq)]
pub enum State {
    Ready,
    Completed,
    Terminated,
    Suspended,
    Sleep,
    QueueSusp,
    SemaphoreSusp,
    EventFlag,
    BlockMemory,
    ByteMemory,
    MutexSusp,
}

impl State {
    /// Its number.
    pub fn number(self) -> u32
        ensures { result ≡ state_number self }
    {
        match self {
            State::Ready => 0,
            State::Completed => 1,
            State::Terminated => 2,
            State::Suspended => 3,
            State::Sleep => 4,
            State::QueueSusp => 5,
            State::SemaphoreSusp => 6,
            State::EventFlag => 7,
            State::BlockMemory => 8,
            State::ByteMemory => 9,
            State::MutexSusp => 13,
        }
    }
}
