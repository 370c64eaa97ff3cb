//! What the states of a thread have in common.
//!
//! A state is only looked at: which changes of state may be made is left to the services.
ghost use Rattle.std.specs.Prelude.{◌≡◌};
ghost use Rattle.kernel_state.specs.Thread.{is_over, is_waiting};

use tx_types::State;

/// Whether a thread in this state runs no more: it is completed or terminated.
pub fn is_over(state: State) -> bool
    ensures { result ≡ is_over state }
{
    matches!(state, State::Completed | State::Terminated)
}

/// Whether a thread in this state waits for something.
pub fn is_waiting(state: State) -> bool
    ensures { result ≡ is_waiting state }
{
    !matches!(
        state,
        State::Ready | State::Completed | State::Terminated | State::Suspended
    )
}
