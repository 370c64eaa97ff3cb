//! What holds of every log that is replayed: a function whose contract is the law.
//!
//! The body does nothing. The law is there to be read: no function calls it.
ghost use Rattle.std.specs.Prelude.{◌≡◌, ℕ, List, Option, Some, Ok};
ghost use Rattle.event_log.specs.Text.{text_of};
ghost use Rattle.board_run.specs.Replay.{Printed, session_at};

use event_log::each_history_has_one_text;

/// Where the log of a name is replayed as a history, the text of that history is the log, byte for
/// byte.
pub fn a_log_comes_back_byte_for_byte()
    ensures { (board log : List ℕ) (at : List ℕ → Option (List ℕ)) (s : Printed) →
        session_at board log at ≡ Ok s → at log ≡ Some (text_of s.history) }
{
    each_history_has_one_text();
}
