//! What the text of a run says by itself: each function's contract is a law.
//!
//! Their bodies do nothing. The laws are there to be read: no function calls them.
ghost use Rattle.std.specs.Prelude.{◌≡◌, ℕ, List, Option, Some, Ok, length};
ghost use Rattle.board_core.specs.Run.{Origin};
ghost use Rattle.board_file.specs.Rules.{IsBoard};
ghost use Rattle.board_run.specs.Booting.{booted_at};
ghost use Rattle.board_run.specs.Command.{Replay};
ghost use Rattle.board_run.specs.Due.{row_text};
ghost use Rattle.board_live.specs.Finish.{IsRun, run_text};
ghost use Rattle.event_log.specs.Logged.{logged};
ghost use Rattle.event_log.specs.Text.{text_of};
ghost use Rattle.event_log.specs.declared.entry.Entry.{Entry};

use event_log::{a_log_is_read_out_of_a_run, each_history_has_one_text};

/// The text of a whole run says which history it is of: the one that the lines before its first line
/// `report` are the log of.
pub fn a_run_is_read_out_of_its_text()
    ensures { (o : Origin) (h : List Entry) → IsBoard o.board → IsRun o h
        → logged (length o.board.devices) (run_text o h) ≡ h }
{
    a_log_is_read_out_of_a_run();
}

/// The log of a whole run, held under a name, replays on the same board to the text of that run: what
/// is due for `replay` is that text.
pub fn a_run_is_replayed_from_its_log()
    ensures { (board log : List ℕ) (at : List ℕ → Option (List ℕ)) (o : Origin) (h : List Entry)
        → booted_at board at ≡ Ok o → IsBoard o.board → IsRun o h → at log ≡ Some (text_of h)
        → row_text (Replay board log) at ≡ Ok (run_text o h) }
{
    each_history_has_one_text();
}
