//! What holds of every board, whatever its images: a function whose contract is the law.
//!
//! The body does nothing. The law is there to be read: no function calls it.
ghost use Rattle.board_run.specs.Laws.{StopsAlike, LiesAlike};

/// `check` stops exactly where the boot of the same board does, for the same cause, and else gives
/// the places where the boot puts its modules.
pub fn a_board_is_checked_as_it_boots()
    ensures stops { StopsAlike }
    ensures lies { LiesAlike }
{}
