//! What holds of every wheel, for the layers above: each function's contract is a law.
//!
//! Their bodies do nothing; a function calls one where its proof needs the law.
ghost use Rattle.soft_timers.specs.Laws.{CallsKeepTheWheel, TicksKeepTheWheel, CallsSpareOthers, ArmedIsThere, DisarmedIsNone, CallsKeepRunning, DueAreInOrder, DueAreArmed, DisarmedIsOver, OverStaysOver, TicksLeaveTheDue, CallsAddNone, TurnsTakeOne, NoneIsRunning, RunsAfterTheTurns};
ghost use Rattle.soft_timers.specs.Timers.{IsWheel, no_timers};

/// Each call keeps what holds of every wheel.
pub fn calls_keep_the_wheel()
    ensures new { IsWheel no_timers }
    ensures calls { CallsKeepTheWheel }
    ensures ticks { TicksKeepTheWheel }
{}

/// A call changes what is armed under its own number alone: that is armed then, or isn't.
pub fn a_call_changes_its_own_alone()
    ensures others { CallsSpareOthers }
    ensures armed { ArmedIsThere }
    ensures disarmed { DisarmedIsNone }
{}

/// What is due is in order of arming. What was disarmed is not the same any more, even where it is
/// armed again at the same tick.
pub fn an_arming_is_over_once()
    ensures in_order { DueAreInOrder }
    ensures armed { DueAreArmed }
    ensures disarmed { DisarmedIsOver }
    ensures stays_over { OverStaysOver }
{}

/// After a tick whose due entries had their turn, each that is armed has at least one tick left.
pub fn each_has_a_tick_left()
    ensures tick { TicksLeaveTheDue }
    ensures keeps { CallsKeepRunning }
    ensures calls { CallsAddNone }
    ensures turn { TurnsTakeOne }
    ensures none { NoneIsRunning }
    ensures after_the_turns { RunsAfterTheTurns }
{}
