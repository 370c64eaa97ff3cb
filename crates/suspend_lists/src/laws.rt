//! What holds of every table of waits, for the layers above: each function's contract is a law.
//!
//! Their bodies do nothing; a function calls one where its proof needs the law.
ghost use Rattle.suspend_lists.specs.Laws.{CallsKeepTheTable, TotalsKeepTheTable, RestoresKeepTheTable, AtOnePlace, OnceThere, ElseNowhere, IsWhole, CallsKeepItWhole, CallsAccount, HistoriesAccount, NextNumberIsNew, CallsCount, HistoriesCount, RestIsLeft, OthersStay, NewWaiterIsLast, PutFirstIsFirst, StandsWhereItWaits, WaitsStay};
ghost use Rattle.suspend_lists.specs.Waits.{IsTable, new_table};

/// Each call keeps what holds of every table.
pub fn calls_keep_the_table()
    ensures new { IsTable new_table }
    ensures calls { CallsKeepTheTable }
    ensures totals { TotalsKeepTheTable }
    ensures restores { RestoresKeepTheTable }
{}

/// A thread waits at most once.
pub fn each_thread_waits_once()
    ensures at_one_place { AtOnePlace }
    ensures once_there { OnceThere }
    ensures else_nowhere { ElseNowhere }
{}

/// How many waits began is how many are pending and how many ended in each way.
pub fn begun_is_pending_and_ended()
    ensures new { IsWhole new_table }
    ensures calls { CallsKeepItWhole }
{}

/// Each total is the number of waits that ended so.
pub fn totals_count_the_ends()
    ensures calls { CallsCount }
    ensures histories { HistoriesCount }
{}

/// A number is given to one wait alone, which is pending until it ends once.
pub fn no_number_is_given_twice()
    ensures calls { CallsAccount }
    ensures histories { HistoriesAccount }
    ensures next { NextNumberIsNew }
{}

/// What each call leaves of the threads that wait at a place, and of the waits.
pub fn who_waits_at_a_place()
    ensures next { RestIsLeft }
    ensures others { OthersStay }
    ensures joins { NewWaiterIsLast }
    ensures first { PutFirstIsFirst }
    ensures each { StandsWhereItWaits }
    ensures stays { WaitsStay }
{}
