//! What holds of every call of the running thread, whatever it asks for: each function's contract is a
//! law.
//!
//! Their bodies do nothing; a function calls one where its proof needs the law.
ghost use Rattle.call_dispatch.specs.Caller.{CallChangesA0Alone};
ghost use Rattle.call_dispatch.specs.Laws.{NumberNamesItsRow, RowHasItsNumber, CallIsKept, CallWritesResultsAlone, RefusalChangesNothing, RefusedCallChangesA0Alone, NoRowChangesA0Alone, CallChangesSlotsOnce, CallRaisesCountsByOne, CallCallsWaits};

use kernel_state::laws::a_row_is_made_of_parts;

/// Each service has one number, which is no other's.
pub fn a_service_has_one_number()
    ensures names { NumberNamesItsRow }
    ensures has { RowHasItsNumber }
{}

/// A call keeps what each row keeps, in whichever crate its row is.
fn a_call_is_kept()
    ensures { CallIsKept }
{
    a_row_is_made_of_parts();
    thread_calls::laws::each_row_is_one();
    object_calls::laws::each_row_is_one();
}

/// A call changes no byte of memory outside of the ranges that its row names for its result and of the
/// results of the waits that it ends as satisfied, and none of its own where the caller's module may
/// not store there.
pub fn a_call_writes_results_alone()
    ensures { CallWritesResultsAlone }
{
    a_call_is_kept();
}

/// A call that is refused changes the a0 of its caller and nothing else: where its status is neither
/// SUCCESS nor SUSPEND_LIFTED, and where its number has no row.
pub fn a_refused_call_changes_its_a0_alone()
    ensures row { RefusalChangesNothing }
    ensures refused { RefusedCallChangesA0Alone }
    ensures no_row { NoRowChangesA0Alone }
{
    a_call_is_kept();
}

/// A call changes no register of its caller but a0, whatever it asks for.
pub fn a_call_changes_its_a0_alone()
    ensures { CallChangesA0Alone }
{
    a_call_is_kept();
    a_row_is_made_of_parts();
}

/// A call changes object slots by one call of their table at most, which is made for the caller's
/// module, whatever it asks for.
pub fn a_call_changes_slots_once()
    ensures { CallChangesSlotsOnce }
{
    a_call_is_kept();
}

/// A call begins one wait at most and arms one timeout at most, and no tick comes with it.
pub fn a_call_raises_counts_by_one()
    ensures { CallRaisesCountsByOne }
{
    a_call_is_kept();
}

/// A call changes the waits by calls of their table alone, each of which may be made in its turn, and
/// ends those that it says; a wait as gone only with its thread.
pub fn a_call_calls_waits()
    ensures { CallCallsWaits }
{
    a_call_is_kept();
    a_row_is_made_of_parts();
}
