//! What holds of every row of this crate: the function's contract is a law.
//!
//! Its body does nothing; a function calls it where its proof needs the law.
ghost use Rattle.object_calls.specs.Services.{EachRowIsOne};

use call_arguments::words_are_as_many;
use kernel_state::laws::{
    a_change_calls_waits, a_change_raises_counts_by_one, a_removal_ends_waits_alone,
    a_row_is_made_of_parts, all_ends_end_waits_alone, an_order_changes_waits_alone,
    what_is_in_an_object_changes, who_runs_is_a_thread,
};

/// What each service of this crate keeps: that it changes bytes in its ranges and in the results of
/// the waits that it ends alone, refuses with no change, leaves its caller's registers, changes slots
/// by one call of their table at most and waits by calls of theirs, and begins one wait and arms one
/// timeout at most.
pub fn each_row_is_one()
    ensures { EachRowIsOne }
{
    a_row_is_made_of_parts();
    a_change_calls_waits();
    a_change_raises_counts_by_one();
    a_removal_ends_waits_alone();
    all_ends_end_waits_alone();
    an_order_changes_waits_alone();
    what_is_in_an_object_changes();
    who_runs_is_a_thread();
    words_are_as_many();
}
