//! Each change that a service makes keeps a kernel sound, and serving: each function's contract is a
//! law.
//!
//! Their bodies do nothing; a function calls one where its proof needs the law.
ghost use Rattle.thread_calls.specs.Laws.{ThresholdKeepsSound, PriorityKeepsSound, SliceKeepsSound, YieldKeepsSound, AllocateKeepsSound, DeallocateKeepsSound, GrantKeepsSound};
ghost use Rattle.thread_calls.specs.Laws.{AllocateKeepsServing, DeallocateKeepsServing, GrantKeepsServing, SlotKeepsServing, ThreadPlacedKeepsServing, ThreadRemovedKeepsServing};
ghost use Rattle.thread_calls.specs.Services.{EachRowIsOne};

use kernel_state::laws::{
    a_change_calls_waits, a_change_raises_counts_by_one, a_kernel_stays_sound,
    a_move_leaves_others_alone, a_promised_result_may_be_stored, a_row_is_made_of_parts,
    an_effective_pair_fits, an_end_changes_its_thread_alone, who_runs_is_a_thread,
};

/// New numbers of a thread, and a yield.
pub fn a_change_of_numbers_keeps_sound()
    ensures threshold { ThresholdKeepsSound }
    ensures priority { PriorityKeepsSound }
    ensures slice { SliceKeepsSound }
    ensures yields { YieldKeepsSound }
{
    a_kernel_stays_sound();
    a_move_leaves_others_alone();
    an_effective_pair_fits();
    who_runs_is_a_thread();
}

/// Allocating, freeing and granting a slot.
pub fn a_change_of_slots_keeps_sound()
    ensures allocate { AllocateKeepsSound }
    ensures deallocate { DeallocateKeepsSound }
    ensures grant { GrantKeepsSound }
{
    a_kernel_stays_sound();
}

/// The same for a kernel that serves, and a thread that is made, or removed: memory stays as it is, and
/// each result may be stored where it was promised.
pub fn a_change_of_slots_keeps_serving()
    ensures allocate { AllocateKeepsServing }
    ensures deallocate { DeallocateKeepsServing }
    ensures grant { GrantKeepsServing }
    ensures placed { ThreadPlacedKeepsServing }
    ensures removed { ThreadRemovedKeepsServing }
    ensures changes { SlotKeepsServing }
{
    a_change_of_slots_keeps_sound();
    a_kernel_stays_sound();
    a_promised_result_may_be_stored();
    who_runs_is_a_thread();
}

/// What each service of this crate keeps where the kernel serves and its caller runs: that it
/// changes bytes in its ranges and in the results of the waits that it ends alone, refuses with no
/// change, leaves its caller's registers, changes slots by one call of their table at most and
/// waits by calls of theirs, and begins one wait and arms one timeout at most.
pub fn each_row_is_one()
    ensures { EachRowIsOne }
{
    a_row_is_made_of_parts();
    an_end_changes_its_thread_alone();
    a_change_calls_waits();
    a_change_raises_counts_by_one();
    who_runs_is_a_thread();
}
