//! How a kernel stays sound, for the services: each function's contract is a law.
//!
//! Their bodies do nothing; a function calls one where its proof needs the law.
ghost use Rattle.std.specs.Prelude.{ℕ, List};
ghost use Rattle.tx_types.specs.declared.kind.Kind.{Kind};
ghost use Rattle.kernel_state.specs.Scheduling.{ReadyChangesOne, UnreadyChangesOne, YieldChangesNone, ThresholdChangesOne, PriorityChangesOne};
ghost use Rattle.kernel_state.specs.ContentLaws.{WaiterIsOne, NoneWaitForRoom, NoneWaitForInstance, PutKeepsServing, PopKeepsServing, RefillKeepsServing, FlushKeepsServing, CountKeepsServing, QueueMadeKeepsServing, SemaphoreMadeKeepsServing, EmptiedKeepsServing, RemovedKeepsServing};
ghost use Rattle.kernel_state.specs.Laws.{EffectiveStays, EffectiveFits, SoundFrom, OneThreadChanges, OneStateChanges, OneWaitChanges, OneHartChanges, OneSlotChanges, OneSpotChanges, OneThreadIsMade, OneThreadIsRemoved, RunningIsReady, ReadyIsThread, ThreadIsRight, WaiterHasWait};
ghost use Rattle.kernel_state.specs.ObjectLaws.{AllEndedCallsWaits, AllEndedChangesThreads, AllEndedEndsThem, AllEndedKeepsMemory, AllEndedKeepsServing, AllEndedKeepsSound, AllEndedLeavesNone, AllEndedRaisesNone, AllEndedSparesThreads, EmptiedKeepsSound, PrioritizedCallsWaits, PrioritizedChangesOrder, PrioritizedIsKept, PrioritizedKeepsServing, PrioritizedRaisesNone, RemovedCallsWaits, RemovedChangesOne, RemovedEndsThem, RemovedIsKept, RemovedKeepsMemory, RemovedKeepsSound, RemovedRaisesNone, RemovedSparesThreads};
ghost use Rattle.kernel_state.specs.Results.{UnsatisfiedWriteNone};
ghost use Rattle.kernel_state.specs.Row.{AnsweredIsKept, BeginIsKept, ChangedIsKept, DoneIsKept, EitherIsKept, FoundIsKept, GivenIsKept, LeftKeepsTables, MoreIsKept, RunningCalls, UnlessIsKept, WaitEndIsKept, WrittenIsKept};
ghost use Rattle.kernel_state.specs.WaitLaws.{BeginCallsWaits, BeginKeepsServing, BeginKeepsSound, BeginRaisesOne, EndCallsWaits, EndChangesOne, EndKeepsMemory, EndOnlyEnds, EndRaisesNone, FollowedCallsWaits, LeftCallsWaits, PromiseIsKept, PromisesStay, TickCallsWaits, TickKeepsServing, TickRaisesOne, ToFrontKeepsServing, WaitEndCallsWaits, WaitEndKeepsServing, WaitEndKeepsSound, WaitEndRaisesNone};
ghost use Rattle.kernel_state.specs.ThreadLaws.{ReadyKeepsSound, UnreadyKeepsSound, HeldKeepsSound, FreshKeepsSound, EndKeepsSound, StartKeepsServing, SuspendKeepsServing, EndKeepsServing, ResetKeepsServing};

use flat_ram::a_write_changes_its_range_alone;
use msg_queues::{a_call_changes_its_queue_alone, what_a_call_leaves_of_its_queue};
use ready_maps::laws::{a_move_changes_its_thread_alone, moves_keep_the_facts};
use region_guard::{a_write_changes_its_bytes_alone, what_may_be_used_is_in_ram};
use soft_timers::{
    a_call_changes_its_own_alone, an_arming_is_over_once, calls_keep_the_wheel,
    each_has_a_tick_left,
};
use suspend_lists::{calls_keep_the_table, who_waits_at_a_place};
use sync_objects::{a_call_changes_its_count_alone, calls_keep_the_counts};

/// What each move of the scheduler leaves of its own thread and of the others.
pub fn a_move_leaves_others_alone()
    ensures ready { ReadyChangesOne }
    ensures unready { UnreadyChangesOne }
    ensures yields { YieldChangesNone }
    ensures threshold { ThresholdChangesOne }
    ensures priority { PriorityChangesOne }
{
    moves_keep_the_facts();
    a_move_changes_its_thread_alone();
}

/// The pair that a thread is to have in the scheduler: it stays where the user's numbers do, and the
/// scheduler takes it.
pub fn an_effective_pair_fits()
    ensures stays { EffectiveStays }
    ensures fits { EffectiveFits }
{}

/// A kernel is sound where another was, if each number looks the same or is right. So it stays sound
/// where one thread changes and agrees with the scheduler, where its wait begins or ends with that,
/// where a thread's registers change, where a slot changes that isn't made or unmade a thread, where a
/// module's spot changes, where a thread is made, and where one is removed.
pub fn a_kernel_stays_sound()
    ensures from { SoundFrom }
    ensures one_thread_changes { OneThreadChanges }
    ensures one_state_changes { OneStateChanges }
    ensures one_wait_changes { OneWaitChanges }
    ensures one_hart_changes { OneHartChanges }
    ensures one_slot_changes { OneSlotChanges }
    ensures one_spot_changes { OneSpotChanges }
    ensures one_thread_is_made { OneThreadIsMade }
    ensures one_thread_is_removed { OneThreadIsRemoved }
{
    a_move_leaves_others_alone();
}

/// Readying a thread and taking it from the ready ones, a suspension that is held, the mark of a
/// thread that was never started, and its end.
pub fn a_change_of_state_keeps_sound()
    ensures ready { ReadyKeepsSound }
    ensures unready { UnreadyKeepsSound }
    ensures held { HeldKeepsSound }
    ensures fresh { FreshKeepsSound }
    ensures ending { EndKeepsSound }
{
    a_call_changes_its_own_alone();
    calls_keep_the_table();
    calls_keep_the_wheel();
    each_has_a_tick_left();
    a_kernel_stays_sound();
    a_move_leaves_others_alone();
}

/// The beginning and the end of a wait.
pub fn a_wait_keeps_sound()
    ensures begins { BeginKeepsSound }
    ensures ends { WaitEndKeepsSound }
{
    each_has_a_tick_left();
    a_kernel_stays_sound();
    a_move_leaves_others_alone();
    a_call_changes_its_own_alone();
    calls_keep_the_table();
    calls_keep_the_wheel();
}

/// The beginning and the end of a wait, and a thread that goes first at its place.
pub fn a_wait_keeps_serving()
    ensures begins { BeginKeepsServing }
    ensures ends { WaitEndKeepsServing }
    ensures first { ToFrontKeepsServing }
{
    a_wait_keeps_sound();
    a_kernel_stays_sound();
    a_call_changes_its_own_alone();
    calls_keep_the_table();
    calls_keep_the_wheel();
    each_has_a_tick_left();
    who_waits_at_a_place();
}

/// A result may be stored where it was promised, and after each change that leaves the regions of
/// memory.
pub fn a_promised_result_may_be_stored()
    ensures kept { PromiseIsKept }
    ensures stays { PromisesStay }
{}

/// A tick.
pub fn a_tick_keeps_serving()
    ensures { TickKeepsServing }
{
    a_wait_keeps_sound();
    a_kernel_stays_sound();
    a_move_leaves_others_alone();
    a_call_changes_its_own_alone();
    calls_keep_the_table();
    calls_keep_the_wheel();
    an_arming_is_over_once();
    each_has_a_tick_left();
}

/// By how much waits, armings and ticks grow in number.
pub fn a_change_raises_counts_by_one()
    ensures begins { BeginRaisesOne }
    ensures wait_ends { WaitEndRaisesNone }
    ensures thread_ends { EndRaisesNone }
    ensures tick { TickRaisesOne }
{}

/// Waits change by calls of their table alone, where one begins or ends, where a thread ends, and at a
/// tick: by the calls the waits end that the change says, and as gone only with their threads. A change
/// that leaves the waits is of no call, and two changes are of the calls of both.
pub fn a_change_calls_waits()
    ensures begins { BeginCallsWaits }
    ensures wait_ends { WaitEndCallsWaits }
    ensures thread_ends { EndCallsWaits }
    ensures only_ends { EndOnlyEnds }
    ensures tick { TickCallsWaits }
    ensures left { LeftCallsWaits }
    ensures followed { FollowedCallsWaits }
{
    a_wait_keeps_sound();
    calls_keep_the_wheel();
}

/// The end of all waits for an object leaves nobody who waits for it.
pub fn all_ends_keep_serving()
    ensures serves { AllEndedKeepsServing }
    ensures sound { AllEndedKeepsSound }
    ensures none { AllEndedLeavesNone }
{
    a_wait_keeps_sound();
    a_wait_keeps_serving();
    who_waits_at_a_place();
}

/// The removal of an object, and an order of its waiters.
pub fn a_removal_keeps_serving()
    ensures removed { RemovedKeepsServing }
    ensures sound { RemovedKeepsSound }
    ensures prioritized { PrioritizedKeepsServing }
{
    all_ends_keep_serving();
    what_is_in_an_object_changes();
    a_wait_keeps_serving();
    who_waits_at_a_place();
}

/// What the end of all waits for an object leaves alone: memory where no wait has a result, each other
/// thread, and what is in the objects. The waits end by calls of their table, and so as it was said.
pub fn all_ends_end_waits_alone()
    ensures calls { AllEndedCallsWaits }
    ensures them { AllEndedEndsThem }
    ensures memory { AllEndedKeepsMemory }
    ensures kernel { AllEndedChangesThreads }
    ensures threads { AllEndedSparesThreads }
    ensures counts { AllEndedRaisesNone }
{
    a_wait_keeps_sound();
    a_change_calls_waits();
    a_change_raises_counts_by_one();
    who_waits_at_a_place();
}

/// What the removal of an object leaves alone, and what an order of its waiters does: each is as a row
/// may change the kernel.
pub fn a_removal_ends_waits_alone()
    ensures calls { RemovedCallsWaits }
    ensures them { RemovedEndsThem }
    ensures memory { RemovedKeepsMemory }
    ensures kernel { RemovedChangesOne }
    ensures threads { RemovedSparesThreads }
    ensures counts { RemovedRaisesNone }
    ensures kept { RemovedIsKept }
{
    all_ends_end_waits_alone();
    a_change_calls_waits();
    a_change_raises_counts_by_one();
    a_row_is_made_of_parts();
    who_waits_at_a_place();
}

/// What an order of the waiters of an object leaves alone: nothing but the order changes.
pub fn an_order_changes_waits_alone()
    ensures calls { PrioritizedCallsWaits }
    ensures order { PrioritizedChangesOrder }
    ensures counts { PrioritizedRaisesNone }
    ensures kept { PrioritizedIsKept }
{
    a_change_calls_waits();
    a_row_is_made_of_parts();
    who_waits_at_a_place();
}

/// What the end of a thread leaves alone, whether it waits or not.
pub fn an_end_changes_its_thread_alone()
    ensures memory { EndKeepsMemory }
    ensures kernel { EndChangesOne }
{}

/// Starting, suspending, ending and resetting a thread.
pub fn a_change_of_state_keeps_serving()
    ensures start { StartKeepsServing }
    ensures suspend { SuspendKeepsServing }
    ensures ending { EndKeepsServing }
    ensures reset { ResetKeepsServing }
{
    a_change_of_state_keeps_sound();
    a_call_changes_its_own_alone();
    calls_keep_the_table();
    calls_keep_the_wheel();
    each_has_a_tick_left();
    a_kernel_stays_sound();
    a_move_leaves_others_alone();
}

/// The running thread is ready, each ready number is a thread's, each thread has its facts, and one
/// that waits has a wait.
pub fn who_runs_is_a_thread()
    ensures running_is_ready { RunningIsReady }
    ensures ready_is_thread { ReadyIsThread }
    ensures thread_is_right { ThreadIsRight }
    ensures waiter_has_wait { WaiterHasWait }
{}

/// What each part of a row keeps: that bytes change in its ranges alone, that a refusal comes with no
/// change, that the caller has its registers afterwards, that slots change by one call of their table
/// at most, waits by calls of theirs, and counts by one at most.
pub fn a_row_is_made_of_parts()
    ensures calls { RunningCalls }
    ensures left { LeftKeepsTables }
    ensures answered { AnsweredIsKept }
    ensures changed { ChangedIsKept }
    ensures done { DoneIsKept }
    ensures written { WrittenIsKept }
    ensures unless { UnlessIsKept }
    ensures found { FoundIsKept ℕ }
    ensures found_kind { FoundIsKept Kind }
    ensures given_name { GivenIsKept (List ℕ) }
    ensures either { EitherIsKept }
    ensures begins { BeginIsKept }
    ensures wait_ends { WaitEndIsKept }
    ensures more { MoreIsKept }
    ensures unsatisfied { UnsatisfiedWriteNone }
{
    who_runs_is_a_thread();
    a_promised_result_may_be_stored();
    a_write_changes_its_range_alone();
    a_write_changes_its_bytes_alone();
    what_may_be_used_is_in_ram();
}

/// What is known of who waits for an object: whoever stands in its list is a thread that rests and asks
/// what the object can't give, so nobody waits where it can. And a kernel serves as what is in an object
/// changes: where a message is put, taken, replaced by the first sender's or flushed, where a semaphore
/// counts otherwise, and where an object is made, or ends.
pub fn what_is_in_an_object_changes()
    ensures waiter { WaiterIsOne }
    ensures none_for_room { NoneWaitForRoom }
    ensures none_for_instance { NoneWaitForInstance }
    ensures put { PutKeepsServing }
    ensures pop { PopKeepsServing }
    ensures refill { RefillKeepsServing }
    ensures flush { FlushKeepsServing }
    ensures count { CountKeepsServing }
    ensures queue_made { QueueMadeKeepsServing }
    ensures semaphore_made { SemaphoreMadeKeepsServing }
    ensures emptied { EmptiedKeepsServing }
    ensures emptied_sound { EmptiedKeepsSound }
{
    msg_queues::calls_keep_the_table();
    a_call_changes_its_queue_alone();
    what_a_call_leaves_of_its_queue();
    calls_keep_the_counts();
    a_call_changes_its_count_alone();
}
