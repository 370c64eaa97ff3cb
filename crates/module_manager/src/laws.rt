//! What a halt and a start leave alone, for the layers above: each function's contract is a law.
//!
//! Their bodies do nothing; a function calls one where its proof needs the law.
ghost use Rattle.module_manager.specs.Laws.{BeginningKeepsMemory, ClearingKeepsServing, EndKeepsServing, HaltEndsCallback, HaltEndsGrants, HaltEndsSlots, HaltCallsWaits, HaltKeepsMemory, HaltKeepsServing, HaltRaisesNone, HaltSparesSlots, HaltSparesThreads, StartKeepsRegions, StartKeepsWaits, StartWritesItsData};

use kernel_state::laws::{
    a_change_calls_waits, a_change_of_state_keeps_serving, a_change_of_state_keeps_sound,
    a_change_raises_counts_by_one, a_kernel_stays_sound, a_removal_ends_waits_alone,
    a_removal_keeps_serving, an_end_changes_its_thread_alone,
};
use region_guard::{a_write_changes_its_bytes_alone, what_may_be_used_is_in_ram};
use thread_calls::laws::a_change_of_slots_keeps_serving;

/// A halt completes or terminates no thread of another module, and changes no byte; of each slot that
/// isn't its module's it takes the module's grant and nothing else.
pub fn a_halt_spares_other_modules()
    ensures threads { HaltSparesThreads }
    ensures slots { HaltSparesSlots }
    ensures memory { HaltKeepsMemory }
{
    a_kernel_stays_sound();
    a_change_of_state_keeps_sound();
    a_change_of_state_keeps_serving();
    an_end_changes_its_thread_alone();
    a_removal_keeps_serving();
    a_removal_ends_waits_alone();
    a_change_of_slots_keeps_serving();
}

/// After a halt its module owns no slot, is granted none, and has no callback thread, and the kernel
/// serves, as it does after each part of a halt.
pub fn a_halt_ends_its_module()
    ensures slots { HaltEndsSlots }
    ensures grants { HaltEndsGrants }
    ensures callback { HaltEndsCallback }
    ensures serves { HaltKeepsServing }
    ensures over { EndKeepsServing }
    ensures clearing { ClearingKeepsServing }
{
    a_kernel_stays_sound();
    a_change_of_state_keeps_sound();
    a_change_of_state_keeps_serving();
    an_end_changes_its_thread_alone();
    a_removal_keeps_serving();
    a_removal_ends_waits_alone();
    a_change_of_slots_keeps_serving();
}

/// A halt begins no wait and arms nothing. The waits of its module's threads end as gone, and those of
/// others for its objects as deleted, by calls of the table of waits alone.
pub fn a_halt_ends_waits()
    ensures counts { HaltRaisesNone }
    ensures waits { HaltCallsWaits }
{
    a_change_calls_waits();
    a_change_raises_counts_by_one();
    a_kernel_stays_sound();
    a_change_of_state_keeps_sound();
    a_change_of_state_keeps_serving();
    an_end_changes_its_thread_alone();
    a_removal_keeps_serving();
    a_removal_ends_waits_alone();
}

/// A start begins and ends no wait, and arms and disarms nothing.
pub fn a_start_keeps_waits()
    ensures { StartKeepsWaits }
{}

/// A start changes no region, and no byte outside of its module's data region, which it zeroes; making
/// and starting the threads changes none.
pub fn a_start_writes_its_data_region_alone()
    ensures regions { StartKeepsRegions }
    ensures bytes { StartWritesItsData }
    ensures beginning { BeginningKeepsMemory }
{
    what_may_be_used_is_in_ram();
    a_write_changes_its_bytes_alone();
}
