//! What holds of every event, whatever the board: each function's contract is a law.
//!
//! Their bodies do nothing; a function calls one where its proof needs the law.
ghost use Rattle.board_core.specs.Laws.{TraceLaw, TallyStays, GoneIsOver, TotalsAreOfEnded, BootBeginsNone, EventRaisesCounts, FrameLaw, RegionsStay, ImagesStay, OwnersStay, RunnerIsStarted, FaultIsKept, CodeIsInNoFrame, DataIsItsModules, FaultSparesOthers, FaultKeepsBytes};

use call_dispatch::laws::{
    a_call_calls_waits, a_call_changes_slots_once, a_call_raises_counts_by_one,
    a_call_writes_results_alone,
};
use flat_ram::{a_number_lies_lowest_byte_first, a_write_changes_its_range_alone};
use kernel_state::laws::{
    a_change_calls_waits, a_change_raises_counts_by_one, a_kernel_stays_sound,
    a_removal_ends_waits_alone, who_runs_is_a_thread,
};
use module_manager::laws::{
    a_halt_ends_its_module, a_halt_ends_waits, a_halt_spares_other_modules, a_start_keeps_waits,
};
use region_guard::{a_write_changes_its_bytes_alone, what_may_be_used_is_in_ram};
use suspend_lists::{
    begun_is_pending_and_ended, calls_keep_the_table, no_number_is_given_twice,
    totals_count_the_ends,
};

/// A run reaches what its events make of the booted board, one after another; and a report counts the
/// waits that ended.
pub fn a_run_is_its_events()
    ensures now { TraceLaw }
    ensures totals { TotalsAreOfEnded }
{}

/// No event loses a wait or ends one twice, and only the wait of a thread that ends in it ends as
/// gone. A booted board has no wait yet, and an event begins one at most, arms one timeout at most and
/// is one tick at most.
pub fn no_wait_is_lost()
    ensures booted { BootBeginsNone }
    ensures tally { TallyStays }
    ensures gone { GoneIsOver }
    ensures counts { EventRaisesCounts }
{
    who_runs_is_a_thread();
    a_kernel_stays_sound();
    a_call_calls_waits();
    a_call_raises_counts_by_one();
    a_halt_ends_waits();
    a_start_keeps_waits();
    a_change_calls_waits();
    a_change_raises_counts_by_one();
    calls_keep_the_table();
    no_number_is_given_twice();
    totals_count_the_ends();
    begun_is_pending_and_ended();
}

/// An event changes no byte outside of its frame: its own ranges, and the results of the waits that it
/// ends as satisfied.
pub fn a_frame_bounds_an_event()
    ensures frame { FrameLaw }
{
    who_runs_is_a_thread();
    a_kernel_stays_sound();
    a_write_changes_its_range_alone();
    a_number_lies_lowest_byte_first();
    a_write_changes_its_bytes_alone();
    what_may_be_used_is_in_ram();
    a_call_writes_results_alone();
    a_halt_spares_other_modules();
}

/// An event changes no region, nor where a module lies and of what it is made, nor its image.
pub fn an_event_keeps_regions_and_images()
    ensures regions { RegionsStay }
    ensures images { ImagesStay }
{
    who_runs_is_a_thread();
    a_kernel_stays_sound();
    a_write_changes_its_range_alone();
    a_number_lies_lowest_byte_first();
    a_write_changes_its_bytes_alone();
    what_may_be_used_is_in_ram();
    a_call_writes_results_alone();
    a_halt_spares_other_modules();
}

/// Used object slots stay with started modules. So the running thread's module is started, and a
/// fault of it is kept in that module's row.
pub fn slots_are_of_started_modules()
    ensures owners { OwnersStay }
    ensures runner { RunnerIsStarted }
    ensures fault { FaultIsKept }
{
    who_runs_is_a_thread();
    a_kernel_stays_sound();
    a_call_changes_slots_once();
    a_removal_ends_waits_alone();
    a_halt_ends_its_module();
}

/// No event writes code, and a byte of a module's data changes only by a store or a call of that
/// module, or as the result of a call of it that waited and is satisfied. A fault ends no thread of
/// another module, and changes no byte.
pub fn a_module_is_spared()
    ensures code { CodeIsInNoFrame }
    ensures data { DataIsItsModules }
    ensures fault { FaultSparesOthers }
    ensures bytes { FaultKeepsBytes }
{
    who_runs_is_a_thread();
    a_kernel_stays_sound();
    a_write_changes_its_range_alone();
    a_number_lies_lowest_byte_first();
    a_write_changes_its_bytes_alone();
    what_may_be_used_is_in_ram();
    a_call_writes_results_alone();
    a_halt_spares_other_modules();
}
