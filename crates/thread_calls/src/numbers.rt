//! The services that read and change a thread's numbers (ThreadX User Guide, "Thread Services").
//!
//! A refused call changes nothing. What is written to a module's memory is the old number, or the
//! eight words of the thread, and only where the caller may store them.
ghost use Rattle.std.specs.Prelude.{◌≡◌, ◌≤◌, ◌<◌, Some, true};
ghost use Rattle.region_guard.specs.Memory.{may};
ghost use Rattle.kernel_state.specs.Kernel.{thread, is_thread, module_of};
ghost use Rattle.kernel_state.specs.Serves.{Serves};
ghost use Rattle.kernel_state.specs.Sound.{IsSound};
ghost use Rattle.thread_calls.specs.Numbers.{with_user_threshold, with_user_priority, with_slice, thread_info};
ghost use Rattle.thread_calls.specs.ThreadRows.{threshold_change, priority_change, slice_change, thread_info_get_row, thread_preemption_change_row, thread_priority_change_row, thread_time_slice_change_row};

use crate::laws::a_change_of_numbers_keeps_sound;
use call_arguments::{put_word, put_words};
use kernel_state::{Answer, Args, Kernel};
use region_guard::{Access, Guard};
use tx_types::{Code, Kind, Prio, ThreadNo, Thresh};

/// `thread_info_get(a0, to)`: THREAD_ERROR, then a refusal of `to`; eight words are written there.
#[tactic(auto, unfolding(crate::specs::ThreadRows::thread_info_get_row))]
pub fn thread_info_get(k: &mut Kernel, g: &mut Guard, by: ThreadNo, a: &Args) -> Answer
    requires serves { Serves k.old g.old }
    requires runs { k.old.ready.run ≡ Some by }
    ensures kernel { k.new ≡ (thread_info_get_row k.old g.old by a.now).change.kernel }
    ensures memory { g.new ≡ (thread_info_get_row k.old g.old by a.now).change.memory }
    ensures answer { result ≡ (thread_info_get_row k.old g.old by a.now).answer }
    ensures serves { Serves k.new g.new }
{
    let Some(t) = k.named(by, a[0], Kind::Thread) else {
        return Answer::Code(Code::THREAD_ERROR);
    };
    if let Some(refusal) = k.caller_refusal(g, by, Access::Store, a[1], 32) {
        return Answer::Code(refusal);
    }
    let info = thread_info(k, t);
    put_words(g, k.module_of(by), a[1], &info);
    Answer::Code(Code::SUCCESS)
}

/// `thread_preemption_change(a0, new, old)`: THREAD_ERROR, then a refusal of `old`, then THRESH_ERROR
/// where the new threshold is above the user's priority. The old threshold is written.
#[tactic(auto, unfolding(crate::specs::ThreadRows::thread_preemption_change_row))]
pub fn thread_preemption_change(k: &mut Kernel, g: &mut Guard, by: ThreadNo, a: &Args) -> Answer
    requires serves { Serves k.old g.old }
    requires runs { k.old.ready.run ≡ Some by }
    ensures kernel { k.new ≡ (thread_preemption_change_row k.old g.old by a.now).change.kernel }
    ensures memory { g.new ≡ (thread_preemption_change_row k.old g.old by a.now).change.memory }
    ensures answer { result ≡ (thread_preemption_change_row k.old g.old by a.now).answer }
    ensures serves { Serves k.new g.new }
{
    let Some(t) = k.named(by, a[0], Kind::Thread) else {
        return Answer::Code(Code::THREAD_ERROR);
    };
    if let Some(refusal) = k.caller_refusal(g, by, Access::Store, a[2], 4) {
        return Answer::Code(refusal);
    }
    change_threshold(k, g, by, t, a[1], a[2])
}

/// Changes a thread's threshold, and writes the old one.
#[tactic(auto, unfolding(crate::specs::ThreadRows::threshold_change))]
fn change_threshold(
    k: &mut Kernel,
    g: &mut Guard,
    by: ThreadNo,
    t: ThreadNo,
    new: u32,
    to: u32,
) -> Answer
    requires serves { Serves k.old g.old }
    requires live { is_thread k.old t ≡ true }
    requires allowed { may g.old (module_of k.old by) Access.Store to 4 ≡ true }
    ensures kernel { k.new ≡ (threshold_change k.old g.old t new to).change.kernel }
    ensures memory { g.new ≡ (threshold_change k.old g.old t new to).change.memory }
    ensures answer { result ≡ (threshold_change k.old g.old t new to).answer }
    ensures serves { Serves k.new g.new }
{
    let m = k.module_of(by);
    let thread = k.thread(t);
    if new > u32::from(thread.priority.number()) {
        return Answer::Code(Code::THRESH_ERROR);
    }
    let old = u32::from(thread.threshold.number());
    set_user_threshold(k, t, Thresh::new(new as u16));
    put_word(g, m, to, old);
    Answer::Code(Code::SUCCESS)
}

/// `thread_priority_change(a0, new, old)`: THREAD_ERROR, then a refusal of `old`, then PRIORITY_ERROR
/// where there is no such priority. The old priority is written; the threshold is the new priority.
#[tactic(auto, unfolding(crate::specs::ThreadRows::thread_priority_change_row))]
pub fn thread_priority_change(k: &mut Kernel, g: &mut Guard, by: ThreadNo, a: &Args) -> Answer
    requires serves { Serves k.old g.old }
    requires runs { k.old.ready.run ≡ Some by }
    ensures kernel { k.new ≡ (thread_priority_change_row k.old g.old by a.now).change.kernel }
    ensures memory { g.new ≡ (thread_priority_change_row k.old g.old by a.now).change.memory }
    ensures answer { result ≡ (thread_priority_change_row k.old g.old by a.now).answer }
    ensures serves { Serves k.new g.new }
{
    let Some(t) = k.named(by, a[0], Kind::Thread) else {
        return Answer::Code(Code::THREAD_ERROR);
    };
    if let Some(refusal) = k.caller_refusal(g, by, Access::Store, a[2], 4) {
        return Answer::Code(refusal);
    }
    change_priority(k, g, by, t, a[1], a[2])
}

/// Changes a thread's priority, and writes the old one.
#[tactic(auto, unfolding(crate::specs::ThreadRows::priority_change))]
fn change_priority(
    k: &mut Kernel,
    g: &mut Guard,
    by: ThreadNo,
    t: ThreadNo,
    new: u32,
    to: u32,
) -> Answer
    requires serves { Serves k.old g.old }
    requires live { is_thread k.old t ≡ true }
    requires allowed { may g.old (module_of k.old by) Access.Store to 4 ≡ true }
    ensures kernel { k.new ≡ (priority_change k.old g.old t new to).change.kernel }
    ensures memory { g.new ≡ (priority_change k.old g.old t new to).change.memory }
    ensures answer { result ≡ (priority_change k.old g.old t new to).answer }
    ensures serves { Serves k.new g.new }
{
    if new >= u32::from(k.priorities()) {
        return Answer::Code(Code::PRIORITY_ERROR);
    }
    let m = k.module_of(by);
    let old = u32::from(k.thread(t).priority.number());
    set_user_priority(k, t, Prio::new(new as u16));
    put_word(g, m, to, old);
    Answer::Code(Code::SUCCESS)
}

/// `thread_time_slice_change(a0, new, old)`: THREAD_ERROR, then a refusal of `old`, where the old
/// slice is written.
#[tactic(auto, unfolding(crate::specs::ThreadRows::thread_time_slice_change_row))]
pub fn thread_time_slice_change(k: &mut Kernel, g: &mut Guard, by: ThreadNo, a: &Args) -> Answer
    requires serves { Serves k.old g.old }
    requires runs { k.old.ready.run ≡ Some by }
    ensures kernel { k.new ≡ (thread_time_slice_change_row k.old g.old by a.now).change.kernel }
    ensures memory { g.new ≡ (thread_time_slice_change_row k.old g.old by a.now).change.memory }
    ensures answer { result ≡ (thread_time_slice_change_row k.old g.old by a.now).answer }
    ensures serves { Serves k.new g.new }
{
    let Some(t) = k.named(by, a[0], Kind::Thread) else {
        return Answer::Code(Code::THREAD_ERROR);
    };
    if let Some(refusal) = k.caller_refusal(g, by, Access::Store, a[2], 4) {
        return Answer::Code(refusal);
    }
    change_slice(k, g, by, t, a[1], a[2])
}

/// Changes a thread's time slice, and writes the old one.
#[tactic(auto, unfolding(crate::specs::ThreadRows::slice_change))]
fn change_slice(
    k: &mut Kernel,
    g: &mut Guard,
    by: ThreadNo,
    t: ThreadNo,
    new: u32,
    to: u32,
) -> Answer
    requires serves { Serves k.old g.old }
    requires live { is_thread k.old t ≡ true }
    requires allowed { may g.old (module_of k.old by) Access.Store to 4 ≡ true }
    ensures kernel { k.new ≡ (slice_change k.old g.old t new to).change.kernel }
    ensures memory { g.new ≡ (slice_change k.old g.old t new to).change.memory }
    ensures answer { result ≡ (slice_change k.old g.old t new to).answer }
    ensures serves { Serves k.new g.new }
{
    let m = k.module_of(by);
    let old = k.thread(t).slice;
    set_slice(k, t, new);
    put_word(g, m, to, old);
    Answer::Code(Code::SUCCESS)
}

/// What is read of a thread.
fn thread_info(k: &Kernel, t: ThreadNo) -> [u32; 8]
    ensures { result ≡ thread_info k.now t }
{
    let thread = k.thread(t);
    [
        thread.state.number(),
        u32::from(thread.held),
        u32::from(thread.priority.number()),
        u32::from(thread.threshold.number()),
        u32::from(k.effective_priority(t).number()),
        u32::from(k.effective_threshold(t).number()),
        thread.slice,
        thread.left,
    ]
}

/// A thread gets a new threshold of the user's.
fn set_user_threshold(k: &mut Kernel, t: ThreadNo, new: Thresh)
    requires sound { IsSound k.old }
    requires live { is_thread k.old t ≡ true }
    requires at_most { new ≤ (thread k.old t).priority }
    ensures after { k.new ≡ with_user_threshold k.old t new }
    ensures sound { IsSound k.new }
{
    a_change_of_numbers_keeps_sound();
    k.thread_mut(t).threshold = new;
    let effective = k.effective_threshold(t);
    k.ready.set_threshold(t, effective);
}

/// A thread gets a new priority of the user's, and a threshold equal to it.
fn set_user_priority(k: &mut Kernel, t: ThreadNo, new: Prio)
    requires sound { IsSound k.old }
    requires live { is_thread k.old t ≡ true }
    requires level { new < k.old.ready.levels }
    ensures after { k.new ≡ with_user_priority k.old t new }
    ensures sound { IsSound k.new }
{
    a_change_of_numbers_keeps_sound();
    let thread = k.thread_mut(t);
    thread.priority = new;
    thread.threshold = Thresh::new(new.number());
    let priority = k.effective_priority(t);
    let threshold = k.effective_threshold(t);
    k.ready.set_priority(t, priority, threshold);
}

/// A thread gets a new time slice, which is whole.
fn set_slice(k: &mut Kernel, t: ThreadNo, new: u32)
    requires sound { IsSound k.old }
    requires live { is_thread k.old t ≡ true }
    ensures after { k.new ≡ with_slice k.old t new }
    ensures sound { IsSound k.new }
{
    a_change_of_numbers_keeps_sound();
    let thread = k.thread_mut(t);
    thread.slice = new;
    thread.left = new;
}
