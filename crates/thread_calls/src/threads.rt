//! The services that start, suspend and end threads (ThreadX User Guide, "Thread Services").
//!
//! A refused call changes nothing, and none of these services reads or writes a module's memory.
//! Creating a thread and changing its numbers have files of their own.
ghost use Rattle.std.specs.Prelude.{◌≡◌, Some, true};
ghost use Rattle.kernel_state.specs.Serves.{Serves};
ghost use Rattle.thread_calls.specs.ThreadRows.{thread_delete_row, thread_terminate_row, thread_suspend_row, thread_resume_row, thread_relinquish_row, thread_identify_row, thread_reset_row, thread_complete_row};

use crate::laws::{a_change_of_numbers_keeps_sound, a_change_of_slots_keeps_serving};
use crate::resuming::resume_object;
use kernel_state::laws::who_runs_is_a_thread;
use kernel_state::{Answer, Args, Kernel, end_thread, is_over, reset_thread, suspend_thread};
use region_guard::Guard;
use tx_types::{Code, Kind, State, ThreadNo};

/// `thread_suspend(a0)`: THREAD_ERROR, then SUSPEND_ERROR where the thread is over.
#[tactic(auto, unfolding(crate::specs::ThreadRows::thread_suspend_row))]
pub fn thread_suspend(k: &mut Kernel, g: &mut Guard, by: ThreadNo, a: &Args) -> Answer
    requires serves { Serves k.old g.old }
    requires runs { k.old.ready.run ≡ Some by }
    ensures kernel { k.new ≡ (thread_suspend_row k.old g.old by a.now).change.kernel }
    ensures memory { g.new ≡ (thread_suspend_row k.old g.old by a.now).change.memory }
    ensures answer { result ≡ (thread_suspend_row k.old g.old by a.now).answer }
    ensures serves { Serves k.new g.new }
{
    let Some(t) = k.named(by, a[0], Kind::Thread) else {
        return Answer::Code(Code::THREAD_ERROR);
    };
    if is_over(k.state(t)) {
        return Answer::Code(Code::SUSPEND_ERROR);
    }
    suspend_thread(k, g, t);
    Answer::Code(Code::SUCCESS)
}

/// `thread_resume(a0)`: THREAD_ERROR, then as `resume_object`.
#[tactic(auto, unfolding(crate::specs::ThreadRows::thread_resume_row))]
pub fn thread_resume(k: &mut Kernel, g: &mut Guard, by: ThreadNo, a: &Args) -> Answer
    requires serves { Serves k.old g.old }
    requires runs { k.old.ready.run ≡ Some by }
    ensures kernel { k.new ≡ (thread_resume_row k.old g.old by a.now).change.kernel }
    ensures memory { g.new ≡ (thread_resume_row k.old g.old by a.now).change.memory }
    ensures answer { result ≡ (thread_resume_row k.old g.old by a.now).answer }
    ensures serves { Serves k.new g.new }
{
    let Some(t) = k.named(by, a[0], Kind::Thread) else {
        return Answer::Code(Code::THREAD_ERROR);
    };
    Answer::Code(resume_object(k, g, t))
}

/// `thread_terminate(a0)`: THREAD_ERROR. A thread that is over stays so. A caller that ends itself
/// gets no answer.
#[tactic(auto, unfolding(crate::specs::ThreadRows::thread_terminate_row))]
pub fn thread_terminate(k: &mut Kernel, g: &mut Guard, by: ThreadNo, a: &Args) -> Answer
    requires serves { Serves k.old g.old }
    requires runs { k.old.ready.run ≡ Some by }
    ensures kernel { k.new ≡ (thread_terminate_row k.old g.old by a.now).change.kernel }
    ensures memory { g.new ≡ (thread_terminate_row k.old g.old by a.now).change.memory }
    ensures answer { result ≡ (thread_terminate_row k.old g.old by a.now).answer }
    ensures serves { Serves k.new g.new }
{
    let Some(t) = k.named(by, a[0], Kind::Thread) else {
        return Answer::Code(Code::THREAD_ERROR);
    };
    end_thread(k, g, t, State::Terminated);
    if t == by {
        Answer::Ended
    } else {
        Answer::Code(Code::SUCCESS)
    }
}

/// `thread_complete()`: the caller ends, and gets no answer.
#[tactic(auto, unfolding(crate::specs::ThreadRows::thread_complete_row))]
pub fn thread_complete(k: &mut Kernel, g: &mut Guard, by: ThreadNo, a: &Args) -> Answer
    requires serves { Serves k.old g.old }
    requires runs { k.old.ready.run ≡ Some by }
    ensures kernel { k.new ≡ (thread_complete_row k.old g.old by a.now).change.kernel }
    ensures memory { g.new ≡ (thread_complete_row k.old g.old by a.now).change.memory }
    ensures answer { result ≡ (thread_complete_row k.old g.old by a.now).answer }
    ensures serves { Serves k.new g.new }
{
    who_runs_is_a_thread();
    end_thread(k, g, by, State::Completed);
    Answer::Ended
}

/// `thread_reset(a0)`: THREAD_ERROR, then NOT_DONE unless the thread is over.
#[tactic(auto, unfolding(crate::specs::ThreadRows::thread_reset_row))]
pub fn thread_reset(k: &mut Kernel, g: &mut Guard, by: ThreadNo, a: &Args) -> Answer
    requires serves { Serves k.old g.old }
    requires runs { k.old.ready.run ≡ Some by }
    ensures kernel { k.new ≡ (thread_reset_row k.old g.old by a.now).change.kernel }
    ensures memory { g.new ≡ (thread_reset_row k.old g.old by a.now).change.memory }
    ensures answer { result ≡ (thread_reset_row k.old g.old by a.now).answer }
    ensures serves { Serves k.new g.new }
{
    let Some(t) = k.named(by, a[0], Kind::Thread) else {
        return Answer::Code(Code::THREAD_ERROR);
    };
    if !is_over(k.state(t)) {
        return Answer::Code(Code::NOT_DONE);
    }
    reset_thread(k, g, t);
    Answer::Code(Code::SUCCESS)
}

/// `thread_delete(a0)`: THREAD_ERROR, then CALLER_ERROR unless the module owns the thread, then
/// DELETE_ERROR unless it is over.
#[tactic(auto, unfolding(crate::specs::ThreadRows::thread_delete_row))]
pub fn thread_delete(k: &mut Kernel, g: &mut Guard, by: ThreadNo, a: &Args) -> Answer
    requires serves { Serves k.old g.old }
    requires runs { k.old.ready.run ≡ Some by }
    ensures kernel { k.new ≡ (thread_delete_row k.old g.old by a.now).change.kernel }
    ensures memory { g.new ≡ (thread_delete_row k.old g.old by a.now).change.memory }
    ensures answer { result ≡ (thread_delete_row k.old g.old by a.now).answer }
    ensures serves { Serves k.new g.new }
{
    a_change_of_slots_keeps_serving();
    let Some(t) = k.named(by, a[0], Kind::Thread) else {
        return Answer::Code(Code::THREAD_ERROR);
    };
    if let Some(refusal) = k.owner_refusal(by, t) {
        return Answer::Code(refusal);
    }
    if !is_over(k.state(t)) {
        return Answer::Code(Code::DELETE_ERROR);
    }
    k.remove_thread(t);
    Answer::Code(Code::SUCCESS)
}

/// `thread_relinquish()`: the caller goes after the ready threads of its priority.
#[tactic(auto, unfolding(crate::specs::ThreadRows::thread_relinquish_row))]
pub fn thread_relinquish(k: &mut Kernel, g: &mut Guard, by: ThreadNo, a: &Args) -> Answer
    requires serves { Serves k.old g.old }
    requires runs { k.old.ready.run ≡ Some by }
    ensures kernel { k.new ≡ (thread_relinquish_row k.old g.old by a.now).change.kernel }
    ensures memory { g.new ≡ (thread_relinquish_row k.old g.old by a.now).change.memory }
    ensures answer { result ≡ (thread_relinquish_row k.old g.old by a.now).answer }
    ensures serves { Serves k.new g.new }
{
    a_change_of_numbers_keeps_sound();
    who_runs_is_a_thread();
    k.ready.yield_run();
    Answer::Code(Code::SUCCESS)
}

/// `thread_identify()`: the caller's reference.
#[tactic(auto, unfolding(crate::specs::ThreadRows::thread_identify_row))]
pub fn thread_identify(k: &mut Kernel, g: &mut Guard, by: ThreadNo, a: &Args) -> Answer
    requires serves { Serves k.old g.old }
    requires runs { k.old.ready.run ≡ Some by }
    ensures kernel { k.new ≡ (thread_identify_row k.old g.old by a.now).change.kernel }
    ensures memory { g.new ≡ (thread_identify_row k.old g.old by a.now).change.memory }
    ensures answer { result ≡ (thread_identify_row k.old g.old by a.now).answer }
    ensures serves { Serves k.new g.new }
{
    Answer::Value(k.objects.ref_of(by).word())
}
