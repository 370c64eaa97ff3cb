//! The services by which a thread sleeps, and ends the wait of another one.
//!
//! A refused call changes nothing. A caller that sleeps gets its answer at the end of its wait.
ghost use Rattle.std.specs.Prelude.{◌≡◌, Some};
ghost use Rattle.kernel_state.specs.Contents.{IsAsked};
ghost use Rattle.kernel_state.specs.Room.{HasRoom};
ghost use Rattle.kernel_state.specs.Serves.{Serves};
ghost use Rattle.thread_calls.specs.ThreadRows.{sleep_of, thread_sleep_row, thread_wait_abort_row};

use kernel_state::laws::{a_wait_keeps_serving, who_runs_is_a_thread};
use kernel_state::{Answer, Args, Kernel, is_waiting};
use region_guard::Guard;
use suspend_lists::{Asks, On, Wait};
use tx_types::{Code, End, Kind, Message, ThreadNo};

/// `thread_sleep(ticks)`: the caller waits for that many ticks; it goes on at once where they are 0.
#[tactic(auto, unfolding(crate::specs::ThreadRows::thread_sleep_row))]
pub fn thread_sleep(k: &mut Kernel, g: &mut Guard, by: ThreadNo, a: &Args) -> Answer
    requires serves { Serves k.old g.old }
    requires runs { k.old.ready.run ≡ Some by }
    requires room { HasRoom k.old }
    ensures kernel { k.new ≡ (thread_sleep_row k.old g.old by a.now).change.kernel }
    ensures memory { g.new ≡ (thread_sleep_row k.old g.old by a.now).change.memory }
    ensures answer { result ≡ (thread_sleep_row k.old g.old by a.now).answer }
    ensures serves { Serves k.new g.new }
{
    who_runs_is_a_thread();
    let _ = &g;
    if a[0] == 0 {
        return Answer::Code(Code::SUCCESS);
    }
    let wait = sleep_of(k, by);
    k.begin_wait(by, wait, a[0]);
    Answer::Waits
}

/// The sleep of a caller: as its time is up, it answers SUCCESS.
fn sleep_of(k: &Kernel, by: ThreadNo) -> Wait
    ensures value { result ≡ sleep_of k.now by }
    ensures right { IsAsked k.now.objects k.now.queues k.now.semas result }
{
    Wait {
        on: On::Sleep,
        asks: Asks::Sleep,
        code: Code::SUCCESS,
        asked: k.effective_priority(by),
    }
}

/// `thread_wait_abort(a0)`: THREAD_ERROR, then WAIT_ABORT_ERROR where the thread waits for nothing.
/// Its wait ends, and its call answers WAIT_ABORTED.
#[tactic(auto, unfolding(crate::specs::ThreadRows::thread_wait_abort_row))]
pub fn thread_wait_abort(k: &mut Kernel, g: &mut Guard, by: ThreadNo, a: &Args) -> Answer
    requires serves { Serves k.old g.old }
    requires runs { k.old.ready.run ≡ Some by }
    ensures kernel { k.new ≡ (thread_wait_abort_row k.old g.old by a.now).change.kernel }
    ensures memory { g.new ≡ (thread_wait_abort_row k.old g.old by a.now).change.memory }
    ensures answer { result ≡ (thread_wait_abort_row k.old g.old by a.now).answer }
    ensures serves { Serves k.new g.new }
{
    a_wait_keeps_serving();
    who_runs_is_a_thread();
    let Some(t) = k.named(by, a[0], Kind::Thread) else {
        return Answer::Code(Code::THREAD_ERROR);
    };
    if !is_waiting(k.state(t)) {
        return Answer::Code(Code::WAIT_ABORT_ERROR);
    }
    k.end_wait(g, t, End::Aborted, &Message::empty());
    Answer::Code(Code::SUCCESS)
}
