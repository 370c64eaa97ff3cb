//! How a caller begins to wait for an object, and how a waiter gets what it asked for.
//!
//! Whether a service can do what is asked of it now is tested before; here it can't, or it can for
//! one who waits.
ghost use Rattle.std.specs.Prelude.{◌≡◌, ◌<◌, IfSome, IsSome, Some};
ghost use Rattle.msg_queues.specs.Queues.{words_of};
ghost use Rattle.suspend_lists.specs.Waits.{wait_of};
ghost use Rattle.kernel_state.specs.Contents.{IsAskedOf, IsPlace, code_of};
ghost use Rattle.kernel_state.specs.Kernel.{module_of};
ghost use Rattle.kernel_state.specs.Objects.{wait_at, waiting};
ghost use Rattle.kernel_state.specs.Room.{HasRoom};
ghost use Rattle.kernel_state.specs.Serves.{Serves};
ghost use Rattle.kernel_state.specs.Waiting.{MayHaveResult, wait_begun, wait_ended, wanted_at};

use kernel_state::laws::{a_wait_keeps_serving, who_runs_is_a_thread};
use kernel_state::{Answer, Kernel};
use region_guard::Guard;
use suspend_lists::{Asks, On, Wait};
use tx_types::{Code, End, Message, ObjNo, ThreadNo};

/// What a call answers that asks for this, where it can't have it.
fn code_of(asks: &Asks) -> Code
    ensures { result ≡ code_of asks.now }
{
    match asks {
        Asks::Receive { .. } => Code::QUEUE_EMPTY,
        Asks::Send { .. } => Code::QUEUE_FULL,
        Asks::Instance => Code::NO_INSTANCE,
        Asks::Sleep
        | Asks::Own
        | Asks::Flags { .. }
        | Asks::Bytes { .. }
        | Asks::Block { .. }
        | Asks::Callback { .. } => Code::SUCCESS,
    }
}

/// The wait of a caller for an object.
fn wait_at(k: &Kernel, by: ThreadNo, o: ObjNo, asks: Asks) -> Wait
    ensures { result ≡ wait_at k.now by o asks }
{
    let code = code_of(&asks);
    Wait {
        on: On::Object(o),
        asks,
        code,
        asked: k.effective_priority(by),
    }
}

/// The caller waits for what an object can't give it now, where it asked to, and is refused else.
#[tactic(auto, unfolding(kernel_state::specs::Objects::waiting))]
pub(crate) fn wait_for(
    k: &mut Kernel,
    g: &Guard,
    by: ThreadNo,
    o: ObjNo,
    asks: Asks,
    ticks: u32,
) -> Answer
    requires serves { Serves k.old g.now }
    requires runs { k.old.ready.run ≡ Some by }
    requires room { HasRoom k.old }
    requires asked { IsAskedOf k.old.objects k.old.queues k.old.semas o asks }
    requires promised { IfSome (wanted_at asks)
        (IsPlace g.now (module_of k.old by) (words_of k.old.queues o)) }
    ensures kernel { k.new ≡ (waiting k.old g.now by o asks ticks).change.kernel }
    ensures memory { g.now ≡ (waiting k.old g.now by o asks ticks).change.memory }
    ensures answer { result ≡ (waiting k.old g.now by o asks ticks).answer }
    ensures serves { Serves k.new g.now }
{
    let _ = &g;
    if ticks == 0 {
        Answer::Code(code_of(&asks))
    } else {
        begin(k, g, by, o, asks, ticks);
        Answer::Waits
    }
}

/// The caller begins to wait for an object.
fn begin(k: &mut Kernel, g: &Guard, by: ThreadNo, o: ObjNo, asks: Asks, ticks: u32)
    requires serves { Serves k.old g.now }
    requires runs { k.old.ready.run ≡ Some by }
    requires room { HasRoom k.old }
    requires asked { IsAskedOf k.old.objects k.old.queues k.old.semas o asks }
    requires promised { IfSome (wanted_at asks)
        (IsPlace g.now (module_of k.old by) (words_of k.old.queues o)) }
    requires later { 0 < ticks }
    ensures after { k.new ≡ wait_begun k.old by (wait_at k.old by o asks) ticks }
    ensures serves { Serves k.new g.now }
{
    a_wait_keeps_serving();
    who_runs_is_a_thread();
    let _ = &g;
    let wait = wait_at(k, by, o, asks);
    k.begin_wait(by, wait, ticks);
}

/// The wait of a thread ends as it was asked to, with a result where it asked for one.
pub(crate) fn satisfy(k: &mut Kernel, g: &mut Guard, t: ThreadNo, value: &Message)
    requires serves { Serves k.old g.old }
    requires waits { IsSome (wait_of k.old.waits t) }
    requires result { MayHaveResult k.old g.old t End.Satisfied value.now }
    ensures kernel { k.new ≡ (wait_ended k.old g.old t End.Satisfied value.now).kernel }
    ensures memory { g.new ≡ (wait_ended k.old g.old t End.Satisfied value.now).memory }
    ensures serves { Serves k.new g.new }
{
    a_wait_keeps_serving();
    k.end_wait(g, t, End::Satisfied, value);
}
