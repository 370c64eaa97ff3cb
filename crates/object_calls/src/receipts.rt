//! The first message of a queue is received.
//!
//! It is written where the caller wants it. Then there is room for the message of the first sender
//! that waits, which goes in as its call asked, and its wait ends.
ghost use Rattle.std.specs.Prelude.{◌≡◌, ◌<◌, IfSome, IsSome, None, Some, length};
ghost use Rattle.msg_queues.specs.Queues.{message_at, popped, room_of, words_of};
ghost use Rattle.suspend_lists.specs.Waits.{wait_of};
ghost use Rattle.kernel_state.specs.Contents.{IsPlace, entered, put, put_asked};
ghost use Rattle.kernel_state.specs.Kernel.{module_of};
ghost use Rattle.kernel_state.specs.Objects.{asks_to_send, first_that};
ghost use Rattle.kernel_state.specs.Serves.{Serves};
ghost use Rattle.object_calls.specs.QueueRows.{MayEnter, received};

use crate::objects::put_info;
use crate::waits::satisfy;
use kernel_state::Kernel;
use kernel_state::laws::what_is_in_an_object_changes;
use msg_queues::{Queues, what_a_call_leaves_of_its_queue};
use region_guard::Guard;
use suspend_lists::{Asks, On};
use tx_types::{Message, ObjNo, ThreadNo};

/// The first waiter of a queue, where it asks to send: all waiters of a queue ask alike.
pub(crate) fn first_sender(k: &Kernel, o: ObjNo) -> Option<ThreadNo>
    ensures { result ≡ first_that asks_to_send k.now o }
{
    let t = k.waits.first(On::Object(o))?;
    let wait = k.waits.wait_of(t)?;
    match wait.asks {
        Asks::Send { .. } => Some(t),
        _ => None,
    }
}

/// The first message is written where the caller wants it; then the first sender's goes in, and its
/// wait ends.
#[tactic(auto, unfolding(crate::specs::QueueRows::received))]
pub(crate) fn receive_first(k: &mut Kernel, g: &mut Guard, by: ThreadNo, o: ObjNo, to: u32)
    requires serves { Serves k.old g.old }
    requires some { IsSome (message_at k.old.queues o 0) }
    requires place { IsPlace g.old (module_of k.old by) (words_of k.old.queues o) to }
    ensures kernel { IfSome (message_at k.old.queues o 0)
        (λ m. k.new ≡ (received k.old g.old o to m).kernel) }
    ensures memory { IfSome (message_at k.old.queues o 0)
        (λ m. g.new ≡ (received k.old g.old o to m).memory) }
    ensures serves { Serves k.new g.new }
{
    match first_sender(k, o) {
        Some(t) => {
            let message = exchange(k, g, o, t);
            put_info(k, g, by, to, message.words());
            satisfy(k, g, t, &Message::empty());
        }
        None => {
            let message = take_out(k, g, o);
            put_info(k, g, by, to, message.words());
        }
    }
}

/// Takes the first message out of a queue for which no sender waits.
fn take_out(k: &mut Kernel, g: &Guard, o: ObjNo) -> Message
    requires serves { Serves k.old g.now }
    requires some { IsSome (message_at k.old.queues o 0) }
    requires none { first_that asks_to_send k.old o ≡ None }
    ensures after { k.new ≡ record k.old { queues = popped k.old.queues o } }
    ensures first { message_at k.old.queues o 0 ≡ Some result }
    ensures whole { length result ≡ words_of k.old.queues o }
    ensures serves { Serves k.new g.now }
{
    what_is_in_an_object_changes();
    let _ = &g;
    match k.queues.pop(o) {
        Some(message) => message,
        None => unreachable!(),
    }
}

/// Takes the first message out of a queue, and the first sender's goes in.
fn exchange(k: &mut Kernel, g: &Guard, o: ObjNo, t: ThreadNo) -> Message
    requires serves { Serves k.old g.now }
    requires some { IsSome (message_at k.old.queues o 0) }
    requires sender { first_that asks_to_send k.old o ≡ Some t }
    ensures after { k.new ≡ record k.old {
      queues = entered (popped k.old.queues o) o (wait_of k.old.waits t);
    } }
    ensures first { message_at k.old.queues o 0 ≡ Some result }
    ensures whole { length result ≡ words_of k.old.queues o }
    ensures serves { Serves k.new g.now }
{
    what_is_in_an_object_changes();
    what_a_call_leaves_of_its_queue();
    let _ = &g;
    match k.queues.pop(o) {
        Some(message) => {
            enter_asked(k, o, t);
            message
        }
        None => unreachable!(),
    }
}

/// The message of a sender that waits goes in.
fn enter_asked(k: &mut Kernel, o: ObjNo, t: ThreadNo)
    requires may { IfSome (wait_of k.old.waits t) (λ w. MayEnter k.old.queues o w.asks) }
    ensures { k.new ≡ record k.old {
      queues = entered k.old.queues o (wait_of k.old.waits t);
    } }
{
    if let Some(wait) = k.waits.wait_of(t) {
        put_asked(&mut k.queues, o, &wait.asks);
    }
}

/// A message goes into a queue as its sender's call asked.
fn put_asked(queues: &mut Queues, o: ObjNo, asks: &Asks)
    requires may { MayEnter queues.old o asks.now }
    ensures { queues.new ≡ put_asked queues.old o asks.now }
{
    if let Asks::Send { message, front } = asks {
        put(queues, o, message, *front);
    }
}

/// A message goes into a queue, first or last.
pub(crate) fn put(queues: &mut Queues, o: ObjNo, message: &Message, front: bool)
    requires free { 0 < room_of queues.old o }
    requires whole { length message.now ≡ words_of queues.old o }
    ensures { queues.new ≡ put queues.old o message.now front }
{
    if front {
        queues.push_front(o, message);
    } else {
        queues.push_back(o, message);
    }
}
