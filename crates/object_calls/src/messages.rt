//! The services that send and receive messages (ThreadX User Guide, "Queue Services").
//!
//! A refused call changes nothing. A message that is sent is read from the caller's memory as the call
//! is made; one that is received is written where the caller may store it.
ghost use Rattle.std.specs.Prelude.{◌≡◌, ◌≤◌, ◌*◌, IfSome, Some, length, true};
ghost use Rattle.tx_types.specs.Limits.{message_limit};
ghost use Rattle.call_arguments.specs.Words.{words_at};
ghost use Rattle.msg_queues.specs.Queues.{message_at, words_of};
ghost use Rattle.region_guard.specs.Memory.{may};
ghost use Rattle.kernel_state.specs.Contents.{is_of, IsPlace};
ghost use Rattle.kernel_state.specs.Kernel.{module_of};
ghost use Rattle.kernel_state.specs.Room.{HasRoom};
ghost use Rattle.kernel_state.specs.Serves.{Serves};
ghost use Rattle.object_calls.specs.QueueRows.{queue_front_send_row, queue_receive_row, queue_send_row, received, receiving, send_row};

use crate::receipts::receive_first;
use crate::sends::{send_message, words_of};
use crate::waits::wait_for;
use call_arguments::{message_at, words_are_as_many};
use kernel_state::{Answer, Args, Kernel};
use region_guard::{Access, Guard};
use suspend_lists::Asks;
use tx_types::{Code, Kind, Message, ObjNo, ThreadNo};

/// `queue_send(a0, from, wait)`: QUEUE_ERROR, then a refusal of `from`, then as `send_message`; the
/// message goes last.
#[tactic(auto, unfolding(crate::specs::QueueRows::queue_send_row))]
pub fn queue_send(k: &mut Kernel, g: &mut Guard, by: ThreadNo, a: &Args) -> Answer
    requires serves { Serves k.old g.old }
    requires runs { k.old.ready.run ≡ Some by }
    requires room { HasRoom k.old }
    ensures kernel { k.new ≡ (queue_send_row k.old g.old by a.now).change.kernel }
    ensures memory { g.new ≡ (queue_send_row k.old g.old by a.now).change.memory }
    ensures answer { result ≡ (queue_send_row k.old g.old by a.now).answer }
    ensures serves { Serves k.new g.new }
{
    send(k, g, by, a, false)
}

/// `queue_front_send(a0, from, wait)`: as `queue_send`, but the message goes first.
#[tactic(auto, unfolding(crate::specs::QueueRows::queue_front_send_row))]
pub fn queue_front_send(k: &mut Kernel, g: &mut Guard, by: ThreadNo, a: &Args) -> Answer
    requires serves { Serves k.old g.old }
    requires runs { k.old.ready.run ≡ Some by }
    requires room { HasRoom k.old }
    ensures kernel { k.new ≡ (queue_front_send_row k.old g.old by a.now).change.kernel }
    ensures memory { g.new ≡ (queue_front_send_row k.old g.old by a.now).change.memory }
    ensures answer { result ≡ (queue_front_send_row k.old g.old by a.now).answer }
    ensures serves { Serves k.new g.new }
{
    send(k, g, by, a, true)
}

/// Sends the message to which an argument points, first or last.
fn send(k: &mut Kernel, g: &mut Guard, by: ThreadNo, a: &Args, front: bool) -> Answer
    requires serves { Serves k.old g.old }
    requires runs { k.old.ready.run ≡ Some by }
    requires room { HasRoom k.old }
    ensures kernel { k.new ≡ (send_row front k.old g.old by a.now).change.kernel }
    ensures memory { g.new ≡ (send_row front k.old g.old by a.now).change.memory }
    ensures answer { result ≡ (send_row front k.old g.old by a.now).answer }
    ensures serves { Serves k.new g.new }
{
    let Some(o) = k.named(by, a[0], Kind::Queue) else {
        return Answer::Code(Code::QUEUE_ERROR);
    };
    let words = words_of(k, o);
    if let Some(refusal) = k.caller_refusal(g, by, Access::Load, a[1], 4 * u32::from(words)) {
        return Answer::Code(refusal);
    }
    let message = read_message(k, g, by, a[1], words);
    send_message(k, g, by, o, message, front, a[2])
}

/// The message of the caller's at an address.
fn read_message(k: &Kernel, g: &Guard, by: ThreadNo, x: u32, words: u8) -> Message
    requires allowed { may g.now (module_of k.now by) Access.Load x (4 * words) ≡ true }
    requires short { words ≤ message_limit }
    ensures value { result ≡ words_at g.now x words }
    ensures length { length result ≡ words }
{
    words_are_as_many();
    message_at(g, k.module_of(by), x, words)
}

/// `queue_receive(a0, to, wait)`: QUEUE_ERROR, then a refusal of `to`, then as `receive`.
#[tactic(auto, unfolding(crate::specs::QueueRows::queue_receive_row))]
pub fn queue_receive(k: &mut Kernel, g: &mut Guard, by: ThreadNo, a: &Args) -> Answer
    requires serves { Serves k.old g.old }
    requires runs { k.old.ready.run ≡ Some by }
    requires room { HasRoom k.old }
    ensures kernel { k.new ≡ (queue_receive_row k.old g.old by a.now).change.kernel }
    ensures memory { g.new ≡ (queue_receive_row k.old g.old by a.now).change.memory }
    ensures answer { result ≡ (queue_receive_row k.old g.old by a.now).answer }
    ensures serves { Serves k.new g.new }
{
    let Some(o) = k.named(by, a[0], Kind::Queue) else {
        return Answer::Code(Code::QUEUE_ERROR);
    };
    let words = words_of(k, o);
    if let Some(refusal) = k.caller_refusal(g, by, Access::Store, a[1], 4 * u32::from(words)) {
        return Answer::Code(refusal);
    }
    receive(k, g, by, o, a[1], a[2])
}

/// The caller gets the first message where there is one. Else it waits, or QUEUE_EMPTY comes where it
/// doesn't.
#[tactic(auto, unfolding(crate::specs::QueueRows::receiving))]
fn receive(k: &mut Kernel, g: &mut Guard, by: ThreadNo, o: ObjNo, to: u32, ticks: u32) -> Answer
    requires serves { Serves k.old g.old }
    requires runs { k.old.ready.run ≡ Some by }
    requires room { HasRoom k.old }
    requires queue { is_of k.old.objects Kind.Queue o ≡ true }
    requires place { IsPlace g.old (module_of k.old by) (words_of k.old.queues o) to }
    ensures kernel { k.new ≡ (receiving k.old g.old by o to ticks).change.kernel }
    ensures memory { g.new ≡ (receiving k.old g.old by o to ticks).change.memory }
    ensures answer { result ≡ (receiving k.old g.old by o to ticks).answer }
    ensures serves { Serves k.new g.new }
{
    match k.queues.message(o, 0) {
        Some(_) => {
            receive_first(k, g, by, o, to);
            Answer::Code(Code::SUCCESS)
        }
        None => wait_for(k, g, by, o, Asks::Receive { to }, ticks),
    }
}
