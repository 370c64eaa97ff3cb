//! A message is sent to a queue, by a service or by a device.
//!
//! Whether the queue may be named was asked before. Where a receiver waits the message goes where its
//! call asked, and else into the queue.
ghost use Rattle.std.specs.Prelude.{◌≡◌, ◌<◌, ◌≤◌, None, Some, length, true};
ghost use Rattle.msg_queues.specs.Queues.{room_of, words_of};
ghost use Rattle.tx_types.specs.Limits.{message_limit};
ghost use Rattle.kernel_state.specs.Contents.{is_of, put};
ghost use Rattle.kernel_state.specs.Objects.{asks_to_receive, first_that};
ghost use Rattle.kernel_state.specs.Room.{HasRoom};
ghost use Rattle.kernel_state.specs.Serves.{Serves};
ghost use Rattle.kernel_state.specs.Sound.{IsSound};
ghost use Rattle.kernel_state.specs.Waiting.{wait_ended};
ghost use Rattle.object_calls.specs.QueueRows.{queue_sent_by_device, sending, sent, takes_message, word_and_zeros};

use crate::receipts::put;
use crate::waits::{satisfy, wait_for};
use kernel_state::laws::{a_promised_result_may_be_stored, what_is_in_an_object_changes};
use kernel_state::{Answer, Kernel};
use region_guard::Guard;
use suspend_lists::{Asks, On};
use tx_types::{Code, End, Kind, Message, ObjNo, ThreadNo};

/// How many words a message has at most.
const WORDS: usize = 16;

/// The first waiter of a queue, where it asks for a message: all waiters of a queue ask alike.
fn first_receiver(k: &Kernel, o: ObjNo) -> Option<ThreadNo>
    ensures { result ≡ first_that asks_to_receive k.now o }
{
    let t = k.waits.first(On::Object(o))?;
    let wait = k.waits.wait_of(t)?;
    match wait.asks {
        Asks::Receive { .. } => Some(t),
        _ => None,
    }
}

/// Whether a message can be sent now: a receiver waits, or there is room.
fn takes_message(k: &Kernel, o: ObjNo) -> bool
    ensures { result ≡ takes_message k.now o }
{
    first_receiver(k, o).is_some() || k.queues.room(o) > 0
}

/// A message goes where the first receiver wants it, or into the queue, first or last. Else the caller
/// waits, or QUEUE_FULL comes where it doesn't.
#[tactic(auto, unfolding(crate::specs::QueueRows::sending))]
pub(crate) fn send_message(
    k: &mut Kernel,
    g: &mut Guard,
    by: ThreadNo,
    o: ObjNo,
    message: Message,
    front: bool,
    ticks: u32,
) -> Answer
    requires serves { Serves k.old g.old }
    requires runs { k.old.ready.run ≡ Some by }
    requires room { HasRoom k.old }
    requires queue { is_of k.old.objects Kind.Queue o ≡ true }
    requires whole { length message ≡ words_of k.old.queues o }
    ensures kernel { k.new ≡ (sending k.old g.old by o message front ticks).change.kernel }
    ensures memory { g.new ≡ (sending k.old g.old by o message front ticks).change.memory }
    ensures answer { result ≡ (sending k.old g.old by o message front ticks).answer }
    ensures serves { Serves k.new g.new }
{
    if takes_message(k, o) {
        put_message(k, g, o, &message, front);
        Answer::Code(Code::SUCCESS)
    } else {
        wait_for(k, g, by, o, Asks::Send { message, front }, ticks)
    }
}

/// Sends a word, and zeros after it for the words of the queue's messages, last. QUEUE_FULL comes
/// where no receiver waits and there is no room; a device doesn't wait.
#[tactic(auto, unfolding(crate::specs::QueueRows::queue_sent_by_device))]
pub fn send_object(k: &mut Kernel, g: &mut Guard, o: ObjNo, w: u32) -> Code
    requires serves { Serves k.old g.old }
    requires queue { is_of k.old.objects Kind.Queue o ≡ true }
    ensures kernel { k.new ≡ (queue_sent_by_device k.old g.old o w).change.kernel }
    ensures memory { g.new ≡ (queue_sent_by_device k.old g.old o w).change.memory }
    ensures answer { Answer.Code result ≡ (queue_sent_by_device k.old g.old o w).answer }
    ensures serves { Serves k.new g.new }
{
    if takes_message(k, o) {
        let message = word_and_zeros(w, words_of(k, o));
        put_message(k, g, o, &message, false);
        Code::SUCCESS
    } else {
        Code::QUEUE_FULL
    }
}

/// How many words each message of a queue has.
#[tactic(auto, using(crate::proofs::QueueSizes::words_from_one))]
pub(crate) fn words_of(k: &Kernel, o: ObjNo) -> u8
    requires sound { IsSound k.now }
    requires queue { is_of k.now.objects Kind.Queue o ≡ true }
    ensures value { result ≡ words_of k.now.queues o }
    ensures some { 1 ≤ result }
    ensures short { result ≤ message_limit }
{
    k.queues.words(o) as u8
}

/// A message of a word and zeros.
fn word_and_zeros(w: u32, words: u8) -> Message
    requires some { 1 ≤ words }
    requires short { words ≤ message_limit }
    ensures value { result ≡ word_and_zeros w words }
    ensures whole { length result ≡ words }
{
    let mut all = [0; WORDS];
    all[0] = w;
    Message::from_words(&all[..usize::from(words)])
}

/// A message goes where the first receiver wants it, or into the queue.
#[tactic(auto, unfolding(crate::specs::QueueRows::sent))]
fn put_message(k: &mut Kernel, g: &mut Guard, o: ObjNo, message: &Message, front: bool)
    requires serves { Serves k.old g.old }
    requires whole { length message.now ≡ words_of k.old.queues o }
    requires takes { takes_message k.old o ≡ true }
    ensures kernel { k.new ≡ (sent k.old g.old o message.now front).kernel }
    ensures memory { g.new ≡ (sent k.old g.old o message.now front).memory }
    ensures serves { Serves k.new g.new }
{
    match first_receiver(k, o) {
        Some(t) => hand_over(k, g, o, t, message),
        None => enter(k, g, o, message, front),
    }
}

/// The first receiver gets a message, and its wait ends.
fn hand_over(k: &mut Kernel, g: &mut Guard, o: ObjNo, t: ThreadNo, message: &Message)
    requires serves { Serves k.old g.old }
    requires whole { length message.now ≡ words_of k.old.queues o }
    requires first { first_that asks_to_receive k.old o ≡ Some t }
    ensures kernel { k.new ≡ (wait_ended k.old g.old t End.Satisfied message.now).kernel }
    ensures memory { g.new ≡ (wait_ended k.old g.old t End.Satisfied message.now).memory }
    ensures serves { Serves k.new g.new }
{
    what_is_in_an_object_changes();
    a_promised_result_may_be_stored();
    satisfy(k, g, t, message);
}

/// A message goes into a queue in which there is room, and for which nobody waits.
fn enter(k: &mut Kernel, g: &Guard, o: ObjNo, message: &Message, front: bool)
    requires serves { Serves k.old g.now }
    requires whole { length message.now ≡ words_of k.old.queues o }
    requires free { 0 < room_of k.old.queues o }
    requires none { first_that asks_to_receive k.old o ≡ None }
    ensures after { k.new ≡ record k.old { queues = put k.old.queues o message.now front } }
    ensures serves { Serves k.new g.now }
{
    what_is_in_an_object_changes();
    let _ = &g;
    put(&mut k.queues, o, message, front);
}
