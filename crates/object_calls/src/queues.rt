//! The services that create, empty, order, read and delete queues (ThreadX User Guide, "Queue
//! Services").
//!
//! A refused call changes nothing, and but for `queue_info_get` none of these services writes to a
//! module's memory: the area that is given for a queue is tested, and its messages are kept by the
//! kernel.
ghost use Rattle.std.specs.Prelude.{◌≡◌, ◌≢◌, ◌*◌, ◌/◌, [], All, IfNone, Some, true};
ghost use Rattle.object_grants.specs.Slot.{is_in, is_kind};
ghost use Rattle.object_grants.specs.Table.{slot};
ghost use Rattle.object_grants.specs.declared.slot.SlotState.TheVariants.{Empty};
ghost use Rattle.msg_queues.specs.Entry.{IsShape};
ghost use Rattle.msg_queues.specs.Queues.{flushed};
ghost use Rattle.kernel_state.specs.ContentLaws.{queue_placed};
ghost use Rattle.kernel_state.specs.Contents.{is_of};
ghost use Rattle.kernel_state.specs.Objects.{all_ended};
ghost use Rattle.kernel_state.specs.Serves.{Serves};
ghost use Rattle.object_calls.specs.QueueRows.{emptied, queue_create_row, queue_delete_row, queue_flush_row, queue_info, queue_info_get_row, queue_prioritize_row, senders, sizes_refusal};

use crate::objects::{prioritize, put_info, remove};
use crate::receipts::first_sender;
use call_arguments::name_at;
use kernel_state::laws::{all_ends_keep_serving, what_is_in_an_object_changes};
use kernel_state::{Answer, Args, Kernel};
use region_guard::{Access, Guard};
use suspend_lists::On;
use tx_types::{Code, End, Kind, Name, ObjNo, ThreadNo};

/// `queue_create(a0, name, words, area, size)`: QUEUE_ERROR unless a0 names an Empty queue slot of the
/// module's own, then a refusal of the name, then of the area, then SIZE_ERROR where a message has no
/// word or more than 16, or where the area has more than 4,096 bytes or not those of one message.
#[tactic(auto, unfolding(crate::specs::QueueRows::queue_create_row))]
pub fn queue_create(k: &mut Kernel, g: &mut Guard, by: ThreadNo, a: &Args) -> Answer
    requires serves { Serves k.old g.old }
    requires runs { k.old.ready.run ≡ Some by }
    ensures kernel { k.new ≡ (queue_create_row k.old g.old by a.now).change.kernel }
    ensures memory { g.new ≡ (queue_create_row k.old g.old by a.now).change.memory }
    ensures answer { result ≡ (queue_create_row k.old g.old by a.now).answer }
    ensures serves { Serves k.new g.new }
{
    let Some(o) = k.reserved(by, a[0], Kind::Queue) else {
        return Answer::Code(Code::QUEUE_ERROR);
    };
    let name = match name_at(g, k.module_of(by), a[1]) {
        Ok(name) => name,
        Err(refusal) => return Answer::Code(refusal),
    };
    if let Some(refusal) = k.caller_refusal(g, by, Access::Store, a[3], a[4]) {
        return Answer::Code(refusal);
    }
    if let Some(refusal) = sizes_refusal(a[2], a[4]) {
        return Answer::Code(refusal);
    }
    place(k, g, o, name, a[2], a[4]);
    Answer::Code(Code::SUCCESS)
}

/// Why a queue can't have these sizes.
fn sizes_refusal(words: u32, size: u32) -> Option<Code>
    ensures value { result ≡ sizes_refusal words size }
    ensures shape { IfNone result (IsShape words (size / (4 * words))) }
{
    if words < 1 || words > 16 {
        return Some(Code::SIZE_ERROR);
    }
    if size > 4096 || size < 4 * words {
        Some(Code::SIZE_ERROR)
    } else {
        None
    }
}

/// A queue is made in an Empty slot of its kind, for as many messages as the area holds.
fn place(k: &mut Kernel, g: &Guard, o: ObjNo, name: Name, words: u32, size: u32)
    requires serves { Serves k.old g.now }
    requires empty { is_in Empty (slot k.old.objects o) ≡ true }
    requires kind { is_kind Kind.Queue (slot k.old.objects o) ≡ true }
    requires name { All (λ b. b ≢ 0) name }
    requires shape { IsShape words (size / (4 * words)) }
    ensures after { k.new ≡ queue_placed k.old o name words (size / (4 * words)) }
    ensures serves { Serves k.new g.now }
{
    what_is_in_an_object_changes();
    let _ = &g;
    let capacity = size / (4 * words);
    k.objects.make_live(o, name);
    k.queues.create(o, words, capacity);
}

/// `queue_delete(a0)`: QUEUE_ERROR, then CALLER_ERROR unless the module owns the queue. Whoever waits
/// for it gets DELETED.
#[tactic(auto, unfolding(crate::specs::QueueRows::queue_delete_row))]
pub fn queue_delete(k: &mut Kernel, g: &mut Guard, by: ThreadNo, a: &Args) -> Answer
    requires serves { Serves k.old g.old }
    requires runs { k.old.ready.run ≡ Some by }
    ensures kernel { k.new ≡ (queue_delete_row k.old g.old by a.now).change.kernel }
    ensures memory { g.new ≡ (queue_delete_row k.old g.old by a.now).change.memory }
    ensures answer { result ≡ (queue_delete_row k.old g.old by a.now).answer }
    ensures serves { Serves k.new g.new }
{
    let Some(o) = k.named(by, a[0], Kind::Queue) else {
        return Answer::Code(Code::QUEUE_ERROR);
    };
    if let Some(refusal) = k.owner_refusal(by, o) {
        return Answer::Code(refusal);
    }
    remove(k, g, o);
    Answer::Code(Code::SUCCESS)
}

/// `queue_flush(a0)`: QUEUE_ERROR. All messages go; whoever waits to send gets SUCCESS, in order, and
/// its message goes too.
#[tactic(auto, unfolding(crate::specs::QueueRows::queue_flush_row))]
pub fn queue_flush(k: &mut Kernel, g: &mut Guard, by: ThreadNo, a: &Args) -> Answer
    requires serves { Serves k.old g.old }
    requires runs { k.old.ready.run ≡ Some by }
    ensures kernel { k.new ≡ (queue_flush_row k.old g.old by a.now).change.kernel }
    ensures memory { g.new ≡ (queue_flush_row k.old g.old by a.now).change.memory }
    ensures answer { result ≡ (queue_flush_row k.old g.old by a.now).answer }
    ensures serves { Serves k.new g.new }
{
    let Some(o) = k.named(by, a[0], Kind::Queue) else {
        return Answer::Code(Code::QUEUE_ERROR);
    };
    empty(k, g, o);
    Answer::Code(Code::SUCCESS)
}

/// The waits of all senders end, and then all messages of a queue go.
#[tactic(auto, unfolding(crate::specs::QueueRows::emptied))]
fn empty(k: &mut Kernel, g: &mut Guard, o: ObjNo)
    requires serves { Serves k.old g.old }
    requires queue { is_of k.old.objects Kind.Queue o ≡ true }
    ensures kernel { k.new ≡ (emptied k.old g.old o).kernel }
    ensures memory { g.new ≡ (emptied k.old g.old o).memory }
    ensures serves { Serves k.new g.new }
{
    end_senders(k, g, o);
    flush(k, g, o);
}

/// The waits of all senders end as they were asked to, in order.
fn end_senders(k: &mut Kernel, g: &mut Guard, o: ObjNo)
    requires serves { Serves k.old g.old }
    ensures kernel { k.new ≡ (all_ended End.Satisfied (senders k.old o) k.old g.old).kernel }
    ensures memory { g.new ≡ (all_ended End.Satisfied (senders k.old o) k.old g.old).memory }
    ensures none { senders k.new o ≡ [] }
    ensures serves { Serves k.new g.new }
{
    what_is_in_an_object_changes();
    all_ends_keep_serving();
    if first_sender(k, o).is_some() {
        k.end_all(g, o, End::Satisfied);
    }
}

/// All messages of a queue go, to which nobody waits to send.
fn flush(k: &mut Kernel, g: &Guard, o: ObjNo)
    requires serves { Serves k.old g.now }
    requires none { senders k.old o ≡ [] }
    ensures after { k.new ≡ record k.old { queues = flushed k.old.queues o } }
    ensures serves { Serves k.new g.now }
{
    what_is_in_an_object_changes();
    let _ = &g;
    k.queues.flush(o);
}

/// `queue_prioritize(a0)`: QUEUE_ERROR. The waiter of the least effective priority goes first.
#[tactic(auto, unfolding(crate::specs::QueueRows::queue_prioritize_row))]
pub fn queue_prioritize(k: &mut Kernel, g: &mut Guard, by: ThreadNo, a: &Args) -> Answer
    requires serves { Serves k.old g.old }
    requires runs { k.old.ready.run ≡ Some by }
    ensures kernel { k.new ≡ (queue_prioritize_row k.old g.old by a.now).change.kernel }
    ensures memory { g.new ≡ (queue_prioritize_row k.old g.old by a.now).change.memory }
    ensures answer { result ≡ (queue_prioritize_row k.old g.old by a.now).answer }
    ensures serves { Serves k.new g.new }
{
    let Some(o) = k.named(by, a[0], Kind::Queue) else {
        return Answer::Code(Code::QUEUE_ERROR);
    };
    prioritize(k, g, o);
    Answer::Code(Code::SUCCESS)
}

/// `queue_info_get(a0, to)`: QUEUE_ERROR, then a refusal of `to`; how many messages there are, the
/// room for more and the number of waiters are written there.
#[tactic(auto, unfolding(crate::specs::QueueRows::queue_info_get_row))]
pub fn queue_info_get(k: &mut Kernel, g: &mut Guard, by: ThreadNo, a: &Args) -> Answer
    requires serves { Serves k.old g.old }
    requires runs { k.old.ready.run ≡ Some by }
    ensures kernel { k.new ≡ (queue_info_get_row k.old g.old by a.now).change.kernel }
    ensures memory { g.new ≡ (queue_info_get_row k.old g.old by a.now).change.memory }
    ensures answer { result ≡ (queue_info_get_row k.old g.old by a.now).answer }
    ensures serves { Serves k.new g.new }
{
    let Some(o) = k.named(by, a[0], Kind::Queue) else {
        return Answer::Code(Code::QUEUE_ERROR);
    };
    if let Some(refusal) = k.caller_refusal(g, by, Access::Store, a[1], 12) {
        return Answer::Code(refusal);
    }
    let info = queue_info(k, o);
    put_info(k, g, by, a[1], &info);
    Answer::Code(Code::SUCCESS)
}

/// What is read of a queue: how many messages there are, the room for more, and how many wait for it.
fn queue_info(k: &Kernel, o: ObjNo) -> [u32; 3]
    ensures { result ≡ queue_info k.now o }
{
    [
        k.queues.len(o),
        k.queues.room(o),
        u32::from(k.waits.len(On::Object(o))),
    ]
}
