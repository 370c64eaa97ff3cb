//! Instances of semaphores: one is got, or put, by a service or by a device.
//!
//! Whether the semaphore may be named was asked before. No byte of memory changes: who waits for an
//! instance asked for no words.
ghost use Rattle.std.specs.Prelude.{◌≡◌, [], Some, true};
ghost use Rattle.kernel_state.specs.Contents.{is_of};
ghost use Rattle.kernel_state.specs.Objects.{waiters_of};
ghost use Rattle.kernel_state.specs.Outcome.{done};
ghost use Rattle.kernel_state.specs.Room.{HasRoom};
ghost use Rattle.kernel_state.specs.Serves.{Serves};
ghost use Rattle.object_calls.specs.SemaRows.{counted, getting, instance_put, one_more};

use crate::waits::{satisfy, wait_for};
use kernel_state::laws::what_is_in_an_object_changes;
use kernel_state::{Answer, Kernel};
use region_guard::Guard;
use suspend_lists::{Asks, On};
use tx_types::{Code, Kind, Message, ObjNo, ThreadNo};

/// A semaphore for which nobody waits gets another count.
fn set_count(k: &mut Kernel, g: &Guard, o: ObjNo, n: u32)
    requires serves { Serves k.old g.now }
    requires semaphore { is_of k.old.objects Kind.Semaphore o ≡ true }
    requires free { waiters_of k.old o ≡ [] }
    ensures after { k.new ≡ counted k.old o n }
    ensures serves { Serves k.new g.now }
{
    what_is_in_an_object_changes();
    let _ = &g;
    k.semas.set(o, n);
}

/// The caller gets an instance where there is one. Else it waits, or NO_INSTANCE comes where it
/// doesn't.
#[tactic(auto, unfolding(crate::specs::SemaRows::getting))]
pub(crate) fn get_instance(
    k: &mut Kernel,
    g: &mut Guard,
    by: ThreadNo,
    o: ObjNo,
    ticks: u32,
) -> Answer
    requires serves { Serves k.old g.old }
    requires runs { k.old.ready.run ≡ Some by }
    requires room { HasRoom k.old }
    requires semaphore { is_of k.old.objects Kind.Semaphore o ≡ true }
    ensures kernel { k.new ≡ (getting k.old g.old by o ticks).change.kernel }
    ensures memory { g.new ≡ (getting k.old g.old by o ticks).change.memory }
    ensures answer { result ≡ (getting k.old g.old by o ticks).answer }
    ensures serves { Serves k.new g.new }
{
    what_is_in_an_object_changes();
    let count = k.semas.get(o);
    if count == 0 {
        wait_for(k, g, by, o, Asks::Instance, ticks)
    } else {
        set_count(k, g, o, count - 1);
        Answer::Code(Code::SUCCESS)
    }
}

/// Puts an instance of a semaphore: the first waiter gets it, and else the count is one more, from
/// 2^32 - 1 to 0. SUCCESS always comes.
pub fn put_object(k: &mut Kernel, g: &mut Guard, o: ObjNo) -> Code
    requires serves { Serves k.old g.old }
    requires semaphore { is_of k.old.objects Kind.Semaphore o ≡ true }
    ensures kernel { k.new ≡ (done (instance_put k.old g.old o)).change.kernel }
    ensures memory { g.new ≡ (done (instance_put k.old g.old o)).change.memory }
    ensures answer { Answer.Code result ≡ (done (instance_put k.old g.old o)).answer }
    ensures serves { Serves k.new g.new }
{
    put_instance(k, g, o);
    Code::SUCCESS
}

/// Puts an instance of a semaphore.
#[tactic(auto, unfolding(crate::specs::SemaRows::instance_put))]
fn put_instance(k: &mut Kernel, g: &mut Guard, o: ObjNo)
    requires serves { Serves k.old g.old }
    requires semaphore { is_of k.old.objects Kind.Semaphore o ≡ true }
    ensures kernel { k.new ≡ (instance_put k.old g.old o).kernel }
    ensures memory { g.new ≡ (instance_put k.old g.old o).memory }
    ensures serves { Serves k.new g.new }
{
    what_is_in_an_object_changes();
    match k.waits.first(On::Object(o)) {
        Some(t) => satisfy(k, g, t, &Message::empty()),
        None => {
            let count = k.semas.get(o);
            set_count(k, g, o, count.wrapping_add(1));
        }
    }
}
