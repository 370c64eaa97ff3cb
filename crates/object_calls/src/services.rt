//! The call of each service of this crate, by its number.
//!
//! Registers aren't touched here: arguments are given, and the answer is given back.
ghost use Rattle.std.specs.Prelude.{◌≡◌, Some};
ghost use Rattle.std.specs.Option.{option_map};
ghost use Rattle.kernel_state.specs.Room.{HasRoom};
ghost use Rattle.kernel_state.specs.Row.{called, row_of};
ghost use Rattle.kernel_state.specs.Serves.{Serves};
ghost use Rattle.object_calls.specs.Services.{rows};

use crate::messages::{queue_front_send, queue_receive, queue_send};
use crate::queues::{queue_create, queue_delete, queue_flush, queue_info_get, queue_prioritize};
use crate::semaphores::{
    semaphore_ceiling_put, semaphore_create, semaphore_delete, semaphore_get, semaphore_info_get,
    semaphore_prioritize, semaphore_put,
};
use kernel_state::{Answer, Args, Kernel};
use region_guard::Guard;
use tx_types::ThreadNo;

/// Calls the service of a number. None where no row of this crate has the number, and then nothing
/// changes.
pub fn serve(number: u32, k: &mut Kernel, g: &mut Guard, by: ThreadNo, a: &Args) -> Option<Answer>
    requires serves { Serves k.old g.old }
    requires runs { k.old.ready.run ≡ Some by }
    requires room { HasRoom k.old }
    ensures kernel { k.new ≡ (called (row_of number rows) k.old g.old by a.now).change.kernel }
    ensures memory { g.new ≡ (called (row_of number rows) k.old g.old by a.now).change.memory }
    ensures answer { result
        ≡ option_map (λ r. (r.does k.old g.old by a.now).answer) (row_of number rows) }
    ensures serves { Serves k.new g.new }
{
    match number {
        0x20 => Some(queue_create(k, g, by, a)),
        0x21 => Some(queue_delete(k, g, by, a)),
        0x22 => Some(queue_send(k, g, by, a)),
        0x23 => Some(queue_front_send(k, g, by, a)),
        0x24 => Some(queue_receive(k, g, by, a)),
        0x25 => Some(queue_flush(k, g, by, a)),
        0x26 => Some(queue_prioritize(k, g, by, a)),
        0x27 => Some(queue_info_get(k, g, by, a)),
        0x30 => Some(semaphore_create(k, g, by, a)),
        0x31 => Some(semaphore_delete(k, g, by, a)),
        0x32 => Some(semaphore_get(k, g, by, a)),
        0x33 => Some(semaphore_put(k, g, by, a)),
        0x34 => Some(semaphore_ceiling_put(k, g, by, a)),
        0x35 => Some(semaphore_prioritize(k, g, by, a)),
        0x36 => Some(semaphore_info_get(k, g, by, a)),
        _ => None,
    }
}
