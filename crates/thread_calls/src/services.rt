//! The call of each service of this crate, by its number.
//!
//! Registers aren't touched here: arguments are given, and the answer is given back.
ghost use Rattle.std.specs.Prelude.{◌≡◌, Some};
ghost use Rattle.std.specs.Option.{option_map};
ghost use Rattle.kernel_state.specs.Room.{HasRoom};
ghost use Rattle.kernel_state.specs.Row.{called, row_of};
ghost use Rattle.kernel_state.specs.Serves.{Serves};
ghost use Rattle.thread_calls.specs.Services.{rows};

use crate::create::thread_create;
use crate::numbers::{
    thread_info_get, thread_preemption_change, thread_priority_change, thread_time_slice_change,
};
use crate::objects::{object_allocate, object_deallocate, object_pointer_get};
use crate::threads::{
    thread_complete, thread_delete, thread_identify, thread_relinquish, thread_reset,
    thread_resume, thread_suspend, thread_terminate,
};
use crate::waits::{thread_sleep, thread_wait_abort};
use kernel_state::{Answer, Args, Kernel};
use region_guard::Guard;
use tx_types::ThreadNo;

/// Calls the service of a number. None where no row of this crate has the number, and then nothing
/// changes.
pub fn serve(number: u32, k: &mut Kernel, g: &mut Guard, by: ThreadNo, a: &Args) -> Option<Answer>
    requires serves { Serves k.old g.old }
    requires runs { k.old.ready.run ≡ Some by }
    requires room { HasRoom k.old }
    ensures kernel { k.new ≡ (called (row_of number rows) k.old g.old by a.now).change.kernel }
    ensures memory { g.new ≡ (called (row_of number rows) k.old g.old by a.now).change.memory }
    ensures answer { result
        ≡ option_map (λ r. (r.does k.old g.old by a.now).answer) (row_of number rows) }
    ensures serves { Serves k.new g.new }
{
    match number {
        0x01 => Some(object_allocate(k, g, by, a)),
        0x02 => Some(object_deallocate(k, g, by, a)),
        0x03 => Some(object_pointer_get(k, g, by, a)),
        0x10 => Some(thread_create(k, g, by, a)),
        0x11 => Some(thread_delete(k, g, by, a)),
        0x12 => Some(thread_terminate(k, g, by, a)),
        0x13 => Some(thread_suspend(k, g, by, a)),
        0x14 => Some(thread_resume(k, g, by, a)),
        0x15 => Some(thread_sleep(k, g, by, a)),
        0x16 => Some(thread_relinquish(k, g, by, a)),
        0x17 => Some(thread_identify(k, g, by, a)),
        0x18 => Some(thread_info_get(k, g, by, a)),
        0x19 => Some(thread_preemption_change(k, g, by, a)),
        0x1A => Some(thread_priority_change(k, g, by, a)),
        0x1B => Some(thread_time_slice_change(k, g, by, a)),
        0x1C => Some(thread_wait_abort(k, g, by, a)),
        0x1D => Some(thread_reset(k, g, by, a)),
        0x1F => Some(thread_complete(k, g, by, a)),
        _ => None,
    }
}
