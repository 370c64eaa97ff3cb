//! The resumption of a thread, by a service or by a device.
//!
//! Whether the thread may be named was asked before; no byte of memory changes.
ghost use Rattle.std.specs.Prelude.{◌≡◌, true};
ghost use Rattle.kernel_state.specs.Kernel.{is_thread};
ghost use Rattle.kernel_state.specs.Serves.{Serves};
ghost use Rattle.thread_calls.specs.ThreadRows.{resumption, starting};

use kernel_state::laws::a_change_of_state_keeps_sound;
use kernel_state::{Answer, Kernel, start_thread};
use region_guard::Guard;
use tx_types::{Code, ObjNo, State, ThreadNo};

/// Resumes a thread: a suspension that is held is lifted (SUSPEND_LIFTED), and else a suspended
/// thread is started. RESUME_ERROR comes where it is neither.
#[tactic(auto, unfolding(crate::specs::ThreadRows::resumption))]
pub fn resume_object(k: &mut Kernel, g: &mut Guard, o: ObjNo) -> Code
    requires serves { Serves k.old g.old }
    requires live { is_thread k.old o ≡ true }
    ensures kernel { k.new ≡ (resumption k.old g.old o).change.kernel }
    ensures memory { g.new ≡ (resumption k.old g.old o).change.memory }
    ensures answer { Answer.Code result ≡ (resumption k.old g.old o).answer }
    ensures serves { Serves k.new g.new }
{
    a_change_of_state_keeps_sound();
    if k.thread(o).held {
        k.set_held(o, false);
        Code::SUSPEND_LIFTED
    } else {
        start_suspended(k, g, o)
    }
}

/// Starts a thread. RESUME_ERROR comes where it isn't suspended.
#[tactic(auto, unfolding(crate::specs::ThreadRows::starting))]
fn start_suspended(k: &mut Kernel, g: &mut Guard, t: ThreadNo) -> Code
    requires serves { Serves k.old g.old }
    requires live { is_thread k.old t ≡ true }
    ensures kernel { k.new ≡ (starting k.old g.old t).change.kernel }
    ensures memory { g.new ≡ (starting k.old g.old t).change.memory }
    ensures answer { Answer.Code result ≡ (starting k.old g.old t).answer }
    ensures serves { Serves k.new g.new }
{
    if k.state(t) == State::Suspended {
        start_thread(k, g, t);
        Code::SUCCESS
    } else {
        Code::RESUME_ERROR
    }
}
