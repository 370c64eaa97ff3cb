//! The ECALL of a thread: what it asks for is done, and it gets its answer.
//!
//! The caller's pc is past its ECALL already; a0 is all that is written here, and of the caller alone.
ghost use Rattle.std.specs.Prelude.{◌≡◌, Some};
ghost use Rattle.kernel_state.specs.Room.{HasRoom};
ghost use Rattle.kernel_state.specs.Serves.{Serves};
ghost use Rattle.kernel_state.specs.Sound.{IsSound};
ghost use Rattle.kernel_state.specs.Kernel.{thread};
ghost use Rattle.call_dispatch.specs.Caller.{ChangesA0Alone};
ghost use Rattle.call_dispatch.specs.Ecall.{with_answer, dispatched};

use crate::laws::a_call_changes_its_a0_alone;
use crate::services::call;
use kernel_state::{Answer, Kernel, arguments, number_asked};
use region_guard::Guard;
use tx_types::ThreadNo;

/// Serves the ECALL of the running thread: the service that its a7 names is called with its a0 to a6,
/// and a0 gets the status or the value. Where the number has no row a0 gets 0xFF, and nothing else
/// changes. A caller that waits, or has ended, keeps its a0.
#[tactic(auto, unfolding(crate::specs::Ecall::dispatched))]
pub fn dispatch(k: &mut Kernel, g: &mut Guard, t: ThreadNo)
    requires serves { Serves k.old g.old }
    requires runs { k.old.ready.run ≡ Some t }
    requires room { HasRoom k.old }
    ensures kernel { k.new ≡ (dispatched k.old g.old t).change.kernel }
    ensures memory { g.new ≡ (dispatched k.old g.old t).change.memory }
    ensures caller { ChangesA0Alone (thread k.old t).hart (thread k.new t).hart }
    ensures serves { Serves k.new g.new }
{
    a_call_changes_its_a0_alone();
    let hart = k.hart(t);
    let number = number_asked(hart);
    let a = arguments(hart);
    let answer = call(k, g, t, number, &a);
    put_answer(k, t, answer);
}

/// Puts an answer into a thread's a0, where there is one.
#[tactic(auto, unfolding(crate::specs::Ecall::with_answer))]
fn put_answer(k: &mut Kernel, t: ThreadNo, answer: Answer)
    requires sound { IsSound k.old }
    ensures after { k.new ≡ with_answer k.old t answer }
    ensures sound { IsSound k.new }
{
    match answer {
        Answer::Code(code) => k.set_a0(t, u32::from(code.number())),
        Answer::Value(value) => k.set_a0(t, value),
        Answer::Waits | Answer::Ended => {}
    }
}
