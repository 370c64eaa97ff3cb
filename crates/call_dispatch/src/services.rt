//! The call of a service by its number, in whichever crate it is.
//!
//! A number without a row is refused here; every other refusal is the service's own.
ghost use Rattle.std.specs.Prelude.{◌≡◌, Some};
ghost use Rattle.kernel_state.specs.Room.{HasRoom};
ghost use Rattle.kernel_state.specs.Serves.{Serves};
ghost use Rattle.call_dispatch.specs.Services.{call_row};

use kernel_state::{Answer, Args, Kernel};
use region_guard::Guard;
use tx_types::{Code, ThreadNo};

/// Calls the service of a number. FEATURE_NOT_ENABLED comes where the number has no row, and then
/// nothing changes.
#[tactic(auto, unfolding(crate::specs::Services::call_row, crate::specs::Services::row_asked))]
pub(crate) fn call(k: &mut Kernel, g: &mut Guard, by: ThreadNo, number: u32, a: &Args) -> Answer
    requires serves { Serves k.old g.old }
    requires runs { k.old.ready.run ≡ Some by }
    requires room { HasRoom k.old }
    ensures kernel { k.new ≡ (call_row number k.old g.old by a.now).change.kernel }
    ensures memory { g.new ≡ (call_row number k.old g.old by a.now).change.memory }
    ensures answer { result ≡ (call_row number k.old g.old by a.now).answer }
    ensures serves { Serves k.new g.new }
{
    if let Some(answer) = thread_calls::serve(number, k, g, by, a) {
        return answer;
    }
    if let Some(answer) = object_calls::serve(number, k, g, by, a) {
        return answer;
    }
    Answer::Code(Code::FEATURE_NOT_ENABLED)
}
