//! What objects of all kinds share: their removal, the order of who waits for them, and where it is
//! written what is read of them.
ghost use Rattle.std.specs.Prelude.{◌≡◌, ◌*◌, length, true, false};
ghost use Rattle.call_arguments.specs.Words.{with_words};
ghost use Rattle.object_grants.specs.Slot.{is_in};
ghost use Rattle.object_grants.specs.Table.{slot};
ghost use Rattle.object_grants.specs.declared.slot.SlotState.TheVariants.{Live};
ghost use Rattle.region_guard.specs.Memory.{may};
ghost use Rattle.kernel_state.specs.Kernel.{is_thread, module_of};
ghost use Rattle.kernel_state.specs.Objects.{prioritized, removed};
ghost use Rattle.kernel_state.specs.Serves.{Serves};

use call_arguments::put_words;
use kernel_state::Kernel;
use kernel_state::laws::a_promised_result_may_be_stored;
use region_guard::{Access, Guard};
use tx_types::{ObjNo, ThreadNo};

/// Removes an object: whoever waits for it gets DELETED, in order; what is in it, its grants and its
/// name end, and its slot is Empty.
pub fn remove(k: &mut Kernel, g: &mut Guard, o: ObjNo)
    requires serves { Serves k.old g.old }
    requires live { is_in Live (slot k.old.objects o) ≡ true }
    requires other { is_thread k.old o ≡ false }
    ensures kernel { k.new ≡ (removed k.old g.old o).kernel }
    ensures memory { g.new ≡ (removed k.old g.old o).memory }
    ensures serves { Serves k.new g.new }
{
    k.remove_object(g, o);
}

/// The waiter of the least effective priority, the first of equals, goes first.
pub(crate) fn prioritize(k: &mut Kernel, g: &Guard, o: ObjNo)
    requires serves { Serves k.old g.now }
    ensures after { k.new ≡ prioritized k.old o }
    ensures serves { Serves k.new g.now }
{
    let _ = &g;
    k.prioritize(o);
}

/// Writes what was read of an object where the caller asked.
pub(crate) fn put_info(k: &Kernel, g: &mut Guard, by: ThreadNo, x: u32, info: &[u32])
    requires serves { Serves k.now g.old }
    requires allowed { may g.old (module_of k.now by) Access.Store x (4 * length info.now) ≡ true }
    ensures after { g.new ≡ with_words g.old x info.now }
    ensures serves { Serves k.now g.new }
{
    a_promised_result_may_be_stored();
    put_words(g, k.module_of(by), x, info);
}
