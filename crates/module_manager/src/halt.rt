//! The halt of a module: its threads end, then its objects and slots, then its grants.
//!
//! Each of these goes by number over all slots. Between the first two its mutexes will be handed over;
//! there are none yet. The waits of its own threads end with them, so those that end with its objects
//! are of other modules' threads.
ghost use Rattle.std.specs.Prelude.{◌≡◌};
ghost use Rattle.kernel_state.specs.Serves.{Serves};
ghost use Rattle.module_manager.specs.Halt.{AreOver, clearing, ending, halted, removed_by_kind, slots_cleared, threads_ended, ties_ended, ungranting};

use crate::laws::{a_halt_ends_its_module, a_halt_spares_other_modules};
use kernel_state::{Kernel, end_thread};
use object_grants::{SLOTS, SlotState};
use region_guard::Guard;
use tx_types::{ModNo, ObjNo, State, ThreadNo};

/// Ends all that a module has in the kernel: its threads, its object slots, and what it was granted.
pub(crate) fn halt(k: &mut Kernel, g: &mut Guard, m: ModNo)
    requires { Serves k.old g.old }
    ensures kernel { k.new ≡ (halted k.old g.old m).kernel }
    ensures memory { g.new ≡ (halted k.old g.old m).memory }
    ensures same { g.new ≡ g.old }
    ensures serves { Serves k.new g.new }
{
    a_halt_spares_other_modules();
    a_halt_ends_its_module();
    end_threads(k, g, m);
    clear_slots(k, g, m);
    end_ties(k, g, m);
}

/// Ends each thread of a module, by number.
#[tactic(auto, using(crate::proofs::Folds::changed_below_more, crate::proofs::Folds::changed_below_none))]
fn end_threads(k: &mut Kernel, g: &mut Guard, m: ModNo)
    requires { Serves k.old g.old }
    ensures kernel { k.new ≡ (threads_ended k.old g.old m).kernel }
    ensures memory { g.new ≡ (threads_ended k.old g.old m).memory }
    ensures serves { Serves k.new g.new }
    ensures over { AreOver k.new m }
{
    a_halt_ends_its_module();
    for t in 0..SLOTS {
        end_one(k, g, m, ObjNo::new(t));
    }
}

/// Ends a thread, where it is the module's.
fn end_one(k: &mut Kernel, g: &mut Guard, m: ModNo, t: ThreadNo)
    requires { Serves k.old g.old }
    ensures kernel { k.new ≡ (ending m k.old g.old t).kernel }
    ensures memory { g.new ≡ (ending m k.old g.old t).memory }
    ensures serves { Serves k.new g.new }
{
    if k.is_thread(t) && k.module_of(t) == m {
        end_thread(k, g, t, State::Terminated);
    }
}

/// Frees each slot of a module whose threads are over, by number.
#[tactic(auto, using(crate::proofs::Folds::changed_below_more, crate::proofs::Folds::changed_below_none))]
fn clear_slots(k: &mut Kernel, g: &mut Guard, m: ModNo)
    requires serves { Serves k.old g.old }
    requires over { AreOver k.old m }
    ensures kernel { k.new ≡ (slots_cleared k.old g.old m).kernel }
    ensures memory { g.new ≡ (slots_cleared k.old g.old m).memory }
{
    for o in 0..SLOTS {
        clear_one(k, g, m, ObjNo::new(o));
    }
}

/// Frees a slot, where it is the module's; an object in it is removed first.
fn clear_one(k: &mut Kernel, g: &mut Guard, m: ModNo, o: ObjNo)
    requires serves { Serves k.old g.old }
    requires over { AreOver k.old m }
    ensures kernel { k.new ≡ (clearing m k.old g.old o).kernel }
    ensures memory { g.new ≡ (clearing m k.old g.old o).memory }
    ensures serves { Serves k.new g.new }
    ensures over { AreOver k.new m }
{
    a_halt_ends_its_module();
    if k.objects.may_delete(m, o) {
        remove_by_kind(k, g, o);
        k.objects.free(o);
    }
}

/// Removes the object of a slot, where there is one, by its kind: nobody waits for a thread, and the
/// waits for any other end.
fn remove_by_kind(k: &mut Kernel, g: &mut Guard, o: ObjNo)
    requires { Serves k.old g.old }
    ensures kernel { k.new ≡ (removed_by_kind k.old g.old o).kernel }
    ensures memory { g.new ≡ (removed_by_kind k.old g.old o).memory }
{
    if k.is_thread(o) {
        k.remove_thread(o);
    } else if k.objects.slot(o).is_in(SlotState::Live) {
        k.remove_object(g, o);
    }
}

/// Ends what a module was granted, by number.
#[tactic(auto, using(crate::proofs::Folds::changed_below_more, crate::proofs::Folds::changed_below_none))]
fn end_ties(k: &mut Kernel, g: &mut Guard, m: ModNo)
    ensures kernel { k.new ≡ (ties_ended k.old g.old m).kernel }
    ensures memory { g.new ≡ (ties_ended k.old g.old m).memory }
{
    for o in 0..SLOTS {
        end_grant(k, g, m, ObjNo::new(o));
    }
}

/// Ends what a module was granted of an object.
fn end_grant(k: &mut Kernel, g: &mut Guard, m: ModNo, o: ObjNo)
    ensures kernel { k.new ≡ (ungranting m k.old g.old o).kernel }
    ensures memory { g.new ≡ (ungranting m k.old g.old o).memory }
{
    let _ = &g;
    k.objects.revoke(m, o);
}
