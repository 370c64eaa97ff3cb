//! The services on object slots (ThreadX Modules User Guide, "Module APIs").
//!
//! A refused call changes nothing, and a reference is written only where the caller may store it.
//! What makes a slot an object, and what removes it, is left to the services of its kind.
ghost use Rattle.std.specs.Prelude.{◌≡◌, Some, true};
ghost use Rattle.region_guard.specs.Memory.{may};
ghost use Rattle.object_grants.specs.Slot.{is_in};
ghost use Rattle.object_grants.specs.Table.{slot};
ghost use Rattle.object_grants.specs.declared.slot.SlotState.TheVariants.{Live};
ghost use Rattle.kernel_state.specs.Kernel.{module_of};
ghost use Rattle.kernel_state.specs.Serves.{Serves};
ghost use Rattle.thread_calls.specs.ObjectRows.{allocation, granting, object_allocate_row, object_deallocate_row, object_pointer_get_row};

use crate::laws::a_change_of_slots_keeps_serving;
use call_arguments::{name_at, put_word};
use kernel_state::laws::a_promised_result_may_be_stored;
use kernel_state::{Answer, Args, Kernel};
use region_guard::{Access, Guard};
use tx_types::{Code, Kind, ObjNo, ObjRef, ThreadNo};

/// `object_allocate(kind, to)`: OPTION_ERROR where there is no such kind, then a refusal of `to`, then
/// NO_MEMORY where no slot is usable. The reference is written.
#[tactic(auto, unfolding(crate::specs::ObjectRows::object_allocate_row))]
pub fn object_allocate(k: &mut Kernel, g: &mut Guard, by: ThreadNo, a: &Args) -> Answer
    requires serves { Serves k.old g.old }
    requires runs { k.old.ready.run ≡ Some by }
    ensures kernel { k.new ≡ (object_allocate_row k.old g.old by a.now).change.kernel }
    ensures memory { g.new ≡ (object_allocate_row k.old g.old by a.now).change.memory }
    ensures answer { result ≡ (object_allocate_row k.old g.old by a.now).answer }
    ensures serves { Serves k.new g.new }
{
    let Some(kind) = Kind::of(a[0]) else {
        return Answer::Code(Code::OPTION_ERROR);
    };
    if let Some(refusal) = k.caller_refusal(g, by, Access::Store, a[1], 4) {
        return Answer::Code(refusal);
    }
    allocate(k, g, by, kind, a[1])
}

/// Allocates the lowest usable slot, and writes its reference.
#[tactic(auto, unfolding(crate::specs::ObjectRows::allocation))]
fn allocate(k: &mut Kernel, g: &mut Guard, by: ThreadNo, kind: Kind, to: u32) -> Answer
    requires serves { Serves k.old g.old }
    requires allowed { may g.old (module_of k.old by) Access.Store to 4 ≡ true }
    ensures kernel { k.new ≡ (allocation k.old g.old by kind to).change.kernel }
    ensures memory { g.new ≡ (allocation k.old g.old by kind to).change.memory }
    ensures answer { result ≡ (allocation k.old g.old by kind to).answer }
    ensures serves { Serves k.new g.new }
{
    a_promised_result_may_be_stored();
    a_change_of_slots_keeps_serving();
    let m = k.module_of(by);
    match k.objects.allocate(m, kind) {
        Some(r) => {
            put_word(g, m, to, r.word());
            Answer::Code(Code::SUCCESS)
        }
        None => Answer::Code(Code::NO_MEMORY),
    }
}

/// `object_deallocate(a0)`: PTR_ERROR unless a0 names an Empty slot of the module's own, which is
/// freed.
#[tactic(auto, unfolding(crate::specs::ObjectRows::object_deallocate_row))]
pub fn object_deallocate(k: &mut Kernel, g: &mut Guard, by: ThreadNo, a: &Args) -> Answer
    requires serves { Serves k.old g.old }
    requires runs { k.old.ready.run ≡ Some by }
    ensures kernel { k.new ≡ (object_deallocate_row k.old g.old by a.now).change.kernel }
    ensures memory { g.new ≡ (object_deallocate_row k.old g.old by a.now).change.memory }
    ensures answer { result ≡ (object_deallocate_row k.old g.old by a.now).answer }
    ensures serves { Serves k.new g.new }
{
    a_change_of_slots_keeps_serving();
    let m = k.module_of(by);
    if k.objects.deallocate(m, ObjRef::new(a[0])) {
        Answer::Code(Code::SUCCESS)
    } else {
        Answer::Code(Code::PTR_ERROR)
    }
}

/// `object_pointer_get(kind, name, to)`: OPTION_ERROR where there is no such kind, then a refusal of
/// the name, then of `to`, then NO_INSTANCE where no object has this kind and name. The lowest such
/// object is granted, and its reference is written.
#[tactic(auto, unfolding(crate::specs::ObjectRows::object_pointer_get_row))]
pub fn object_pointer_get(k: &mut Kernel, g: &mut Guard, by: ThreadNo, a: &Args) -> Answer
    requires serves { Serves k.old g.old }
    requires runs { k.old.ready.run ≡ Some by }
    ensures kernel { k.new ≡ (object_pointer_get_row k.old g.old by a.now).change.kernel }
    ensures memory { g.new ≡ (object_pointer_get_row k.old g.old by a.now).change.memory }
    ensures answer { result ≡ (object_pointer_get_row k.old g.old by a.now).answer }
    ensures serves { Serves k.new g.new }
{
    let Some(kind) = Kind::of(a[0]) else {
        return Answer::Code(Code::OPTION_ERROR);
    };
    let name = match name_at(g, k.module_of(by), a[1]) {
        Ok(name) => name,
        Err(refusal) => return Answer::Code(refusal),
    };
    if let Some(refusal) = k.caller_refusal(g, by, Access::Store, a[2], 4) {
        return Answer::Code(refusal);
    }
    match k.objects.find(kind, &name) {
        Some(o) => grant(k, g, by, o, a[2]),
        None => Answer::Code(Code::NO_INSTANCE),
    }
}

/// Grants an object to the caller's module, and writes its reference.
#[tactic(auto, unfolding(crate::specs::ObjectRows::granting))]
fn grant(k: &mut Kernel, g: &mut Guard, by: ThreadNo, o: ObjNo, to: u32) -> Answer
    requires serves { Serves k.old g.old }
    requires live { is_in Live (slot k.old.objects o) ≡ true }
    requires allowed { may g.old (module_of k.old by) Access.Store to 4 ≡ true }
    ensures kernel { k.new ≡ (granting k.old g.old by o to).change.kernel }
    ensures memory { g.new ≡ (granting k.old g.old by o to).change.memory }
    ensures answer { result ≡ (granting k.old g.old by o to).answer }
    ensures serves { Serves k.new g.new }
{
    a_promised_result_may_be_stored();
    a_change_of_slots_keeps_serving();
    let m = k.module_of(by);
    let r = k.objects.ref_of(o);
    k.objects.grant(m, o);
    put_word(g, m, to, r.word());
    Answer::Code(Code::SUCCESS)
}
