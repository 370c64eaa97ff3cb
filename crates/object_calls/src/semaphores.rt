//! The services of counting semaphores (ThreadX User Guide, "Semaphore Services").
//!
//! A refused call changes nothing, and but for `semaphore_info_get` none of these services writes to
//! a module's memory.
ghost use Rattle.std.specs.Prelude.{◌≡◌, ◌≢◌, All, Some, true};
ghost use Rattle.object_grants.specs.Slot.{is_in, is_kind};
ghost use Rattle.object_grants.specs.Table.{slot};
ghost use Rattle.object_grants.specs.declared.slot.SlotState.TheVariants.{Empty};
ghost use Rattle.kernel_state.specs.ContentLaws.{semaphore_placed};
ghost use Rattle.kernel_state.specs.Room.{HasRoom};
ghost use Rattle.kernel_state.specs.Serves.{Serves};
ghost use Rattle.object_calls.specs.SemaRows.{ceiling_refusal, semaphore_create_row, semaphore_delete_row, semaphore_get_row, semaphore_put_row, semaphore_ceiling_put_row, semaphore_prioritize_row, semaphore_info_get_row, semaphore_info};

use crate::instances::{get_instance, put_object};
use crate::objects::{prioritize, put_info, remove};
use call_arguments::name_at;
use kernel_state::laws::what_is_in_an_object_changes;
use kernel_state::{Answer, Args, Kernel};
use region_guard::{Access, Guard};
use suspend_lists::On;
use tx_types::{Code, Kind, Name, ObjNo, ThreadNo};

/// `semaphore_create(a0, name, count)`: SEMAPHORE_ERROR unless a0 names an Empty semaphore slot of the
/// module's own, then a refusal of the name.
#[tactic(auto, unfolding(crate::specs::SemaRows::semaphore_create_row))]
pub fn semaphore_create(k: &mut Kernel, g: &mut Guard, by: ThreadNo, a: &Args) -> Answer
    requires serves { Serves k.old g.old }
    requires runs { k.old.ready.run ≡ Some by }
    ensures kernel { k.new ≡ (semaphore_create_row k.old g.old by a.now).change.kernel }
    ensures memory { g.new ≡ (semaphore_create_row k.old g.old by a.now).change.memory }
    ensures answer { result ≡ (semaphore_create_row k.old g.old by a.now).answer }
    ensures serves { Serves k.new g.new }
{
    let Some(o) = k.reserved(by, a[0], Kind::Semaphore) else {
        return Answer::Code(Code::SEMAPHORE_ERROR);
    };
    let name = match name_at(g, k.module_of(by), a[1]) {
        Ok(name) => name,
        Err(refusal) => return Answer::Code(refusal),
    };
    place(k, g, o, name, a[2]);
    Answer::Code(Code::SUCCESS)
}

/// A semaphore is made in an Empty slot of its kind.
fn place(k: &mut Kernel, g: &Guard, o: ObjNo, name: Name, count: u32)
    requires serves { Serves k.old g.now }
    requires empty { is_in Empty (slot k.old.objects o) ≡ true }
    requires kind { is_kind Kind.Semaphore (slot k.old.objects o) ≡ true }
    requires name { All (λ b. b ≢ 0) name }
    ensures after { k.new ≡ semaphore_placed k.old o name count }
    ensures serves { Serves k.new g.now }
{
    what_is_in_an_object_changes();
    let _ = &g;
    k.objects.make_live(o, name);
    k.semas.create(o, count);
}

/// `semaphore_delete(a0)`: SEMAPHORE_ERROR, then CALLER_ERROR unless the module owns the semaphore.
/// Whoever waits for it gets DELETED.
#[tactic(auto, unfolding(crate::specs::SemaRows::semaphore_delete_row))]
pub fn semaphore_delete(k: &mut Kernel, g: &mut Guard, by: ThreadNo, a: &Args) -> Answer
    requires serves { Serves k.old g.old }
    requires runs { k.old.ready.run ≡ Some by }
    ensures kernel { k.new ≡ (semaphore_delete_row k.old g.old by a.now).change.kernel }
    ensures memory { g.new ≡ (semaphore_delete_row k.old g.old by a.now).change.memory }
    ensures answer { result ≡ (semaphore_delete_row k.old g.old by a.now).answer }
    ensures serves { Serves k.new g.new }
{
    let Some(o) = k.named(by, a[0], Kind::Semaphore) else {
        return Answer::Code(Code::SEMAPHORE_ERROR);
    };
    if let Some(refusal) = k.owner_refusal(by, o) {
        return Answer::Code(refusal);
    }
    remove(k, g, o);
    Answer::Code(Code::SUCCESS)
}

/// `semaphore_get(a0, wait)`: SEMAPHORE_ERROR, then as `get_instance`.
#[tactic(auto, unfolding(crate::specs::SemaRows::semaphore_get_row))]
pub fn semaphore_get(k: &mut Kernel, g: &mut Guard, by: ThreadNo, a: &Args) -> Answer
    requires serves { Serves k.old g.old }
    requires runs { k.old.ready.run ≡ Some by }
    requires room { HasRoom k.old }
    ensures kernel { k.new ≡ (semaphore_get_row k.old g.old by a.now).change.kernel }
    ensures memory { g.new ≡ (semaphore_get_row k.old g.old by a.now).change.memory }
    ensures answer { result ≡ (semaphore_get_row k.old g.old by a.now).answer }
    ensures serves { Serves k.new g.new }
{
    let Some(o) = k.named(by, a[0], Kind::Semaphore) else {
        return Answer::Code(Code::SEMAPHORE_ERROR);
    };
    get_instance(k, g, by, o, a[1])
}

/// `semaphore_put(a0)`: SEMAPHORE_ERROR, then as `put_object`.
#[tactic(auto, unfolding(crate::specs::SemaRows::semaphore_put_row))]
pub fn semaphore_put(k: &mut Kernel, g: &mut Guard, by: ThreadNo, a: &Args) -> Answer
    requires serves { Serves k.old g.old }
    requires runs { k.old.ready.run ≡ Some by }
    ensures kernel { k.new ≡ (semaphore_put_row k.old g.old by a.now).change.kernel }
    ensures memory { g.new ≡ (semaphore_put_row k.old g.old by a.now).change.memory }
    ensures answer { result ≡ (semaphore_put_row k.old g.old by a.now).answer }
    ensures serves { Serves k.new g.new }
{
    let Some(o) = k.named(by, a[0], Kind::Semaphore) else {
        return Answer::Code(Code::SEMAPHORE_ERROR);
    };
    Answer::Code(put_object(k, g, o))
}

/// `semaphore_ceiling_put(a0, ceiling)`: SEMAPHORE_ERROR, then INVALID_CEILING where the ceiling is 0,
/// then CEILING_EXCEEDED where the count isn't below it, then as `put_object`.
#[tactic(auto, unfolding(crate::specs::SemaRows::semaphore_ceiling_put_row))]
pub fn semaphore_ceiling_put(k: &mut Kernel, g: &mut Guard, by: ThreadNo, a: &Args) -> Answer
    requires serves { Serves k.old g.old }
    requires runs { k.old.ready.run ≡ Some by }
    ensures kernel { k.new ≡ (semaphore_ceiling_put_row k.old g.old by a.now).change.kernel }
    ensures memory { g.new ≡ (semaphore_ceiling_put_row k.old g.old by a.now).change.memory }
    ensures answer { result ≡ (semaphore_ceiling_put_row k.old g.old by a.now).answer }
    ensures serves { Serves k.new g.new }
{
    let Some(o) = k.named(by, a[0], Kind::Semaphore) else {
        return Answer::Code(Code::SEMAPHORE_ERROR);
    };
    if let Some(refusal) = ceiling_refusal(k, o, a[1]) {
        return Answer::Code(refusal);
    }
    Answer::Code(put_object(k, g, o))
}

/// Why no instance may be put under a ceiling.
fn ceiling_refusal(k: &Kernel, o: ObjNo, ceiling: u32) -> Option<Code>
    ensures { result ≡ ceiling_refusal k.now o ceiling }
{
    if ceiling == 0 {
        Some(Code::INVALID_CEILING)
    } else if k.semas.get(o) >= ceiling {
        Some(Code::CEILING_EXCEEDED)
    } else {
        None
    }
}

/// `semaphore_prioritize(a0)`: SEMAPHORE_ERROR. The waiter of the least effective priority goes first.
#[tactic(auto, unfolding(crate::specs::SemaRows::semaphore_prioritize_row))]
pub fn semaphore_prioritize(k: &mut Kernel, g: &mut Guard, by: ThreadNo, a: &Args) -> Answer
    requires serves { Serves k.old g.old }
    requires runs { k.old.ready.run ≡ Some by }
    ensures kernel { k.new ≡ (semaphore_prioritize_row k.old g.old by a.now).change.kernel }
    ensures memory { g.new ≡ (semaphore_prioritize_row k.old g.old by a.now).change.memory }
    ensures answer { result ≡ (semaphore_prioritize_row k.old g.old by a.now).answer }
    ensures serves { Serves k.new g.new }
{
    let Some(o) = k.named(by, a[0], Kind::Semaphore) else {
        return Answer::Code(Code::SEMAPHORE_ERROR);
    };
    prioritize(k, g, o);
    Answer::Code(Code::SUCCESS)
}

/// `semaphore_info_get(a0, to)`: SEMAPHORE_ERROR, then a refusal of `to`; the count and the number of
/// waiters are written there.
#[tactic(auto, unfolding(crate::specs::SemaRows::semaphore_info_get_row))]
pub fn semaphore_info_get(k: &mut Kernel, g: &mut Guard, by: ThreadNo, a: &Args) -> Answer
    requires serves { Serves k.old g.old }
    requires runs { k.old.ready.run ≡ Some by }
    ensures kernel { k.new ≡ (semaphore_info_get_row k.old g.old by a.now).change.kernel }
    ensures memory { g.new ≡ (semaphore_info_get_row k.old g.old by a.now).change.memory }
    ensures answer { result ≡ (semaphore_info_get_row k.old g.old by a.now).answer }
    ensures serves { Serves k.new g.new }
{
    let Some(o) = k.named(by, a[0], Kind::Semaphore) else {
        return Answer::Code(Code::SEMAPHORE_ERROR);
    };
    if let Some(refusal) = k.caller_refusal(g, by, Access::Store, a[1], 8) {
        return Answer::Code(refusal);
    }
    let info = semaphore_info(k, o);
    put_info(k, g, by, a[1], &info);
    Answer::Code(Code::SUCCESS)
}

/// What is read of a semaphore: its count, and how many wait for it.
fn semaphore_info(k: &Kernel, o: ObjNo) -> [u32; 2]
    ensures { result ≡ semaphore_info k.now o }
{
    [k.semas.get(o), u32::from(k.waits.len(On::Object(o)))]
}
