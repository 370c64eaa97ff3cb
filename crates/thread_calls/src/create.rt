//! The service that creates a thread (ThreadX User Guide, `tx_thread_create`).
//!
//! A refused call changes nothing. The module's memory is only read: the stack of the new thread is
//! checked, and never written.
ghost use Rattle.std.specs.Prelude.{◌≡◌, ◌≢◌, ◌<◌, ◌≤◌, All, IfNone, None, Some, true};
ghost use Rattle.object_grants.specs.Slot.{is_in, is_kind};
ghost use Rattle.object_grants.specs.Table.{slot};
ghost use Rattle.object_grants.specs.declared.slot.SlotState.TheVariants.{Empty};
ghost use Rattle.region_guard.specs.Memory.{may};
ghost use Rattle.kernel_state.specs.Kernel.{module_of};
ghost use Rattle.kernel_state.specs.Serves.{Serves};
ghost use Rattle.kernel_state.specs.Sound.{IsSound};
ghost use Rattle.thread_calls.specs.Create.{block_at, block_refusal, opening, spec_of, created};
ghost use Rattle.thread_calls.specs.ThreadRows.{creation, thread_create_row};

use call_arguments::{name_at, nth_word};
use kernel_state::{Answer, Args, Kernel, ThreadSpec, start_thread};
use region_guard::{Access, Guard};
use rv_core::Hart;
use rv_core::registers::{A0, A1, GP, SP};
use tx_types::{Code, Kind, ModNo, Name, ObjNo, Prio, ThreadNo, Thresh};

/// The words that describe a thread to be created: its entry and what it is given, its stack, its
/// numbers, and whether it starts at once.
#[derive(Clone, Copy, Debug)]
pub struct ThreadBlock {
    pub entry: u32,
    pub input: u32,
    pub stack: u32,
    pub size: u32,
    pub priority: u32,
    pub threshold: u32,
    pub slice: u32,
    pub auto: u32,
}

/// `thread_create(a0, name, block)`: THREAD_ERROR unless a0 names an Empty thread slot of the module's
/// own, then a refusal of the name, then of the block, then of its words.
#[tactic(auto, unfolding(crate::specs::ThreadRows::thread_create_row))]
pub fn thread_create(k: &mut Kernel, g: &mut Guard, by: ThreadNo, a: &Args) -> Answer
    requires serves { Serves k.old g.old }
    requires runs { k.old.ready.run ≡ Some by }
    ensures kernel { k.new ≡ (thread_create_row k.old g.old by a.now).change.kernel }
    ensures memory { g.new ≡ (thread_create_row k.old g.old by a.now).change.memory }
    ensures answer { result ≡ (thread_create_row k.old g.old by a.now).answer }
    ensures serves { Serves k.new g.new }
{
    let Some(o) = k.reserved(by, a[0], Kind::Thread) else {
        return Answer::Code(Code::THREAD_ERROR);
    };
    let name = match name_at(g, k.module_of(by), a[1]) {
        Ok(name) => name,
        Err(refusal) => return Answer::Code(refusal),
    };
    if let Some(refusal) = k.caller_refusal(g, by, Access::Load, a[2], 32) {
        return Answer::Code(refusal);
    }
    create(k, g, by, o, name, a[2])
}

/// Creates a thread by the block at an address.
#[tactic(auto, unfolding(crate::specs::ThreadRows::creation))]
fn create(k: &mut Kernel, g: &mut Guard, by: ThreadNo, o: ObjNo, name: Name, x: u32) -> Answer
    requires serves { Serves k.old g.old }
    requires empty { is_in Empty (slot k.old.objects o) ≡ true }
    requires kind { is_kind Kind.Thread (slot k.old.objects o) ≡ true }
    requires own { (slot k.old.objects o).owner ≡ module_of k.old by }
    requires name { All (λ b. b ≢ 0) name }
    requires allowed { may g.old (module_of k.old by) Access.Load x 32 ≡ true }
    ensures kernel { k.new ≡ (creation k.old g.old by o name x).change.kernel }
    ensures memory { g.new ≡ (creation k.old g.old by o name x).change.memory }
    ensures answer { result ≡ (creation k.old g.old by o name x).answer }
    ensures serves { Serves k.new g.new }
{
    let block = block_at(g, k.module_of(by), x);
    if let Some(refusal) = block_refusal(k, g, by, &block) {
        return Answer::Code(refusal);
    }
    make(k, g, by, o, name, &block);
    Answer::Code(Code::SUCCESS)
}

/// The eight words at an address.
fn block_at(g: &Guard, m: ModNo, x: u32) -> ThreadBlock
    requires { may g.now m Access.Load x 32 ≡ true }
    ensures { result ≡ block_at g.now x }
{
    ThreadBlock {
        entry: nth_word(g, m, x, 32, 0),
        input: nth_word(g, m, x, 32, 1),
        stack: nth_word(g, m, x, 32, 2),
        size: nth_word(g, m, x, 32, 3),
        priority: nth_word(g, m, x, 32, 4),
        threshold: nth_word(g, m, x, 32, 5),
        slice: nth_word(g, m, x, 32, 6),
        auto: nth_word(g, m, x, 32, 7),
    }
}

/// Why no thread can be made of a block: its entry can't be fetched; the stack is below 64 bytes, or
/// can't be stored to; there is no such priority; the threshold is above it; `auto` is above 1.
#[tactic(auto, unfolding(crate::specs::Create::block_refusal))]
fn block_refusal(k: &Kernel, g: &Guard, by: ThreadNo, b: &ThreadBlock) -> Option<Code>
    ensures value { result ≡ block_refusal k.now g.now by b.now }
    ensures at_most { IfNone result (b.now.threshold ≤ b.now.priority) }
    ensures level { IfNone result (b.now.priority < k.now.ready.levels) }
{
    let entry = k.caller_refusal(g, by, Access::Fetch, b.entry, 4);
    if entry.is_some() {
        return entry;
    }
    if b.size < 64 {
        return Some(Code::SIZE_ERROR);
    }
    let stack = k.caller_refusal(g, by, Access::Store, b.stack, b.size);
    if stack.is_some() {
        return stack;
    }
    if b.priority >= u32::from(k.priorities()) {
        Some(Code::PRIORITY_ERROR)
    } else if b.threshold > b.priority {
        Some(Code::THRESH_ERROR)
    } else if b.auto > 1 {
        Some(Code::START_ERROR)
    } else {
        None
    }
}

/// Makes a thread of a block that isn't refused, and starts it where `auto` says so.
#[tactic(auto, unfolding(crate::specs::Create::created))]
fn make(k: &mut Kernel, g: &mut Guard, by: ThreadNo, o: ObjNo, name: Name, b: &ThreadBlock)
    requires serves { Serves k.old g.old }
    requires empty { is_in Empty (slot k.old.objects o) ≡ true }
    requires kind { is_kind Kind.Thread (slot k.old.objects o) ≡ true }
    requires own { (slot k.old.objects o).owner ≡ module_of k.old by }
    requires name { All (λ b. b ≢ 0) name }
    requires at_most { b.now.threshold ≤ b.now.priority }
    requires level { b.now.priority < k.old.ready.levels }
    ensures kernel { k.new ≡ (created k.old g.old by o name b.now).kernel }
    ensures memory { g.new ≡ (created k.old g.old by o name b.now).memory }
    ensures serves { Serves k.new g.new }
{
    let spec = spec_of(k, by, b);
    k.place_thread(o, name, spec);
    if b.auto == 1 {
        start_thread(k, g, o);
    }
}

/// What a thread is made of.
fn spec_of(k: &Kernel, by: ThreadNo, b: &ThreadBlock) -> ThreadSpec
    requires sound { IsSound k.now }
    requires at_most { b.now.threshold ≤ b.now.priority }
    requires level { b.now.priority < k.now.ready.levels }
    ensures { result ≡ spec_of k.now by b.now }
{
    let m = k.module_of(by);
    ThreadSpec {
        module: m,
        hart: opening(k, m, b),
        priority: Prio::new(b.priority as u16),
        threshold: Thresh::new(b.threshold as u16),
        slice: b.slice,
    }
}

/// The registers with which a thread of module m begins.
fn opening(k: &Kernel, m: ModNo, b: &ThreadBlock) -> Hart
    requires { IsSound k.now }
    ensures { result ≡ opening k.now m b.now }
{
    let spot = k.spot(m);
    let mut x = [0; 32];
    x[SP as usize] = b.stack.wrapping_add(b.size) / 16 * 16;
    x[GP as usize] = spot.data_base;
    x[A0 as usize] = b.entry;
    x[A1 as usize] = b.input;
    Hart { pc: spot.shell, x }
}
