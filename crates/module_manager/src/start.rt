//! The start of a module: its data is zeroed, and its threads are made in the lowest usable slots.
//!
//! Whether there are enough slots is asked before anything changes, and what comes then can't fail.
//! No byte outside of the data region is written, and no instruction is executed.
ghost use Rattle.std.specs.Prelude.{◌≡◌, ◌≢◌, ◌<◌, ◌≤◌, ◌+◌, ℕ, true, All, IfSome};
ghost use Rattle.module_preamble.specs.Words.{has_callback};
ghost use Rattle.module_loader.specs.Want.{want_of};
ghost use Rattle.region_guard.specs.Memory.{Memory, may};
ghost use Rattle.tx_types.specs.Limits.{priority_limit};
ghost use Rattle.tx_types.specs.declared.state.State.TheVariants.{Suspended};
ghost use Rattle.kernel_state.specs.Kernel.{is_thread, module_of, thread};
ghost use Rattle.kernel_state.specs.Serves.{Serves};
ghost use Rattle.kernel_state.specs.Sound.{IsSound};
ghost use Rattle.kernel_state.specs.Thread.{is_state};
ghost use Rattle.module_manager.specs.Modules.{IsPlaced};
ghost use Rattle.module_manager.specs.Start.{begun, begun_alone, begun_both, callback_spec, can_start, in_new_slot, next_slot, slots_needed, start_spec, usable_slots, with_callback, zeroed};

use crate::modules::Module;
use kernel_state::laws::a_promised_result_may_be_stored;
use kernel_state::{Kernel, Spot, ThreadSpec, start_thread};
use module_loader::{opening, want_of};
use module_preamble::Preamble;
use object_grants::SLOTS;
use region_guard::{Access, Guard};
use rv_core::Hart;
use thread_calls::laws::{a_change_of_slots_keeps_serving, a_change_of_slots_keeps_sound};
use tx_types::{Kind, ModNo, Name, ObjNo, Prio, ThreadNo, Thresh};

/// Whether a module is loaded or stopped, and enough slots are usable.
pub(crate) fn can_start(k: &Kernel, row: &Module) -> bool
    requires { IsSound k.now }
    ensures { result ≡ can_start k.now row.now }
{
    row.state.may_start() && slots_needed(&row.preamble) <= usable_slots(k)
}

/// How many slots a module needs for its threads.
fn slots_needed(p: &Preamble) -> u16
    ensures { result ≡ slots_needed p.now }
{
    if p.has_callback() { 2 } else { 1 }
}

/// How many slots are usable.
fn usable_slots(k: &Kernel) -> u16
    requires { IsSound k.now }
    ensures { result ≡ usable_slots k.now }
{
    let mut usable = 0;
    for o in 0..SLOTS {
        if k.objects.slot(ObjNo::new(o)).is_usable() {
            usable += 1;
        }
    }
    usable
}

/// Zeroes a module's data region.
pub(crate) fn zero_data(g: &mut Guard, m: ModNo, row: &Module)
    requires placed { IsPlaced row.now.preamble row.now.placed }
    requires some { 0 < (want_of row.now.preamble).data_bytes }
    requires own { may g.old m Access.Store row.now.placed.data_base
        (want_of row.now.preamble).data_bytes ≡ true }
    ensures after { g.new ≡ zeroed g.old row.now }
    ensures serves { (k : Kernel) → Serves k g.old → Serves k g.new }
{
    a_promised_result_may_be_stored();
    let n = want_of(&row.preamble).data_bytes;
    g.window(m, row.placed.data_base, n).fill(0);
}

/// Makes and starts a module's threads.
pub(crate) fn begin(k: &mut Kernel, g: &mut Guard, m: ModNo, row: &Module)
    requires serves { Serves k.old g.old }
    requires placed { IsPlaced row.now.preamble row.now.placed }
    requires start_prio { row.now.preamble.start_prio < k.old.ready.levels }
    requires callback_prio { has_callback row.now.preamble ≡ true
        → row.now.preamble.callback_prio < k.old.ready.levels }
    requires usable { slots_needed row.now.preamble ≤ usable_slots k.old }
    ensures kernel { k.new ≡ (begun k.old g.old m row.now).kernel }
    ensures memory { g.new ≡ (begun k.old g.old m row.now).memory }
    ensures levels { k.new.ready.levels ≡ k.old.ready.levels }
    ensures serves { Serves k.new g.new }
{
    if row.preamble.has_callback() {
        begin_both(k, g, m, row);
    } else {
        begin_alone(k, g, m, row);
    }
}

/// Makes and starts the start thread of a module without a callback thread.
#[tactic(auto, unfolding(crate::specs::Start::begun_alone))]
fn begin_alone(k: &mut Kernel, g: &mut Guard, m: ModNo, row: &Module)
    requires serves { Serves k.old g.old }
    requires placed { IsPlaced row.now.preamble row.now.placed }
    requires start_prio { row.now.preamble.start_prio < k.old.ready.levels }
    requires usable { 1 ≤ usable_slots k.old }
    ensures kernel { k.new ≡ (begun_alone k.old g.old m row.now).kernel }
    ensures memory { g.new ≡ (begun_alone k.old g.old m row.now).memory }
    ensures levels { k.new.ready.levels ≡ k.old.ready.levels }
    ensures serves { Serves k.new g.new }
{
    let t = make_thread(k, Name::from_bytes(b"start"), start_spec(m, row));
    set_callback(k, m, None);
    start_thread(k, g, t);
}

/// Makes the start thread and the callback thread of a module, and then starts both.
#[tactic(auto, unfolding(crate::specs::Start::begun_both))]
fn begin_both(k: &mut Kernel, g: &mut Guard, m: ModNo, row: &Module)
    requires serves { Serves k.old g.old }
    requires placed { IsPlaced row.now.preamble row.now.placed }
    requires callback { has_callback row.now.preamble ≡ true }
    requires start_prio { row.now.preamble.start_prio < k.old.ready.levels }
    requires callback_prio { row.now.preamble.callback_prio < k.old.ready.levels }
    requires usable { 2 ≤ usable_slots k.old }
    ensures kernel { k.new ≡ (begun_both k.old g.old m row.now).kernel }
    ensures memory { g.new ≡ (begun_both k.old g.old m row.now).memory }
    ensures levels { k.new.ready.levels ≡ k.old.ready.levels }
    ensures serves { Serves k.new g.new }
{
    let t = make_thread(k, Name::from_bytes(b"start"), start_spec(m, row));
    let u = make_thread(k, Name::from_bytes(b"callback"), callback_spec(m, row));
    set_callback(k, m, Some(u));
    start_thread(k, g, t);
    start_thread(k, g, u);
}

/// What the start thread of a module is made of.
fn start_spec(m: ModNo, row: &Module) -> ThreadSpec
    requires placed { IsPlaced row.now.preamble row.now.placed }
    requires level { row.now.preamble.start_prio < priority_limit }
    ensures { result ≡ start_spec m row.now }
{
    let p = &row.preamble;
    spec(m, opening(p, row.placed, p.start, false), p.start_prio)
}

/// What the callback thread of a module is made of.
fn callback_spec(m: ModNo, row: &Module) -> ThreadSpec
    requires placed { IsPlaced row.now.preamble row.now.placed }
    requires callback { has_callback row.now.preamble ≡ true }
    requires level { row.now.preamble.callback_prio < priority_limit }
    ensures { result ≡ callback_spec m row.now }
{
    let p = &row.preamble;
    spec(m, opening(p, row.placed, p.callback, true), p.callback_prio)
}

/// A thread whose threshold is its priority, and that has no time slice.
fn spec(m: ModNo, hart: Hart, priority: u32) -> ThreadSpec
    requires { priority < priority_limit }
    ensures { result ≡ record {
      «module» = m;
      hart = hart;
      priority = priority;
      threshold = priority;
      slice = 0;
    } }
{
    ThreadSpec {
        module: m,
        hart,
        priority: Prio::new(priority as u16),
        threshold: Thresh::new(priority as u16),
        slice: 0,
    }
}

/// Makes a thread in the lowest usable slot, and gives its number.
fn make_thread(k: &mut Kernel, name: Name, s: ThreadSpec) -> ThreadNo
    requires sound { IsSound k.old }
    requires usable { 1 ≤ usable_slots k.old }
    requires name { All (λ b. b ≢ 0) name }
    requires at_most { s.threshold ≤ s.priority }
    requires level { s.priority < k.old.ready.levels }
    ensures slot { result ≡ next_slot k.old }
    ensures after { k.new ≡ in_new_slot k.old name s }
    ensures live { is_thread k.new result ≡ true }
    ensures own { module_of k.new result ≡ s.module }
    ensures suspended { is_state (thread k.new result).state Suspended ≡ true }
    ensures levels { k.new.ready.levels ≡ k.old.ready.levels }
    ensures one_less { usable_slots k.new + 1 ≡ usable_slots k.old }
    ensures others { (u : ℕ) → is_thread k.old u ≡ true
        → (u ≢ result) × (is_thread k.new u ≡ true) × (thread k.new u ≡ thread k.old u) }
    ensures sound { IsSound k.new }
    ensures serves { (g : Memory) → Serves k.old g → Serves k.new g }
{
    a_change_of_slots_keeps_sound();
    a_change_of_slots_keeps_serving();
    let Some(r) = k.objects.allocate(s.module, Kind::Thread) else {
        unreachable!()
    };
    let t = r.slot();
    k.place_thread(t, name, s);
    t
}

/// A module's spot names its callback thread, or none.
fn set_callback(k: &mut Kernel, m: ModNo, callback: Option<ThreadNo>)
    requires sound { IsSound k.old }
    requires own { IfSome callback
        (λ t. (is_thread k.old t ≡ true) × (module_of k.old t ≡ m)) }
    ensures after { k.new ≡ with_callback k.old m callback }
    ensures levels { k.new.ready.levels ≡ k.old.ready.levels }
    ensures sound { IsSound k.new }
    ensures serves { (g : Memory) → Serves k.old g → Serves k.new g }
{
    let spot = k.spot(m);
    k.set_spot(m, Spot { callback, ..spot });
}
