//! Two modules in 4,096 bytes of RAM, and the calls that their threads make.
//!
//! A board's kernel is sound, so a test may make any call at any time. What a call asks for that a board
//! can't give is left out, and the step that makes it fails.
ghost use Rattle.std.specs.Prelude.{◌≡◌, IfOk};
ghost use Rattle.soft_timers.specs.Timers.{IsRunning};
ghost use Rattle.region_guard.specs.Memory.{Memory};
ghost use Rattle.kernel_state.specs.Serves.{Serves};
ghost use Rattle.kernel_state.specs.Sound.{IsSound};

use call_dispatch::dispatch;
use flat_ram::Ram;
use kernel_state::laws::{
    a_kernel_stays_sound, a_promised_result_may_be_stored, who_runs_is_a_thread,
};
use kernel_state::{Kernel, Spot, ThreadSpec, start_thread};
use module_loader::{Placed, want_of};
use module_manager::Manager;
use module_preamble::Preamble;
use object_grants::SlotState;
use region_guard::{Access, Guard, RAM_BASE, Region, Rights};
use rv_core::{Cause, Hart};
use std::alloc::Global;
use std::marker::Model;
use std::test::Fail;
use thread_calls::laws::a_change_of_slots_keeps_serving;
use tx_types::{Kind, ModNo, Name, ObjNo, Prio, ThreadNo, Thresh};

/// Modules, a kernel and its memory.
#[derive(Drop)]
pub struct Board {
    modules: Manager,
    k: Kernel,
    g: Guard,
}

impl Model for Board {
    ghost use Rattle.kernel_state.specs.Serves.{Serves};
    ghost use Rattle.kernel_state.specs.declared.kernel.Kernel.{Kernel};

    ghost Value = { Kernel };

    ghost view = { λ b. b.k };

    ghost invariant = { λ b. Serves b.k b.g };
}

/// A region of both modules' memory: its base, its size, its rights, and who has them.
pub type Area = (u32, u32, Rights, u16);

/// A module that has a ready thread without a name and of slice 5: its shell entry, its data base, and
/// the priority and threshold of the thread.
pub type Running = (u8, u32, u32, u16);

impl Board {
    /// Modules with a thread each, in slots from 0 on.
    pub fn of_threads(alloc: Global, areas: &[Area], running: &[Running]) -> Result<Board, Fail> {
        let modules = Manager::new(alloc, &[]).map_err(|_| "no memory")?;
        let k = kernel(alloc)?;
        let g = memory(alloc, areas)?;
        let mut b = Board { modules, k, g };
        for (m, shell, data_base, priority) in running {
            b.add_module(ModNo::new(*m % 16), *shell, *data_base, *priority);
        }
        Ok(b)
    }

    /// Modules that were loaded, none started.
    pub fn of_modules(alloc: Global, modules: Manager, areas: &[Area]) -> Result<Board, Fail> {
        let k = kernel(alloc)?;
        let g = memory(alloc, areas)?;
        Ok(Board { modules, k, g })
    }

    pub fn modules(&self) -> &Manager {
        &self.modules
    }

    pub fn kernel(&self) -> &Kernel {
        &self.k
    }

    pub fn guard(&self) -> &Guard {
        &self.g
    }

    fn add_module(&mut self, m: ModNo, shell: u32, data_base: u32, priority: u16) {
        add_module(&mut self.k, &mut self.g, m, shell, data_base, priority);
    }

    /// The running thread calls a service with a0, a1 and a2: what its a0 has then. None where nothing
    /// runs.
    pub fn call(&mut self, service: u32, a: [u32; 3]) -> Option<u32> {
        call(&mut self.k, &mut self.g, service, a)
    }

    /// A tick comes.
    pub fn tick(&mut self) -> bool {
        tick(&mut self.k, &mut self.g)
    }

    /// The clock is set.
    pub fn set_clock(&mut self, clock: u32) {
        set_clock(&mut self.k, clock);
    }

    /// The running thread writes a register.
    pub fn set(&mut self, r: u8, value: u32) -> bool {
        set(&mut self.k, r, value)
    }

    /// A module stores the low n bytes of a word.
    pub fn store(&mut self, m: ModNo, a: u32, n: u32, word: u32) -> bool {
        store(&self.k, &mut self.g, m, a, n, word)
    }

    /// A module is started: what is answered.
    pub fn start(&mut self, m: ModNo) -> Option<u32> {
        start(&mut self.modules, &mut self.k, &mut self.g, m)
    }

    /// A thread faults, for a cause, at an address.
    pub fn fault(&mut self, t: ThreadNo, cause: Cause, pc: u32) -> bool {
        fault(&mut self.modules, &mut self.k, &mut self.g, t, cause, pc)
    }

    /// A module gets an Empty slot for a semaphore.
    pub fn reserve(&mut self, m: ModNo) -> bool {
        reserve(&mut self.k, m)
    }

    /// A module is granted the object of a slot.
    pub fn grant(&mut self, m: ModNo, o: ObjNo) -> bool {
        grant(&mut self.k, m, o)
    }
}

/// A kernel in which nothing waits serves over every memory.
fn kernel(alloc: Global) -> Result<Kernel, Fail>
    ensures serves { IfOk result (λ k. (g : Memory) → Serves k g) }
{
    let k = Kernel::new(alloc).map_err(|_| "no memory")?;
    Ok(k)
}

fn memory(alloc: Global, areas: &[Area]) -> Result<Guard, Fail> {
    let ram = Ram::new(alloc, 4096).map_err(|_| "no memory")?;
    let mut g = Guard::new(alloc, ram).map_err(|_| "no memory")?;
    for (base, size, rights, who) in areas {
        let region = Region {
            base: *base,
            size: *size,
            rights: *rights,
            who: *who,
        };
        if !add_region(&mut g, region) {
            return Err(Fail::from("a region was refused"));
        }
    }
    Ok(g)
}

fn add_region(g: &mut Guard, r: Region) -> bool {
    let is_in_ram = r.size > 0
        && r.base >= RAM_BASE
        && r.size <= g.size()
        && r.base - RAM_BASE <= g.size() - r.size;
    is_in_ram && g.add(r).is_ok()
}

fn add_module(k: &mut Kernel, g: &mut Guard, m: ModNo, shell: u32, data_base: u32, priority: u16)
    requires { Serves k.old g.old }
    ensures { Serves k.new g.new }
{
    a_change_of_slots_keeps_serving();
    if shell % 4 == 0 {
        let spot = Spot {
            shell,
            data_base,
            callback: None,
        };
        k.set_spot(m, spot);
        if let Some(r) = k.objects.allocate(m, Kind::Thread) {
            add_thread(k, g, m, r.slot(), priority);
        }
    }
}

/// An Empty slot of its module's own gets a thread, which is ready.
fn add_thread(k: &mut Kernel, g: &mut Guard, m: ModNo, o: ObjNo, priority: u16)
    requires { Serves k.old g.old }
    ensures { Serves k.new g.new }
{
    let slot = k.objects.slot(o);
    let is_own = slot.owner.number() == m.number();
    let is_thread = slot.is_kind(Kind::Thread);
    if !slot.is_in(SlotState::Empty) || !is_thread || !is_own || priority >= k.priorities() {
        return;
    }
    let spec = ThreadSpec {
        module: m,
        hart: Hart { pc: 0, x: [0; 32] },
        priority: Prio::new(priority),
        threshold: Thresh::new(priority),
        slice: 5,
    };
    k.place_thread(o, Name::empty(), spec);
    start_thread(k, g, o);
}

fn call(k: &mut Kernel, g: &mut Guard, service: u32, a: [u32; 3]) -> Option<u32>
    requires { Serves k.old g.old }
    ensures { Serves k.new g.new }
{
    if !k.has_room() {
        return None;
    }
    let t = k.running()?;
    ask(k, t, service, a);
    dispatch(k, g, t);
    Some(k.hart(t).get(10))
}

/// A thread's registers ask for a service.
fn ask(k: &mut Kernel, t: ThreadNo, service: u32, a: [u32; 3])
    requires { IsSound k.old }
    ensures sound { IsSound k.new }
    ensures ready { k.new.ready ≡ k.old.ready }
    ensures waits { k.new.waits ≡ k.old.waits }
    ensures wheel { k.new.wheel ≡ k.old.wheel }
    ensures serves { (g : Memory) → Serves k.old g → Serves k.new g }
{
    a_kernel_stays_sound();
    let mut hart = *k.hart(t);
    hart.set(17, service);
    hart.set(10, a[0]);
    hart.set(11, a[1]);
    hart.set(12, a[2]);
    *k.hart_mut(t) = hart;
}

/// A tick comes, where there is room for one.
fn tick(k: &mut Kernel, g: &mut Guard) -> bool
    requires { Serves k.old g.old }
    ensures { Serves k.new g.new }
{
    let may = k.has_room();
    if may {
        k.advance_clock(g);
    }
    may
}

/// Nothing that has to hold of a kernel speaks of its clock.
fn set_clock(k: &mut Kernel, clock: u32)
    requires { IsSound k.old }
    ensures serves { (g : Memory) → Serves k.old g → Serves k.new g }
{
    a_kernel_stays_sound();
    k.clock = clock;
}

fn set(k: &mut Kernel, r: u8, value: u32) -> bool
    requires { IsSound k.old }
    ensures serves { (g : Memory) → Serves k.old g → Serves k.new g }
{
    a_kernel_stays_sound();
    let Some(t) = k.running() else {
        return false;
    };
    let may = r < 32;
    if may {
        k.hart_mut(t).set(r, value);
    }
    may
}

/// A module stores the low bytes of a word, where it may.
fn store(k: &Kernel, g: &mut Guard, m: ModNo, a: u32, n: u32, word: u32) -> bool
    requires { Serves k.now g.old }
    ensures { Serves k.now g.new }
{
    let may = (n == 1 || n == 4) && g.may(m, Access::Store, a, n);
    a_promised_result_may_be_stored();
    let _ = &k;
    if may {
        g.put(m, a, n, word);
    }
    may
}

/// Starts a module, where it has a row, its priorities are some and its data region is its own.
fn start(modules: &mut Manager, k: &mut Kernel, g: &mut Guard, m: ModNo) -> Option<u32>
    requires { Serves k.old g.old }
    ensures { Serves k.new g.new }
{
    if m.number() >= modules.len() {
        return None;
    }
    let row = modules.row(m);
    let levels = u32::from(k.priorities());
    let n = want_of(&row.preamble).data_bytes;
    let has_priorities = row.preamble.start_prio < levels && row.preamble.callback_prio < levels;
    if !has_priorities || n == 0 || !g.may(m, Access::Store, row.placed.data_base, n) {
        return None;
    }
    Some(u32::from(modules.start(k, g, m).number()))
}

/// A thread faults, where it is one.
fn fault(
    modules: &mut Manager,
    k: &mut Kernel,
    g: &mut Guard,
    t: ThreadNo,
    cause: Cause,
    pc: u32,
) -> bool
    requires { Serves k.old g.old }
    ensures { Serves k.new g.new }
{
    let is_thread = k.is_thread(t);
    if is_thread {
        modules.fault(k, g, t, cause, pc);
    }
    is_thread
}

fn reserve(k: &mut Kernel, m: ModNo) -> bool
    ensures serves { (g : Memory) → Serves k.old g → Serves k.new g }
{
    a_change_of_slots_keeps_serving();
    k.objects.allocate(m, Kind::Semaphore).is_some()
}

fn grant(k: &mut Kernel, m: ModNo, o: ObjNo) -> bool
    ensures serves { (g : Memory) → Serves k.old g → Serves k.new g }
{
    a_change_of_slots_keeps_serving();
    let is_live = k.objects.slot(o).is_in(SlotState::Live);
    if is_live {
        k.objects.grant(m, o);
    }
    is_live
}
