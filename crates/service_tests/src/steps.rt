//! Steps: what happens on a board, and what it then shows.
//!
//! There is no test here. A step that can't be taken, or that shows something else than it says,
//! fails the test that plays it.

use crate::board::Board;
use crate::names::{OBJECT_ALLOCATE, SUCCESS, THREAD_CREATE, THREAD_IDENTIFY};
use crate::pair::{BLOCK, DATA, NAME, WORDS};
use kernel_state::Kernel;
use object_grants::SlotState;
use region_guard::{Access, Guard};
use rv_core::{Cause, Hart};
use std::process::Abort;
use tx_types::{ModNo, ObjNo, State, ThreadNo};

/// What is said of a thread beside its state: that a suspension of it is held, or that it was never
/// started since it was created or reset.
#[derive(Clone, Copy, PartialEq, Eq)]
pub enum Mark {
    None,
    Held,
    Fresh,
}

/// A step. Modules, threads and slots are named by their numbers.
#[derive(Clone, Copy)]
pub enum Step {
    /// The running thread calls a service with a0, a1 and a2: what its a0 has then.
    Call(u32, [u32; 3], u32),
    /// It calls each of these services so.
    Each(&'static [u32], [u32; 3], u32),
    /// Thread 0x102 is created of the block of `create` with two words changed, each of which is told by
    /// its address.
    Create([(u32, u32); 2], u32),
    /// It allocates slots for queues, which are those from one number on up to another.
    Slots(u32, u32),
    /// No thread runs, so none calls.
    NobodyCalls,
    /// So many ticks come.
    Ticks(u32),
    /// The clock is set.
    SetClock(u32),
    /// The running thread writes a register.
    Sets(u8, u32),
    /// A module writes words from an address on.
    Put(u8, u32, &'static [u32]),
    /// A module writes a name and a zero after it.
    PutName(u8, u32, &'static [u8]),
    /// A module is started: what is answered.
    Start(u8, u32),
    /// A thread faults, for a cause, at an address.
    Fault(u16, Cause, u32),
    /// A module gets as many Empty slots for semaphores.
    Reserve(u8, u16),
    /// A module is granted the object of a slot.
    Grant(u8, u16),

    /// The words that a module loads from an address on.
    Words(u8, u32, &'static [u32]),
    /// The running thread.
    Runs(Option<u16>),
    /// The thread after another among those of its priority.
    After(u16, Option<u16>),
    /// Whether a thread is ready.
    Ready(u16, bool),
    /// Whether a thread is a holder.
    Holds(u16, bool),
    /// A thread's state, and what is said of it beside.
    State(u16, State, Mark),
    /// The priority and the threshold that the user gave a thread, those in the scheduler, its slice, and
    /// what is left of it.
    Numbers(u16, [u32; 6]),
    /// A thread's register.
    Register(u16, u8, u32),
    /// A thread's registers are its opening ones: pc, and then sp, gp, a0 and a1 beside zeros.
    Opening(u16, u32, [u32; 4]),
    /// A slot's state, generation, owner and grants.
    Slot(u16, SlotState, u32, u8, u16),
    /// The name of a slot's object.
    Name(u16, &'static [u8]),
    /// A thread's module.
    Module(u16, u8),
    /// How many waits began, and how many ended satisfied, timed out, aborted, deleted and gone.
    Waits([u64; 6]),
    Clock(u32),
    /// The number of a module's state: 0 loaded, 1 started, 2 stopped, 3 faulted.
    ModuleState(u8, u8),
    /// A module's fault: its thread, the cause and the address.
    ModuleFault(u8, Option<(u16, Cause, u32)>),
    /// A module's callback thread.
    Callback(u8, Option<u16>),
}

/// A test: what it says, and tables of steps.
pub enum Test {
    Of(&'static str, &'static [&'static [Step]]),
}

/// Takes the steps of a test on a board.
pub fn play(rt: &impl Abort, b: &mut Board, test: &Test) {
    let Test::Of(name, tables) = *test;
    play_all(rt, b, name, tables);
}

/// Each step has to go right, down to a table's last row.
fn play_all(rt: &impl Abort, b: &mut Board, name: &str, tables: &[&[Step]]) {
    for (i, steps) in tables.iter().enumerate() {
        assert_eq!(rt; follow(b, steps), None, "{name}, table {i}");
    }
}

/// The number of the first step that goes wrong.
fn follow(b: &mut Board, steps: &[Step]) -> Option<usize> {
    for (i, step) in steps.iter().enumerate() {
        if !take(b, *step) {
            return Some(i);
        }
    }
    None
}

/// Takes a step; false where it can't be taken, or the board doesn't show what it is to show.
fn take(b: &mut Board, step: Step) -> bool {
    match step {
        Step::Call(service, a, a0) => b.call(service, a) == Some(a0),
        Step::Each(services, a, a0) => call_each(b, services, a, a0),
        Step::Create(changes, a0) => create(b, changes, a0),
        Step::Slots(from, to) => allocate(b, from, to),
        Step::NobodyCalls => b.call(THREAD_IDENTIFY, [0, 0, 0]).is_none(),
        Step::Ticks(n) => ticks(b, n),
        Step::Sets(r, value) => b.set(r, value),
        _ => happens(b, step),
    }
}

fn happens(b: &mut Board, step: Step) -> bool {
    match step {
        Step::SetClock(clock) => {
            b.set_clock(clock);
            true
        }
        Step::Put(m, a, words) => put(b, module(m), a, words),
        Step::PutName(m, a, name) => put_name(b, module(m), a, name),
        Step::Start(m, answer) => b.start(module(m)) == Some(answer),
        Step::Fault(t, cause, pc) => b.fault(object(t), cause, pc),
        Step::Reserve(m, n) => reserve(b, module(m), n),
        Step::Grant(m, o) => b.grant(module(m), object(o)),
        _ => shows(b, step),
    }
}

fn call_each(b: &mut Board, services: &[u32], a: [u32; 3], a0: u32) -> bool {
    for service in services {
        if b.call(*service, a) != Some(a0) {
            return false;
        }
    }
    true
}

fn create(b: &mut Board, changes: [(u32, u32); 2], a0: u32) -> bool {
    let m = module(0);
    let [first, second] = changes;
    put(b, m, BLOCK, &WORDS)
        && b.store(m, first.0, 4, first.1)
        && b.store(m, second.0, 4, second.1)
        && b.call(THREAD_CREATE, [0x102, NAME, BLOCK]) == Some(a0)
}

/// Allocates slots, and finds the reference to each.
fn allocate(b: &mut Board, from: u32, to: u32) -> bool {
    for o in from..to {
        let answer = b.call(OBJECT_ALLOCATE, [4, DATA, 0]);
        if answer != Some(SUCCESS) || word(b.guard(), module(0), DATA) != Some(0x100 | o) {
            return false;
        }
    }
    true
}

fn ticks(b: &mut Board, n: u32) -> bool {
    for _ in 0..n {
        if !b.tick() {
            return false;
        }
    }
    true
}

fn put(b: &mut Board, m: ModNo, a: u32, words: &[u32]) -> bool {
    let mut at = a;
    for w in words {
        if !b.store(m, at, 4, *w) {
            return false;
        }
        at = at.wrapping_add(4);
    }
    true
}

/// Writes a name, and a zero after it where one can be written.
fn put_name(b: &mut Board, m: ModNo, a: u32, name: &[u8]) -> bool {
    let mut at = a;
    for byte in name {
        if !b.store(m, at, 1, u32::from(*byte)) {
            return false;
        }
        at = at.wrapping_add(1);
    }
    let _ = b.store(m, at, 1, 0);
    true
}

fn reserve(b: &mut Board, m: ModNo, n: u16) -> bool {
    for _ in 0..n {
        if !b.reserve(m) {
            return false;
        }
    }
    true
}

/// Whether the board shows what a step wants to see.
fn shows(b: &Board, step: Step) -> bool {
    match step {
        Step::Words(m, a, words) => holds(b.guard(), module(m), a, words),
        Step::ModuleState(m, state) => state_of(b, module(m)) == Some(state),
        Step::ModuleFault(m, fault) => has_fault(b, module(m), fault),
        Step::Slot(o, state, generation, owner, grants) => {
            is_slot(b.kernel(), object(o), state, generation, owner, grants)
        }
        Step::Name(o, name) => b.kernel().objects.slot(object(o)).name.bytes() == name,
        Step::Callback(m, t) => b.kernel().spot(module(m)).callback == t.map(object),
        _ => shows_threads(b.kernel(), step),
    }
}

fn shows_threads(k: &Kernel, step: Step) -> bool {
    match step {
        Step::Runs(t) => k.running() == t.map(object),
        Step::After(t, u) => k.ready.after(object(t)) == u.map(object),
        Step::Ready(t, ready) => k.ready.is_ready(object(t)) == ready,
        Step::Holds(t, holds) => k.ready.is_held(object(t)) == holds,
        Step::State(t, state, mark) => is_state(k, object(t), state, mark),
        Step::Numbers(t, numbers) => numbers_of(k, object(t)) == numbers,
        Step::Register(t, r, value) => k.hart(object(t)).get(r % 32) == value,
        Step::Opening(t, pc, registers) => opens(k, object(t), pc, registers),
        Step::Module(t, m) => k.module_of(object(t)).number() == m,
        Step::Waits(totals) => totals_of(k) == totals,
        Step::Clock(clock) => k.clock == clock,
        _ => false,
    }
}

fn word(g: &Guard, m: ModNo, a: u32) -> Option<u32> {
    if g.may(m, Access::Load, a, 4) {
        Some(g.get(m, Access::Load, a, 4))
    } else {
        None
    }
}

fn holds(g: &Guard, m: ModNo, a: u32, words: &[u32]) -> bool {
    let mut at = a;
    for w in words {
        if word(g, m, at) != Some(*w) {
            return false;
        }
        at = at.wrapping_add(4);
    }
    true
}

fn state_of(b: &Board, m: ModNo) -> Option<u8> {
    let modules = b.modules();
    if m.number() < modules.len() {
        Some(modules.state(m))
    } else {
        None
    }
}

fn has_fault(b: &Board, m: ModNo, fault: Option<(u16, Cause, u32)>) -> bool {
    let modules = b.modules();
    let kept = fault.map(|f| (object(f.0), f.1, f.2));
    m.number() < modules.len() && modules.fault_of(m) == kept
}

fn is_slot(
    k: &Kernel,
    o: ObjNo,
    state: SlotState,
    generation: u32,
    owner: u8,
    grants: u16,
) -> bool {
    let slot = k.objects.slot(o);
    slot.is_in(state)
        && slot.generation == generation
        && slot.owner.number() == owner
        && slot.grants == grants
}

fn is_state(k: &Kernel, t: ThreadNo, state: State, mark: Mark) -> bool {
    let thread = k.thread(t);
    thread.state == state
        && thread.held == (mark == Mark::Held)
        && thread.fresh == (mark == Mark::Fresh)
}

fn numbers_of(k: &Kernel, t: ThreadNo) -> [u32; 6] {
    let thread = k.thread(t);
    [
        u32::from(thread.priority.number()),
        u32::from(thread.threshold.number()),
        u32::from(k.ready.priority(t).number()),
        u32::from(k.ready.threshold(t).number()),
        thread.slice,
        thread.left,
    ]
}

fn totals_of(k: &Kernel) -> [u64; 6] {
    let totals = k.waits.totals();
    [
        totals.begun,
        totals.satisfied,
        totals.timed_out,
        totals.aborted,
        totals.deleted,
        totals.gone,
    ]
}

fn opens(k: &Kernel, t: ThreadNo, pc: u32, registers: [u32; 4]) -> bool {
    let mut x = [0; 32];
    x[2] = registers[0];
    x[3] = registers[1];
    x[10] = registers[2];
    x[11] = registers[3];
    let thread = k.thread(t);
    thread.opening.pc == pc && thread.opening.x == x && thread.hart == thread.opening
}

fn object(number: u16) -> ObjNo {
    ObjNo::new(number % 256)
}

fn module(number: u8) -> ModNo {
    ModNo::new(number % 16)
}
