//! The table of modules, and the calls that change their states.
//!
//! No call adds or removes a module, or changes a preamble or a place. A started or faulted module
//! is never started again; no call stops one.
ghost use Rattle.std.specs.Prelude.{◌≡◌, ◌<◌, ◌≤◌, true, length, All, IfOk, map};
ghost use Rattle.std.specs.Option.{option_map};
ghost use Rattle.tx_types.specs.Limits.{module_limit};
ghost use Rattle.module_preamble.specs.Words.{has_callback};
ghost use Rattle.module_loader.specs.Want.{want_of};
ghost use Rattle.region_guard.specs.Memory.{may};
ghost use Rattle.kernel_state.specs.Kernel.{is_thread, module_of};
ghost use Rattle.kernel_state.specs.Serves.{Serves};
ghost use Rattle.module_manager.specs.Halt.{halted};
ghost use Rattle.module_manager.specs.Modules.{IsPlaced, fault_in, fault_parts, loaded, module_at, module_state_number, with_state};
ghost use Rattle.module_manager.specs.Start.{start_row};

use crate::halt::halt;
use crate::modules::{Fault, Module, ModuleState};
use crate::start::{begin, can_start, zero_data};
use kernel_state::Kernel;
use module_loader::Placed;
use module_preamble::Preamble;
use region_guard::{Access, Guard};
use rv_core::Cause;
use std::alloc::Global;
use std::marker::Model;
use tx_types::{Code, ModNo, NoMemory, ThreadNo};

/// The modules, by number.
#[derive(Drop)]
pub struct Manager {
    rows: Vec<Module>,
}

impl Model for Manager {
    ghost use Rattle.std.specs.Prelude.{List};
    ghost use Rattle.module_manager.specs.Modules.{AreModules};
    ghost use Rattle.module_manager.specs.declared.modules.Module.{Module};

    ghost Value = { List Module };

    ghost view = { λ m. m.rows.items };

    ghost invariant = { λ m. AreModules m.rows.items };
}

impl Manager {
    /// A row for each preamble and place, in their order; no module was started.
    pub fn new(alloc: Global, rows: &[(Preamble, Placed)]) -> Result<Manager, NoMemory>
        requires at_most { length rows.now ≤ module_limit }
        requires placed { All (λ r. IsPlaced r.0 r.1) rows.now }
        ensures { IfOk result (λ m. m ≡ map loaded rows.now) }
    {
        let mut modules = Vec::with_capacity(alloc, rows.len())?;
        for (preamble, placed) in rows {
            modules.push_reserved(Module {
                preamble: *preamble,
                placed: *placed,
                state: ModuleState::Loaded,
            });
        }
        Ok(Manager { rows: modules })
    }

    /// How many modules there are.
    pub fn len(&self) -> u8
        ensures same { result ≡ length self.now }
        ensures at_most { result ≤ module_limit }
    {
        self.rows.len() as u8
    }

    /// A module: its preamble, its place and its state.
    pub fn row(&self, m: ModNo) -> &Module
        requires { m < length self.now }
        ensures value { result.now ≡ module_at self.now m }
        ensures placed { IsPlaced result.now.preamble result.now.placed }
    {
        &self.rows[m.number() as usize]
    }

    /// The number of a module's state: 0 loaded, 1 started, 2 stopped, 3 faulted.
    pub fn state(&self, m: ModNo) -> u8
        requires { m < length self.now }
        ensures { result ≡ module_state_number (module_at self.now m).state }
    {
        self.row(m).state.number()
    }

    /// The fault of a module: its thread, the cause and the address of the instruction. None exactly
    /// where the module isn't faulted.
    pub fn fault_of(&self, m: ModNo) -> Option<(ThreadNo, Cause, u32)>
        requires { m < length self.now }
        ensures { result ≡ option_map fault_parts (fault_in (module_at self.now m).state) }
    {
        let fault = self.row(m).state.fault()?;
        Some((fault.thread, fault.cause, fault.pc))
    }

    /// Starts a module that is loaded or stopped: its data region is zeroed, and its threads are made
    /// and started. START_ERROR where it is started or faulted, or where it needs more slots than are
    /// usable; then nothing changes.
    #[tactic(auto, unfolding(crate::specs::Start::start_row))]
    pub fn start(&mut self, k: &mut Kernel, g: &mut Guard, m: ModNo) -> Code
        requires serves { Serves k.old g.old }
        requires row { m < length self.old }
        requires start_prio { (module_at self.old m).preamble.start_prio < k.old.ready.levels }
        requires callback_prio { has_callback (module_at self.old m).preamble ≡ true
            → (module_at self.old m).preamble.callback_prio < k.old.ready.levels }
        requires some_data { 0 < (want_of (module_at self.old m).preamble).data_bytes }
        requires own_data { may g.old m Access.Store (module_at self.old m).placed.data_base
            (want_of (module_at self.old m).preamble).data_bytes ≡ true }
        ensures modules { self.new ≡ (start_row self.old k.old g.old m).modules }
        ensures kernel { k.new ≡ (start_row self.old k.old g.old m).change.kernel }
        ensures memory { g.new ≡ (start_row self.old k.old g.old m).change.memory }
        ensures answer { result ≡ (start_row self.old k.old g.old m).answer }
        ensures levels { k.new.ready.levels ≡ k.old.ready.levels }
        ensures serves { Serves k.new g.new }
    {
        let row = self.row(m);
        if !can_start(k, row) {
            return Code::START_ERROR;
        }
        zero_data(g, m, row);
        begin(k, g, m, row);
        self.set_state(m, ModuleState::Started);
        Code::SUCCESS
    }

    /// Halts the module of a thread that couldn't execute the instruction at pc, and keeps the fault.
    pub fn fault(&mut self, k: &mut Kernel, g: &mut Guard, t: ThreadNo, c: Cause, pc: u32)
        requires serves { Serves k.old g.old }
        requires live { is_thread k.old t ≡ true }
        ensures modules { self.new
            ≡ with_state self.old (module_of k.old t)
            (ModuleState.Faulted (record { thread = t; cause = c; pc = pc })) }
        ensures kernel { k.new ≡ (halted k.old g.old (module_of k.old t)).kernel }
        ensures memory { g.new ≡ (halted k.old g.old (module_of k.old t)).memory }
        ensures same { g.new ≡ g.old }
        ensures serves { Serves k.new g.new }
    {
        let m = k.module_of(t);
        halt(k, g, m);
        let fault = Fault {
            thread: t,
            cause: c,
            pc,
        };
        self.set_state(m, ModuleState::Faulted(fault));
    }

    /// A module gets a state; where there is no such module nothing changes.
    fn set_state(&mut self, m: ModNo, state: ModuleState)
        ensures { self.new ≡ with_state self.old m state }
    {
        let i = m.number() as usize;
        if i < self.rows.len() {
            let row = &mut self.rows[i];
            row.state = state;
        }
    }
}
