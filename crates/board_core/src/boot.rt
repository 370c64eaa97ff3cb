//! How a board is booted: its modules are loaded, and those that are to start are started.
//!
//! All memory that its machine ever needs is taken here.
ghost use Rattle.std.specs.Prelude.{◌≡◌, ◌≤◌, ◌<◌, [], length, IfOk, IfErr, None};
ghost use Rattle.tx_types.specs.Limits.{interrupt_limit, priority_count};
ghost use Rattle.kernel_state.specs.Serves.{Serves};
ghost use Rattle.board_file.specs.Rules.{IsBoard};
ghost use Rattle.board_core.specs.Boot.{Refuses, after_start, all_started, boot_refusal, booted_parts, contents, loaded_parts, one_started, start_of};
ghost use Rattle.board_core.specs.Laid.{AreLaid};
ghost use Rattle.board_core.specs.Laws.{images_in};

use crate::devices::Devices;
use crate::laws::no_wait_is_lost;
use crate::loading::{kernel_with, memory_with};
use crate::machine::Machine;
use crate::parts::Parts;
use crate::placing::place_modules;
use board_file::{Board, BoardModule};
use event_log::History;
use flat_ram::a_write_changes_its_range_alone;
use module_manager::Manager;
use module_manager::laws::a_start_writes_its_data_region_alone;
use module_preamble::PreErr;
use region_guard::a_write_changes_its_bytes_alone;
use std::alloc::{AllocError, Global};
use tx_types::{Code, ModNo, NoMemory};

/// Why a board isn't booted: an image that breaks a rule, or the first module that finds no room;
/// or out of memory.
#[derive(Clone, Copy, Debug, PartialEq, Eq)]
pub enum BootErr {
    NoMemory,
    Image(u8, PreErr),
    NoRoom(u8),
}

impl From<AllocError> for BootErr {
    ghost use Rattle.std.specs.Prelude.{◌≡◌};
    ghost use Rattle.board_core.specs.declared.boot.BootErr.TheVariants as refusal;

    ghost from_gives = { λ e r. r ≡ refusal.NoMemory };

    fn from(_error: AllocError) -> BootErr {
        BootErr::NoMemory
    }
}

impl From<NoMemory> for BootErr {
    ghost use Rattle.std.specs.Prelude.{◌≡◌};
    ghost use Rattle.board_core.specs.declared.boot.BootErr.TheVariants as refusal;

    ghost from_gives = { λ e r. r ≡ refusal.NoMemory };

    fn from(_error: NoMemory) -> BootErr {
        BootErr::NoMemory
    }
}

/// A board's parts as its modules are loaded: none is started, and nothing was taken of a device.
fn load(alloc: Global, board: &Board, images: &[Vec<u8>]) -> Result<Parts, BootErr>
    requires board { IsBoard board.now }
    requires images { length images.now ≡ length board.now.modules }
    ensures parts { IfOk result (λ p. p ≡ loaded_parts board.now (contents images.now)) }
    ensures serves { IfOk result (λ p. Serves p.kernel p.memory) }
    ensures levels { IfOk result (λ p. priority_count ≤ p.kernel.ready.levels) }
    ensures laid { IfOk result (λ p. AreLaid p.memory p.modules) }
    ensures count { IfOk result (λ p. length p.modules ≡ length board.now.modules) }
    ensures images { IfOk result (λ p. images_in p.memory p.modules ≡ contents images.now) }
    ensures accepted { IfOk result (λ _. boot_refusal board.now (contents images.now) ≡ None) }
    ensures refused { IfErr result (Refuses (boot_refusal board.now (contents images.now))) }
{
    let rows = place_modules(alloc, board, images)?;
    let memory = memory_with(alloc, board.ram, images, &rows)?;
    let kernel = kernel_with(alloc, &rows)?;
    let modules = Manager::new(alloc, &rows)?;
    let devices = Devices::new(alloc, board.devices.items().len())?;
    Ok(Parts {
        kernel,
        memory,
        modules,
        devices,
    })
}

impl Parts {
    /// Starts a module, and gives the status of the start.
    fn start(&mut self, i: ModNo) -> Code
        requires serves { Serves self.old.kernel self.old.memory }
        requires levels { priority_count ≤ self.old.kernel.ready.levels }
        requires laid { AreLaid self.old.memory self.old.modules }
        requires row { i < length self.old.modules }
        ensures parts { self.new ≡ after_start self.old (start_of self.old i) }
        ensures status { result ≡ (start_of self.old i).answer }
        ensures serves { Serves self.new.kernel self.new.memory }
        ensures levels { priority_count ≤ self.new.kernel.ready.levels }
        ensures laid { AreLaid self.new.memory self.new.modules }
        ensures count { length self.new.modules ≡ length self.old.modules }
        ensures images { images_in self.new.memory self.new.modules
            ≡ images_in self.old.memory self.old.modules }
    {
        a_write_changes_its_range_alone();
        a_write_changes_its_bytes_alone();
        a_start_writes_its_data_region_alone();
        self.modules.start(&mut self.kernel, &mut self.memory, i)
    }

    /// Starts a module, where it is to start.
    fn start_one(&mut self, m: &BoardModule, i: ModNo)
        requires serves { Serves self.old.kernel self.old.memory }
        requires levels { priority_count ≤ self.old.kernel.ready.levels }
        requires laid { AreLaid self.old.memory self.old.modules }
        requires row { i < length self.old.modules }
        ensures parts { self.new ≡ one_started i m.now self.old }
        ensures serves { Serves self.new.kernel self.new.memory }
        ensures levels { priority_count ≤ self.new.kernel.ready.levels }
        ensures laid { AreLaid self.new.memory self.new.modules }
        ensures count { length self.new.modules ≡ length self.old.modules }
        ensures images { images_in self.new.memory self.new.modules
            ≡ images_in self.old.memory self.old.modules }
    {
        if m.start {
            self.start(i);
        }
    }

    /// Starts the modules that are to start, in their order.
    fn start_all(&mut self, modules: &[BoardModule])
        requires serves { Serves self.old.kernel self.old.memory }
        requires levels { priority_count ≤ self.old.kernel.ready.levels }
        requires laid { AreLaid self.old.memory self.old.modules }
        requires count { length self.old.modules ≡ length modules.now }
        ensures parts { self.new ≡ all_started 0 modules.now self.old }
        ensures serves { Serves self.new.kernel self.new.memory }
        ensures levels { priority_count ≤ self.new.kernel.ready.levels }
        ensures laid { AreLaid self.new.memory self.new.modules }
        ensures count { length self.new.modules ≡ length self.old.modules }
        ensures images { images_in self.new.memory self.new.modules
            ≡ images_in self.old.memory self.old.modules }
    {
        for (i, m) in modules.iter().enumerate() {
            self.start_one(m, ModNo::new(i as u8));
        }
    }
}

/// A board's parts, where those of its modules that are to start were started.
#[tactic(auto, unfolding(crate::specs::Boot::booted_parts))]
fn booted_parts(alloc: Global, board: &Board, images: &[Vec<u8>]) -> Result<Parts, BootErr>
    requires board { IsBoard board.now }
    requires images { length images.now ≡ length board.now.modules }
    ensures parts { IfOk result (λ p. p ≡ booted_parts board.now (contents images.now)) }
    ensures serves { IfOk result (λ p. Serves p.kernel p.memory) }
    ensures levels { IfOk result (λ p. priority_count ≤ p.kernel.ready.levels) }
    ensures laid { IfOk result (λ p. AreLaid p.memory p.modules) }
    ensures count { IfOk result (λ p. length p.modules ≡ length board.now.modules) }
    ensures images { IfOk result (λ p. images_in p.memory p.modules ≡ contents images.now) }
    ensures accepted { IfOk result (λ _. boot_refusal board.now (contents images.now) ≡ None) }
    ensures refused { IfErr result (Refuses (boot_refusal board.now (contents images.now))) }
{
    let mut parts = load(alloc, board, images)?;
    parts.start_all(board.modules.items());
    Ok(parts)
}

/// A copy of a board: the same fields.
fn copy_of(board: &Board) -> Result<Board, AllocError>
    ensures { IfOk result (λ b. b ≡ board.now) }
{
    board.clone()
}

impl Machine {
    /// Boots a board with the images of its modules, in their order, and with room for the given
    /// number of interrupts: the images lie in RAM, which is zero elsewhere, and the modules that
    /// are to start were started in their order. `Image` where an image breaks a rule, with the
    /// first one's number; then `NoRoom`, with the number of the first module that finds no room.
    pub fn boot(
        alloc: Global,
        board: &Board,
        images: &[Vec<u8>],
        max_irqs: u32,
    ) -> Result<Machine, BootErr>
        requires board { IsBoard board.now }
        requires images { length images.now ≡ length board.now.modules }
        requires irqs { max_irqs ≤ interrupt_limit }
        ensures booted { IfOk result (λ m. m ≡ record {
          origin = record { board = board.now; images = contents images.now };
          history = [];
          irqs = max_irqs;
        }) }
        ensures accepted { IfOk result (λ _. boot_refusal board.now (contents images.now) ≡ None) }
        ensures refused { IfErr result (Refuses (boot_refusal board.now (contents images.now))) }
    {
        no_wait_is_lost();
        let parts = booted_parts(alloc, board, images)?;
        let history = History::reserve(alloc, max_irqs)?;
        let board = copy_of(board)?;
        Ok(Machine {
            board,
            parts,
            history,
        })
    }
}
