//! A board that was read is booted, with room for a number of interrupts.
//!
//! No event is made here, and nothing is written.
ghost use Rattle.std.specs.Prelude.{◌≡◌, ◌≤◌, [], IfOk};
ghost use Rattle.std.specs.Option.{option_map};
ghost use Rattle.tx_types.specs.Limits.{interrupt_limit};
ghost use Rattle.board_file.specs.Board.{script_words};
ghost use Rattle.board_file.specs.Rules.{IsBoard};
ghost use Rattle.board_io.specs.Faults.{Rose};
ghost use Rattle.board_run.specs.Boards.{IsLoaded};
ghost use Rattle.board_run.specs.Booting.{booted_from, booted_at};
ghost use Rattle.board_run.specs.Reading.{Gives, GivesHere};

use crate::boards::{Loaded, load_board};
use crate::refusal::{Refusal, Stop};
use board_core::{BootErr, Machine};
use board_file::Board;
use board_io::Files;
use std::alloc::Global;

/// The booted board, on which nothing happened yet, with room for the given number of interrupts.
#[tactic(auto, unfolding(crate::specs::Booting::booted_from))]
pub fn boot(alloc: Global, loaded: &Loaded, irqs: u32) -> Result<Machine, Stop>
    requires loaded { IsLoaded loaded.now }
    requires room { irqs ≤ interrupt_limit }
    ensures origin { GivesHere (λ m. m.origin) (booted_from loaded.now) result }
    ensures board { IfOk result (λ m. m.origin.board ≡ loaded.now.board) }
    ensures fresh { IfOk result (λ m. m.history ≡ []) }
    ensures room { IfOk result (λ m. m.irqs ≡ irqs) }
{
    match Machine::boot(alloc, &loaded.board, loaded.images.as_slice(), irqs) {
        Ok(machine) => Ok(machine),
        Err(BootErr::NoMemory) => Err(Stop::NoMemory),
        Err(BootErr::Image(number, err)) => Err(Stop::Refused(Refusal::Image(number, err))),
        Err(BootErr::NoRoom(number)) => Err(Stop::Refused(Refusal::Room(number))),
    }
}

/// A board, and its machine, on which nothing happened yet, with room for all words of the board's
/// devices.
#[derive(Drop)]
pub struct Booted {
    pub board: Board,
    pub machine: Machine,
}

/// Boots a board that was read, with room for all words of its devices.
#[tactic(auto, using(crate::proofs::Step::steps))]
fn boot_loaded(alloc: Global, loaded: Loaded) -> Result<Booted, Stop>
    requires { IsLoaded loaded }
    ensures origin { GivesHere (λ b. b.machine.origin) (booted_from loaded) result }
    ensures board { IfOk result (λ b. b.machine.origin.board ≡ b.board) }
    ensures rules { IfOk result (λ b. IsBoard b.board) }
    ensures fresh { IfOk result (λ b. b.machine.history ≡ []) }
    ensures room { IfOk result (λ b. b.machine.irqs ≡ script_words b.board.devices) }
{
    let machine = boot(alloc, &loaded, loaded.board.words())?;
    Ok(Booted {
        board: loaded.board,
        machine,
    })
}

/// Reads a board and its images, and boots it, with room for all words of its devices.
#[tactic(auto, using(crate::proofs::Step::steps), unfolding(crate::specs::Booting::booted_at))]
pub fn boot_board<F: Files>(alloc: Global, name: &str, files: &mut F) -> Result<Booted, Stop>
    ensures held { F.held files.new ≡ F.held files.old }
    ensures counted { F.faults files.old ≤ F.faults files.new }
    ensures origin { Gives (λ b. b.machine.origin)
        (option_map (booted_at name.now) (F.held files.old))
        (Rose (F.faults files.old) (F.faults files.new)) result }
    ensures board { IfOk result (λ b. b.machine.origin.board ≡ b.board) }
    ensures rules { IfOk result (λ b. IsBoard b.board) }
    ensures fresh { IfOk result (λ b. b.machine.history ≡ []) }
    ensures room { IfOk result (λ b. b.machine.irqs ≡ script_words b.board.devices) }
{
    let loaded = load_board(alloc, name, files)?;
    boot_loaded(alloc, loaded)
}
