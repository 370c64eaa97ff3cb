//! A board and the images of its modules, read from their files.
//!
//! The board is read first, and then each image in the board's order; no preamble is looked at here.
ghost use Rattle.std.specs.Prelude.{◌≡◌, ◌≤◌, length, IfOk};
ghost use Rattle.std.specs.Option.{option_map};
ghost use Rattle.tx_types.specs.Limits.{module_limit};
ghost use Rattle.board_file.specs.Answer.{board_in};
ghost use Rattle.board_file.specs.Rules.{IsBoard};
ghost use Rattle.board_run.specs.Boards.{IsLoaded, board_at, images_at, loaded_at};
ghost use Rattle.board_io.specs.Faults.{Rose};
ghost use Rattle.board_run.specs.Reading.{Gives, GivesHere};
ghost use Rattle.board_run.specs.Refused.{refused_board};

use crate::images::Images;
use crate::reading::{file_of, image_of};
use crate::refusal::{Refusal, Stop};
use board_file::{Board, BoardErr, BoardModule, read_board};
use board_io::Files;
use std::alloc::Global;

/// The most bytes that a board file may have.
const MOST_BOARD: u32 = 65_536;

/// A board, and the images of its modules in their order.
#[derive(Drop)]
pub struct Loaded {
    pub board: Board,
    pub images: Images,
}

/// The board that bytes mean, or why they are refused.
fn board_in(alloc: Global, bytes: &[u8]) -> Result<Board, Stop>
    ensures board { GivesHere (λ b. b) (refused_board (board_in bytes.now)) result }
    ensures rules { IfOk result IsBoard }
{
    match read_board(alloc, bytes) {
        Ok(board) => Ok(board),
        Err(BoardErr::NoMemory) => Err(Stop::NoMemory),
        Err(BoardErr::NotToml) => Err(Stop::Refused(Refusal::NotToml)),
        Err(BoardErr::Field(path)) => Err(Stop::Refused(Refusal::Field(path))),
    }
}

/// The board in the file of a name.
#[tactic(auto, using(crate::proofs::Step::steps), unfolding(crate::specs::Boards::board_at))]
fn board_of<F: Files>(alloc: Global, name: &str, files: &mut F) -> Result<Board, Stop>
    ensures held { F.held files.new ≡ F.held files.old }
    ensures counted { F.faults files.old ≤ F.faults files.new }
    ensures board { Gives (λ b. b) (option_map (board_at name.now) (F.held files.old))
        (Rose (F.faults files.old) (F.faults files.new)) result }
    ensures rules { IfOk result IsBoard }
{
    let bytes = file_of(alloc, name, MOST_BOARD, Refusal::BoardTooLarge, files)?;
    board_in(alloc, &bytes)
}

/// The images of modules, in their order.
fn images_of<F: Files>(
    alloc: Global,
    modules: &[BoardModule],
    files: &mut F,
) -> Result<Images, Stop>
    requires { length modules.now ≤ module_limit }
    ensures held { F.held files.new ≡ F.held files.old }
    ensures counted { F.faults files.old ≤ F.faults files.new }
    ensures images { Gives (λ i. i) (option_map (images_at modules.now) (F.held files.old))
        (Rose (F.faults files.old) (F.faults files.new)) result }
    ensures count { IfOk result (λ i. length i ≡ length modules.now) }
{
    let mut images = Vec::new(alloc);
    for (i, module) in modules.iter().enumerate() {
        let image = image_of(alloc, i as u8, module.image.as_str(), files)?;
        images.push(image)?;
    }
    Ok(Images::new(images))
}

/// The board in the file of a name, with the images of its modules.
pub fn load_board<F: Files>(alloc: Global, name: &str, files: &mut F) -> Result<Loaded, Stop>
    ensures held { F.held files.new ≡ F.held files.old }
    ensures counted { F.faults files.old ≤ F.faults files.new }
    ensures loaded { Gives (λ l. l) (option_map (loaded_at name.now) (F.held files.old))
        (Rose (F.faults files.old) (F.faults files.new)) result }
    ensures rules { IfOk result IsLoaded }
{
    let board = board_of(alloc, name, files)?;
    let images = images_of(alloc, board.modules.items(), files)?;
    Ok(Loaded { board, images })
}
