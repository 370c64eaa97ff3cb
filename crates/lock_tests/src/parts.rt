//! A booted board of one module and two devices, and an inbox with the passes of two devices.
//!
//! No event is made here. A machine has many parts, so each way on which one is let go is long to prove;
//! it is booted last, from a board that is only lent.
ghost use Rattle.std.specs.Prelude.{◌≡◌, [], length, IfOk, IfSome};
ghost use Rattle.board_file.specs.Board.{script_words};
ghost use Rattle.board_file.specs.Rules.{IsBoard};
ghost use Rattle.irq_inbox.specs.Seen.{AreAllOf};

use board_core::Machine;
use board_file::{Board, read_board};
use irq_inbox::{DevPass, Inbox};
use std::alloc::{AllocError, Global};
use std::test::Fail;

/// How many devices the board has, and how many words these have together.
pub const DEVICES: u8 = 2;

pub const WORDS: u32 = 5;

/// Three words of device 0 and two of device 1, and four steps.
const BOARD: &str = "ram = 1048576
steps = 4
[[module]]
name = \"one\"
image = \"p\"
[[device]]
name = \"a\"
action = \"resume\"
target = \"start\"
script = [10, 11, 12]
[[device]]
name = \"b\"
action = \"resume\"
target = \"start\"
script = [20, 21]
";

/// A preamble with 64 bytes of data and a start stack of 256, and after it ADDI x5,x0,7.
const IMAGE: [u32; 17] = [
    0x4D4F_4455,
    6,
    0,
    32,
    1,
    3,
    128,
    128,
    0,
    10,
    256,
    0,
    0,
    0,
    132,
    64,
    0x0070_0293,
];

/// The bytes of the image: sixteen words of the preamble are 0.
fn image(alloc: Global) -> Result<Vec<u8>, AllocError> {
    let mut bytes = Vec::new(alloc);
    let (head, code) = IMAGE.split_at(16);
    for word in head.iter().chain(&[0; 16]).chain(code) {
        bytes.extend_from_slice(&word.to_le_bytes())?;
    }
    Ok(bytes)
}

/// The board with the images of its modules, booted.
fn boot(alloc: Global, board: &Board, images: &[Vec<u8>]) -> Result<Machine, Fail>
    requires rules { IsBoard board.now }
    ensures rules { IfOk result (λ m. IsBoard m.origin.board) }
    ensures fresh { IfOk result (λ m. m.history ≡ []) }
    ensures devices { IfOk result (λ m. length m.origin.board.devices ≡ 2) }
    ensures words { IfOk result (λ m. script_words m.origin.board.devices ≡ 5) }
    ensures room { IfOk result (λ m. m.irqs ≡ 5) }
{
    let counts = (board.modules.items().len(), board.devices.items().len());
    if counts != (images.len(), usize::from(DEVICES)) || board.words() != WORDS {
        return Err(Fail::from("a board of other modules or devices"));
    }
    Ok(Machine::boot(alloc, board, images, WORDS)?)
}

/// The board of this file, booted.
pub fn booted(alloc: Global) -> Result<Machine, Fail>
    ensures rules { IfOk result (λ m. IsBoard m.origin.board) }
    ensures fresh { IfOk result (λ m. m.history ≡ []) }
    ensures devices { IfOk result (λ m. length m.origin.board.devices ≡ 2) }
    ensures words { IfOk result (λ m. script_words m.origin.board.devices ≡ 5) }
    ensures room { IfOk result (λ m. m.irqs ≡ 5) }
{
    let images = vec![in alloc; image(alloc)?]?;
    let board = read_board(alloc, BOARD.as_bytes()).map_err(|_| "not a board")?;
    boot(alloc, &board, &images)
}

/// The passes of the first two devices of an inbox.
pub fn first_two(inbox: &Inbox, devs: Vec<DevPass>) -> Option<(DevPass, DevPass)>
    requires { AreAllOf inbox.now (length devs.items) devs.items }
    ensures one { IfSome result (λ p. p.0.inbox ≡ inbox.now) }
    ensures two { IfSome result (λ p. p.1.inbox ≡ inbox.now) }
{
    let _ = inbox;
    let mut passes = devs.into_iter();
    let one = passes.next()?;
    let two = passes.next()?;
    Some((one, two))
}
