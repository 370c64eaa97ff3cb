//! Where the modules of a board lie: their images are read, and then they take their places in RAM.
//!
//! The first image that breaks a rule is refused before any module is placed.
ghost use Rattle.std.specs.Prelude.{◌≡◌, ◌≤◌, ◌<◌, ◌^◌, length, map, zip, None, Ok, All, IfOk, IfErr};
ghost use Rattle.tx_types.specs.Limits.{module_limit};
ghost use Rattle.module_loader.specs.Want.{HasSizes, want_of};
ghost use Rattle.module_preamble.specs.Words.{words_of};
ghost use Rattle.module_manager.specs.Modules.{loaded};
ghost use Rattle.board_file.specs.Rules.{IsBoard};
ghost use Rattle.board_core.specs.Boot.{Refuses, boot_refusal, contents, image_refusal, loaded_modules, places_in, room_refusal};
ghost use Rattle.board_core.specs.Laid.{AreAccepted, AreLoaded};

use crate::boot::BootErr;
use board_file::Board;
use flat_ram::a_write_changes_its_range_alone;
use module_loader::{PlaceErr, Placed, Range, Want, place, want_of, what_is_placed_lies_apart};
use module_preamble::{Preamble, read};
use region_guard::RAM_BASE;
use std::alloc::{AllocError, Global};

/// What images say of their modules, or the first refusal.
fn preambles(alloc: Global, images: &[Vec<u8>]) -> Result<Vec<Preamble>, BootErr>
    requires { length images.now ≤ module_limit }
    ensures words { IfOk result (λ ps. ps.items ≡ map words_of (contents images.now)) }
    ensures accepted { IfOk result (λ _. AreAccepted (contents images.now)) }
    ensures none_refused { IfOk result (λ _. image_refusal 0 (contents images.now) ≡ None) }
    ensures refused { IfErr result (Refuses (image_refusal 0 (contents images.now))) }
{
    let mut preambles = Vec::with_capacity(alloc, images.len())?;
    for (i, image) in images.iter().enumerate() {
        match read(image) {
            Ok(p) => preambles.push_reserved(p),
            Err(e) => return Err(BootErr::Image(i as u8, e)),
        }
    }
    Ok(preambles)
}

/// How much memory modules need.
fn wants(alloc: Global, preambles: &[Preamble]) -> Result<Vec<Want>, AllocError>
    requires { All HasSizes preambles.now }
    ensures { IfOk result (λ ws. ws.items ≡ map want_of preambles.now) }
{
    let mut wants = Vec::with_capacity(alloc, preambles.len())?;
    for p in preambles {
        wants.push_reserved(want_of(p));
    }
    Ok(wants)
}

/// Where modules lie in RAM of the given number of bytes, or the first that finds no room.
fn places(alloc: Global, ram: u32, preambles: &[Preamble]) -> Result<Vec<Placed>, BootErr>
    requires ram { ram < 2 ^ 31 }
    requires few { length preambles.now ≤ module_limit }
    requires sizes { All HasSizes preambles.now }
    ensures placed { IfOk result (λ at. places_in ram preambles.now ≡ Ok at.items) }
    ensures refused { IfErr result (Refuses (room_refusal (places_in ram preambles.now))) }
{
    let free = [Range {
        base: RAM_BASE,
        size: ram,
    }];
    let wants = wants(alloc, preambles)?;
    match place(alloc, &free, &wants) {
        Ok(places) => Ok(places),
        Err(PlaceErr::NoMemory) => Err(BootErr::NoMemory),
        Err(PlaceErr::NoRoom(i)) => Err(BootErr::NoRoom(i)),
    }
}

/// What each module is made of: its preamble and its place.
fn rows_of(
    alloc: Global,
    preambles: &[Preamble],
    places: &[Placed],
) -> Result<Vec<(Preamble, Placed)>, AllocError>
    ensures { IfOk result (λ rows. rows.items ≡ zip preambles.now places.now) }
{
    preambles
        .iter()
        .copied()
        .zip(places.iter().copied())
        .collect(alloc)
}

/// What each module of a board is made of, or why the board isn't booted.
#[tactic(auto, unfolding(crate::specs::Boot::boot_refusal))]
pub(crate) fn place_modules(
    alloc: Global,
    board: &Board,
    images: &[Vec<u8>],
) -> Result<Vec<(Preamble, Placed)>, BootErr>
    requires board { IsBoard board.now }
    requires images { length images.now ≡ length board.now.modules }
    ensures rows { IfOk result (λ rows. map loaded rows.items
        ≡ loaded_modules board.now (contents images.now)) }
    ensures accepted { IfOk result (λ _. boot_refusal board.now (contents images.now) ≡ None) }
    ensures loaded { IfOk result (λ _. AreLoaded board.now (contents images.now)) }
    ensures refused { IfErr result (Refuses (boot_refusal board.now (contents images.now))) }
{
    what_is_placed_lies_apart();
    a_write_changes_its_range_alone();
    let preambles = preambles(alloc, images)?;
    let places = places(alloc, board.ram, &preambles)?;
    Ok(rows_of(alloc, &preambles, &places)?)
}
