//! What `check` finds of a board: what each module wants of memory and where it lies, and the text.
//!
//! No board is booted and no instruction is executed. Nothing is written before each module has its
//! place.
ghost use Rattle.std.specs.Prelude.{◌≡◌, ◌≤◌, ◌<◌, length, map, IfOk};
ghost use Rattle.std.specs.Option.{option_map};
ghost use Rattle.tx_types.specs.Limits.{module_limit};
ghost use Rattle.board_run.specs.Boards.{IsLoaded};
ghost use Rattle.board_run.specs.Check.{IsWhole, want_in, checked, checked_at, module_line, modules_text, check_text};
ghost use Rattle.board_io.specs.Faults.{Rose};
ghost use Rattle.board_run.specs.Reading.{Gives, GivesHere};
ghost use Rattle.board_io.specs.Sink.{Wrote};
ghost use Rattle.board_run.specs.Step.{each};

use crate::boards::{Loaded, load_board};
use crate::images::preamble_of;
use crate::placing::placed;
use crate::refusal::Stop;
use board_file::{Board, BoardModule, BoardModules};
use board_io::{Files, Sink, WriteErr};
use board_report::{end_line, put_name};
use board_values::Rows;
use module_loader::{Placed, Want, want_of};
use std::alloc::Global;
use tx_types::{Line, put_decimal, put_hex};

/// The modules of a board, what each wants of memory, and where it lies.
#[derive(Drop)]
pub struct Checked {
    pub modules: BoardModules,
    pub wants: Rows<Want>,
    pub places: Rows<Placed>,
}

/// What the module of an image wants of memory.
#[tactic(auto, using(crate::proofs::Step::steps))]
fn want_in(number: u8, image: &[u8]) -> Result<Want, Stop>
    ensures { GivesHere (λ w. w) (want_in number image.now) result }
{
    let p = preamble_of(number, image)?;
    Ok(want_of(&p))
}

/// How much memory the modules of images need, in their order.
fn wants_in(alloc: Global, images: &[Vec<u8>]) -> Result<Vec<Want>, Stop>
    requires { length images.now ≤ module_limit }
    ensures wants { GivesHere (λ v. v.items)
        (each want_in 0 (map (λ v. v.items) images.now)) result }
    ensures count { IfOk result (λ v. length v.items ≡ length images.now) }
{
    let mut wants = Vec::new(alloc);
    for (i, image) in images.iter().enumerate() {
        let want = want_in(i as u8, image)?;
        wants.push(want)?;
    }
    Ok(wants)
}

/// The modules of a board, with what they want and where they lie.
#[tactic(auto, using(crate::proofs::Step::steps), unfolding(crate::specs::Check::checked))]
fn place_modules(alloc: Global, loaded: Loaded) -> Result<Checked, Stop>
    requires { IsLoaded loaded }
    ensures checked { GivesHere (λ c. c) (checked loaded) result }
    ensures whole { IfOk result IsWhole }
{
    let Loaded { board, images } = loaded;
    let wants = wants_in(alloc, images.as_slice())?;
    let places = placed(alloc, board.ram, &wants)?;
    Ok(Checked {
        modules: board.modules,
        wants: Rows::new(wants),
        places: Rows::new(places),
    })
}

/// Reads a board and its images, and places its modules.
#[tactic(auto, using(crate::proofs::Step::steps), unfolding(crate::specs::Check::checked_at))]
pub fn check_board<F: Files>(alloc: Global, name: &str, files: &mut F) -> Result<Checked, Stop>
    ensures held { F.held files.new ≡ F.held files.old }
    ensures counted { F.faults files.old ≤ F.faults files.new }
    ensures checked { Gives (λ c. c) (option_map (checked_at name.now) (F.held files.old))
        (Rose (F.faults files.old) (F.faults files.new)) result }
    ensures whole { IfOk result IsWhole }
{
    let loaded = load_board(alloc, name, files)?;
    place_modules(alloc, loaded)
}

/// Writes what was found, a line at a time.
#[tactic(auto, using(crate::proofs::Writing::writing), unfolding(crate::specs::Check::check_text))]
pub fn write_check<S: Sink>(checked: &Checked, sink: &mut S) -> Result<(), WriteErr>
    requires { IsWhole checked.now }
    ensures counted { S.faults sink.old ≤ S.faults sink.new }
    ensures wrote { Wrote (S.faults sink.old) (S.faults sink.new)
        (S.written sink.old) (S.written sink.new)
        (check_text checked.now) result }
{
    let modules = checked.modules.items();
    write_modules(
        modules,
        checked.wants.as_slice(),
        checked.places.as_slice(),
        sink,
    )?;
    sink.write("ok\n".as_bytes())
}

/// Writes a line for each module.
fn write_modules<S: Sink>(
    modules: &[BoardModule],
    wants: &[Want],
    places: &[Placed],
    sink: &mut S,
) -> Result<(), WriteErr>
    requires few { length modules.now ≤ module_limit }
    requires wants { length wants.now ≡ length modules.now }
    requires places { length places.now ≡ length modules.now }
    ensures counted { S.faults sink.old ≤ S.faults sink.new }
    ensures wrote { Wrote (S.faults sink.old) (S.faults sink.new)
        (S.written sink.old) (S.written sink.new)
        (modules_text 0 modules.now wants.now places.now) result }
{
    for (i, m) in modules.iter().enumerate() {
        let line = module_line(i as u8, m, &wants[i], places[i]);
        sink.write(line.as_str().as_bytes())?;
    }
    Ok(())
}

/// The line of a module.
#[tactic(auto, unfolding(crate::specs::Check::module_line))]
fn module_line(number: u8, m: &BoardModule, want: &Want, at: Placed) -> Line
    ensures { result.bytes ≡ module_line number m.now want.now at }
{
    let mut line = Line::new();
    line.push_str("module ");
    put_decimal(&mut line, u32::from(number));
    line.push_str(" ");
    put_name(&mut line, &m.name);
    line.push_str(" code ");
    put_hex(&mut line, at.code_base);
    line.push_str(" ");
    put_decimal(&mut line, want.code);
    line.push_str(" data ");
    put_hex(&mut line, at.data_base);
    line.push_str(" ");
    put_decimal(&mut line, want.data_bytes);
    end_line(&mut line);
    line
}
