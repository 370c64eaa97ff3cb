//! One module image, run alone.
//!
//! The image is module 0, and its code and data are all that it may use.
ghost use Rattle.std.specs.Prelude.{◌≡◌, ◌+◌, ◌≤◌, ◌++◌, length};
ghost use Rattle.std.specs.Option.{option_map};
ghost use Rattle.tx_types.specs.Limits.{line_room};
ghost use Rattle.arrayvec.specs.ArrayString.{array_string_len};
ghost use Rattle.board_run.specs.Due.{image_ran, hart_ran};
ghost use Rattle.board_run.specs.Held.{most_image};
ghost use Rattle.board_io.specs.Faults.{Rose};
ghost use Rattle.board_run.specs.Reading.{Gives, GivesHere};
ghost use Rattle.board_io.specs.Sink.{Wrote};
ghost use Rattle.board_run.specs.Hart.{memory_ran, hart_text, end_text, steps_line, pc_line, regs_line};

use crate::alone::{RAM_ALONE, memory_alone, place_alone};
use crate::images::preamble_of;
use crate::reading::image_of;
use crate::refusal::Stop;
use board_core::burst;
use board_io::{Files, Sink, WriteErr};
use board_report::{end_line, put_words};
use module_loader::opening;
use region_guard::Guard;
use rv_core::{Cause, Hart, Out};
use std::alloc::Global;
use tx_types::{Line, ModNo, put_decimal, put_hex};

/// How a run of a bounded number of instructions ended.
#[derive(Clone, Copy, Debug, PartialEq, Eq)]
pub enum End {
    Count,
    Call,
    Fault(Cause),
}

/// A run: how many instructions completed, how it ended, and the hart then.
#[derive(Clone, Copy, Debug, PartialEq, Eq)]
pub struct Ran {
    pub steps: u32,
    pub end: End,
    pub hart: Hart,
}

/// The run of an image that lies alone, for at most the given number of instructions, or its
/// refusal.
#[tactic(auto, using(crate::proofs::LyingAlone::lies_alone), unfolding(crate::specs::Due::image_ran))]
fn image_ran(alloc: Global, image: &[u8], most: u32) -> Result<Ran, Stop>
    requires { length image.now ≤ most_image }
    ensures { GivesHere (λ r. r) (image_ran most image.now) result }
{
    let p = preamble_of(0, image)?;
    let at = place_alone(alloc, &p)?;
    let mut guard = memory_alone(alloc, RAM_ALONE, &p, at, image)?;
    let hart = opening(&p, at, p.start, false);
    Ok(memory_ran(&mut guard, hart, most))
}

/// Reads an image and runs it alone, for at most the given number of instructions.
#[tactic(auto, using(crate::proofs::Step::steps), unfolding(crate::specs::Due::hart_ran))]
pub fn hart_ran<F: Files>(alloc: Global, name: &str, most: u32, files: &mut F) -> Result<Ran, Stop>
    ensures held { F.held files.new ≡ F.held files.old }
    ensures counted { F.faults files.old ≤ F.faults files.new }
    ensures ran { Gives (λ r. r) (option_map (hart_ran name.now most) (F.held files.old))
        (Rose (F.faults files.old) (F.faults files.new)) result }
{
    let image = image_of(alloc, 0, name, files)?;
    image_ran(alloc, &image, most)
}

/// Writes the text of a run, a line at a time.
#[tactic(auto, using(crate::proofs::Writing::writing), unfolding(crate::specs::Hart::hart_text))]
pub fn write_hart<S: Sink>(ran: &Ran, sink: &mut S) -> Result<(), WriteErr>
    ensures counted { S.faults sink.old ≤ S.faults sink.new }
    ensures wrote { Wrote (S.faults sink.old) (S.faults sink.new)
        (S.written sink.old) (S.written sink.new)
        (hart_text ran.now) result }
{
    sink.write(steps_line(ran).as_str().as_bytes())?;
    sink.write(pc_line(ran).as_str().as_bytes())?;
    sink.write(regs_line(ran).as_str().as_bytes())
}

/// Runs the code of module 0. A call isn't counted, and pc stays on it.
#[tactic(auto, unfolding(crate::specs::Hart::memory_ran))]
fn memory_ran(guard: &mut Guard, mut hart: Hart, most: u32) -> Ran
    ensures { result ≡ memory_ran most guard.old hart }
{
    let ran = burst(&mut hart, guard, ModNo::new(0), most);
    let end = match ran.out {
        Out::Done => End::Count,
        Out::Call => {
            hart.pc = hart.pc.wrapping_sub(4);
            End::Call
        }
        Out::Fault(cause) => End::Fault(cause),
    };
    Ran {
        steps: ran.done,
        end,
        hart,
    }
}

/// Appends how a run ended.
fn put_end(line: &mut Line, end: End)
    requires { array_string_len line.old + 16 ≤ line_room }
    ensures bytes { line.new.bytes ≡ line.old.bytes ++ end_text end }
    ensures short { array_string_len line.new ≤ array_string_len line.old + 16 }
{
    match end {
        End::Count => line.push_str("count"),
        End::Call => line.push_str("call"),
        End::Fault(cause) => {
            line.push_str("fault ");
            put_decimal(line, cause.number());
        }
    }
}

/// The line of the steps and the end.
#[tactic(auto, unfolding(crate::specs::Hart::steps_line))]
fn steps_line(ran: &Ran) -> Line
    ensures { result.bytes ≡ steps_line ran.now }
{
    let mut line = Line::new();
    line.push_str("hart steps ");
    put_decimal(&mut line, ran.steps);
    line.push_str(" end ");
    put_end(&mut line, ran.end);
    end_line(&mut line);
    line
}

/// The line of the program counter.
#[tactic(auto, unfolding(crate::specs::Hart::pc_line))]
fn pc_line(ran: &Ran) -> Line
    ensures { result.bytes ≡ pc_line ran.now }
{
    let mut line = Line::new();
    line.push_str("pc ");
    put_hex(&mut line, ran.hart.pc);
    end_line(&mut line);
    line
}

/// The line of the registers x1 to x31.
#[tactic(auto, unfolding(crate::specs::Hart::regs_line))]
fn regs_line(ran: &Ran) -> Line
    ensures { result.bytes ≡ regs_line ran.now }
{
    let mut line = Line::new();
    line.push_str("regs");
    put_words(&mut line, ran.hart.general());
    end_line(&mut line);
    line
}
