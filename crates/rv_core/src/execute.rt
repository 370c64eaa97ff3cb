//! The step of one instruction.
//!
//! A fault changes neither the hart nor the bus, and ECALL changes pc alone. What is done about a
//! call or a fault is left to the layers above.
ghost use Rattle.std.specs.Prelude.{◌≡◌, ◌%◌, ◌^◌, ◌<◌};
ghost use Rattle.machine_words.specs.Bits.{signed, word_of};
ghost use Rattle.rv_decode.specs.WellFormed.{IsWellFormed};
ghost use Rattle.rv_core.specs.Execute.{executed, effect, writes, jumps, goes_to, branches, loads_signed, loads_unsigned, stores, sign_extended, hart_after, bus_after, Stored, out_of};
ghost use Rattle.rv_core.specs.Hart.{advanced};
ghost use Rattle.rv_core.specs.Operation.{IsFormed, meaning};
ghost use Rattle.rv_core.specs.declared.bus.Cause.{Cause};
ghost use Rattle.machine_words.specs.Number.{IsWidth};

use crate::bus::{Bus, Cause};
use crate::hart::Hart;
use crate::operation::{Operation, asked, displaced};
use rv_decode::{Instr, decode};

/// How a step ends: the instruction completed, it is ECALL, or it can't be executed.
#[derive(Clone, Copy, Debug, PartialEq, Eq)]
pub enum Out {
    Done,
    Call,
    Fault(Cause),
}

/// Executes the instruction at pc. After a call only pc changed, by 4; after a fault nothing did.
#[tactic(auto, using(crate::proofs::Effects::effect_fault), unfolding(crate::specs::Execute::executed))]
pub fn step<B: Bus>(hart: &mut Hart, bus: &mut B) -> Out
    ensures out { result ≡ out_of (executed (B.memory bus.old) hart.old) }
    ensures hart { hart.new ≡ hart_after (executed (B.memory bus.old) hart.old) hart.old }
    ensures bus { bus.new ≡ bus_after B.after_store (executed (B.memory bus.old) hart.old) bus.old }
    ensures bytes { Stored (executed (B.memory bus.old) hart.old)
        (B.memory bus.old) (B.memory bus.new) }
    ensures call { result ≡ Out.Call → hart.new ≡ advanced hart.old }
    ensures fault { (cause : Cause) → result ≡ Out.Fault cause
        → (hart.new ≡ hart.old) × (bus.new ≡ bus.old) }
{
    let word = match bus.fetch(hart.pc) {
        Ok(word) => word,
        Err(cause) => return Out::Fault(cause),
    };
    match decode(word) {
        Some(i) => execute(i, hart, bus),
        None => Out::Fault(Cause::Illegal),
    }
}

/// Executes an instruction.
fn execute<B: Bus>(i: Instr, hart: &mut Hart, bus: &mut B) -> Out
    requires { IsWellFormed i }
    ensures out { result ≡ out_of (effect i (B.memory bus.old) hart.old) }
    ensures hart { hart.new ≡ hart_after (effect i (B.memory bus.old) hart.old) hart.old }
    ensures bus { bus.new ≡ bus_after B.after_store (effect i (B.memory bus.old) hart.old) bus.old }
    ensures bytes { Stored (effect i (B.memory bus.old) hart.old)
        (B.memory bus.old) (B.memory bus.new) }
{
    let operation = asked(i, hart);
    perform(operation, hart, bus)
}

/// Performs an operation.
#[inline]
#[tactic(auto, using(crate::proofs::Effects::keeps_the_bus))]
fn perform<B: Bus>(operation: Operation, hart: &mut Hart, bus: &mut B) -> Out
    requires { IsFormed operation }
    ensures out { result ≡ out_of (meaning operation (B.memory bus.old) hart.old) }
    ensures hart { hart.new ≡ hart_after (meaning operation (B.memory bus.old) hart.old) hart.old }
    ensures bus { bus.new
        ≡ bus_after B.after_store (meaning operation (B.memory bus.old) hart.old) bus.old }
    ensures bytes { Stored (meaning operation (B.memory bus.old) hart.old)
        (B.memory bus.old) (B.memory bus.new) }
{
    match operation {
        Operation::Write { rd, value } => write(hart, rd, value),
        Operation::Jump { rd, target } => jump(hart, rd, target),
        Operation::Branch { taken, imm } => branch(hart, taken, imm),
        Operation::Load { rd, a, n } => load(hart, bus, rd, a, n),
        Operation::LoadSigned { rd, a, n } => load_signed(hart, bus, rd, a, n),
        Operation::Store { a, n, value } => store(hart, bus, a, n, value),
        Operation::Next => next(hart),
        Operation::Call => {
            hart.advance();
            Out::Call
        }
        Operation::Break => Out::Fault(Cause::Breakpoint),
    }
}

/// Goes on to the next instruction.
#[inline]
fn next(hart: &mut Hart) -> Out
    ensures out { result ≡ Out.Done }
    ensures hart { hart.new ≡ advanced hart.old }
{
    hart.advance();
    Out::Done
}

/// Writes a register and goes on to the next instruction.
#[inline]
fn write(hart: &mut Hart, rd: u8, value: u32) -> Out
    requires { rd < 32 }
    ensures out { result ≡ out_of (writes hart.old rd value) }
    ensures hart { hart.new ≡ hart_after (writes hart.old rd value) hart.old }
{
    hart.set(rd, value);
    next(hart)
}

/// Goes to a target, which 4 must divide.
#[inline]
#[tactic(auto, unfolding(crate::specs::Execute::goes_to))]
fn go_to(hart: &mut Hart, target: u32) -> Out
    ensures out { result ≡ out_of (goes_to hart.old target) }
    ensures hart { hart.new ≡ hart_after (goes_to hart.old target) hart.old }
{
    if target % 4 != 0 {
        return Out::Fault(Cause::FetchMisaligned);
    }
    hart.pc = target;
    Out::Done
}

/// Jumps to a target, and writes the address of the next instruction.
#[inline]
#[tactic(auto, unfolding(crate::specs::Execute::jumps))]
fn jump(hart: &mut Hart, rd: u8, target: u32) -> Out
    requires { rd < 32 }
    ensures out { result ≡ out_of (jumps hart.old rd target) }
    ensures hart { hart.new ≡ hart_after (jumps hart.old rd target) hart.old }
{
    if target % 4 != 0 {
        return Out::Fault(Cause::FetchMisaligned);
    }
    hart.set(rd, hart.pc.wrapping_add(4));
    hart.pc = target;
    Out::Done
}

/// Branches by an immediate where the branch is taken.
#[inline]
#[tactic(auto, unfolding(crate::specs::Execute::branches))]
fn branch(hart: &mut Hart, taken: bool, imm: i32) -> Out
    ensures out { result ≡ out_of (branches hart.old taken imm) }
    ensures hart { hart.new ≡ hart_after (branches hart.old taken imm) hart.old }
{
    if taken {
        let target = displaced(hart.pc, imm);
        go_to(hart, target)
    } else {
        next(hart)
    }
}

/// Loads n bytes into a register, with zeros above them.
#[inline]
fn load<B: Bus>(hart: &mut Hart, bus: &B, rd: u8, a: u32, n: u32) -> Out
    requires register { rd < 32 }
    requires width { IsWidth n }
    ensures out { result ≡ out_of (loads_unsigned (B.memory bus.now) hart.old rd a n) }
    ensures hart { hart.new
        ≡ hart_after (loads_unsigned (B.memory bus.now) hart.old rd a n) hart.old }
{
    match bus.load(a, n) {
        Ok(value) => write(hart, rd, value),
        Err(cause) => Out::Fault(cause),
    }
}

/// Loads n bytes into a register, sign-extended.
#[inline]
fn load_signed<B: Bus>(hart: &mut Hart, bus: &B, rd: u8, a: u32, n: u32) -> Out
    requires register { rd < 32 }
    requires width { IsWidth n }
    ensures out { result ≡ out_of (loads_signed (B.memory bus.now) hart.old rd a n) }
    ensures hart { hart.new
        ≡ hart_after (loads_signed (B.memory bus.now) hart.old rd a n) hart.old }
{
    match bus.load(a, n) {
        Ok(value) => write(hart, rd, sign_extended(value, n)),
        Err(cause) => Out::Fault(cause),
    }
}

/// The low n bytes of a number, sign-extended.
#[inline]
#[tactic(auto, using(crate::proofs::Extending::whole_extended), unfolding(crate::specs::Execute::sign_extended))]
fn sign_extended(value: u32, n: u32) -> u32
    requires { IsWidth n }
    ensures { result ≡ sign_extended n value }
{
    match n {
        1 => extended_byte(value),
        2 => extended_half(value),
        _ => value,
    }
}

#[inline]
#[tactic(auto, using(crate::proofs::Extending::byte_extended))]
fn extended_byte(value: u32) -> u32
    ensures { result ≡ word_of (signed 8 (value % 2 ^ 8)) }
{
    i32::from(((value & 0xFF) as u8).cast_signed()).cast_unsigned()
}

#[inline]
#[tactic(auto, using(crate::proofs::Extending::half_extended))]
fn extended_half(value: u32) -> u32
    ensures { result ≡ word_of (signed 16 (value % 2 ^ 16)) }
{
    i32::from(((value & 0xFFFF) as u16).cast_signed()).cast_unsigned()
}

/// Stores the low n bytes of a value.
#[inline]
fn store<B: Bus>(hart: &mut Hart, bus: &mut B, a: u32, n: u32, value: u32) -> Out
    requires { IsWidth n }
    ensures out { result ≡ out_of (stores (B.memory bus.old) hart.old a n value) }
    ensures hart { hart.new ≡ hart_after (stores (B.memory bus.old) hart.old a n value) hart.old }
    ensures bus { bus.new
        ≡ bus_after B.after_store (stores (B.memory bus.old) hart.old a n value) bus.old }
    ensures bytes { Stored (stores (B.memory bus.old) hart.old a n value)
        (B.memory bus.old) (B.memory bus.new) }
{
    match bus.store(a, n, value) {
        Ok(()) => next(hart),
        Err(cause) => Out::Fault(cause),
    }
}
