//! What an instruction asks for: one of nine operations on a hart and its bus.
//!
//! An operation has all that it needs of the registers, so a hart is read here and changed where it is
//! performed.
ghost use Rattle.std.specs.Prelude.{◌≡◌, ◌/◌, ◌*◌, pos, ◌+ℤ◌};
ghost use Rattle.machine_words.specs.Bits.{word_of};
ghost use Rattle.rv_decode.specs.WellFormed.{IsWellFormed};
ghost use Rattle.rv_core.specs.Execute.{effect};
ghost use Rattle.rv_core.specs.Memory.{Memory};
ghost use Rattle.rv_core.specs.Operation.{IsFormed, meaning};

use crate::arithmetic::{
    difference, high_product_mixed, high_product_signed, high_product_unsigned, less_signed,
    less_unsigned, quotient, quotient_unsigned, remainder, remainder_unsigned, shifted_left,
    shifted_right, shifted_right_signed,
};
use crate::hart::Hart;
use rv_decode::Instr;

/// An operation, with the values of the registers that it takes.
#[derive(Clone, Copy)]
pub(crate) enum Operation {
    /// To write a register and go on.
    Write { rd: u8, value: u32 },
    /// To go to a target, and write the address of the next instruction.
    Jump { rd: u8, target: u32 },
    /// To go to a target by an immediate where the branch is taken, and else on.
    Branch { taken: bool, imm: i32 },
    /// To load n bytes with zeros above them.
    Load { rd: u8, a: u32, n: u32 },
    /// To load n bytes, sign-extended.
    LoadSigned { rd: u8, a: u32, n: u32 },
    /// To store the low n bytes of a value.
    Store { a: u32, n: u32, value: u32 },
    /// To go on.
    Next,
    Call,
    Break,
}

/// The operation of an instruction, one line a row of the instruction table.
#[rattlefmt::skip]
#[inline]
pub(crate) fn asked(i: Instr, hart: &Hart) -> Operation
    requires { IsWellFormed i }
    ensures meaning { (m : Memory) → effect i m hart.now ≡ meaning result m hart.now }
    ensures formed { IsFormed result }
{
    match i {
        Instr::Lui { rd, imm } => Operation::Write { rd, value: imm.cast_unsigned() },
        Instr::Auipc { rd, imm } => Operation::Write { rd, value: displaced(hart.pc, imm) },
        Instr::Jal { rd, imm } => Operation::Jump { rd, target: displaced(hart.pc, imm) },
        Instr::Jalr { rd, rs1, imm } => Operation::Jump { rd, target: even(displaced(hart.get(rs1), imm)) },
        Instr::Beq { rs1, rs2, imm } => Operation::Branch { taken: hart.get(rs1) == hart.get(rs2), imm },
        Instr::Bne { rs1, rs2, imm } => Operation::Branch { taken: hart.get(rs1) != hart.get(rs2), imm },
        Instr::Blt { rs1, rs2, imm } => Operation::Branch { taken: less_signed(hart.get(rs1), hart.get(rs2)), imm },
        Instr::Bge { rs1, rs2, imm } => Operation::Branch { taken: !less_signed(hart.get(rs1), hart.get(rs2)), imm },
        Instr::Bltu { rs1, rs2, imm } => Operation::Branch { taken: less_unsigned(hart.get(rs1), hart.get(rs2)), imm },
        Instr::Bgeu { rs1, rs2, imm } => Operation::Branch { taken: !less_unsigned(hart.get(rs1), hart.get(rs2)), imm },
        Instr::Lb { rd, rs1, imm } => Operation::LoadSigned { rd, a: displaced(hart.get(rs1), imm), n: 1 },
        Instr::Lh { rd, rs1, imm } => Operation::LoadSigned { rd, a: displaced(hart.get(rs1), imm), n: 2 },
        Instr::Lw { rd, rs1, imm } => Operation::Load { rd, a: displaced(hart.get(rs1), imm), n: 4 },
        Instr::Lbu { rd, rs1, imm } => Operation::Load { rd, a: displaced(hart.get(rs1), imm), n: 1 },
        Instr::Lhu { rd, rs1, imm } => Operation::Load { rd, a: displaced(hart.get(rs1), imm), n: 2 },
        Instr::Sb { rs1, rs2, imm } => Operation::Store { a: displaced(hart.get(rs1), imm), n: 1, value: hart.get(rs2) },
        Instr::Sh { rs1, rs2, imm } => Operation::Store { a: displaced(hart.get(rs1), imm), n: 2, value: hart.get(rs2) },
        Instr::Sw { rs1, rs2, imm } => Operation::Store { a: displaced(hart.get(rs1), imm), n: 4, value: hart.get(rs2) },
        Instr::Addi { rd, rs1, imm } => Operation::Write { rd, value: displaced(hart.get(rs1), imm) },
        Instr::Slti { rd, rs1, imm } => Operation::Write { rd, value: u32::from(hart.get(rs1).cast_signed() < imm) },
        Instr::Sltiu { rd, rs1, imm } => Operation::Write { rd, value: u32::from(less_unsigned(hart.get(rs1), imm.cast_unsigned())) },
        Instr::Xori { rd, rs1, imm } => Operation::Write { rd, value: hart.get(rs1) ^ imm.cast_unsigned() },
        Instr::Ori { rd, rs1, imm } => Operation::Write { rd, value: hart.get(rs1) | imm.cast_unsigned() },
        Instr::Andi { rd, rs1, imm } => Operation::Write { rd, value: hart.get(rs1) & imm.cast_unsigned() },
        Instr::Slli { rd, rs1, amount } => Operation::Write { rd, value: shifted_left(hart.get(rs1), u32::from(amount)) },
        Instr::Srli { rd, rs1, amount } => Operation::Write { rd, value: shifted_right(hart.get(rs1), u32::from(amount)) },
        Instr::Srai { rd, rs1, amount } => Operation::Write { rd, value: shifted_right_signed(hart.get(rs1), u32::from(amount)) },
        Instr::Add { rd, rs1, rs2 } => Operation::Write { rd, value: hart.get(rs1).wrapping_add(hart.get(rs2)) },
        Instr::Sub { rd, rs1, rs2 } => Operation::Write { rd, value: difference(hart.get(rs1), hart.get(rs2)) },
        Instr::Sll { rd, rs1, rs2 } => Operation::Write { rd, value: shifted_left(hart.get(rs1), hart.get(rs2)) },
        Instr::Slt { rd, rs1, rs2 } => Operation::Write { rd, value: u32::from(less_signed(hart.get(rs1), hart.get(rs2))) },
        Instr::Sltu { rd, rs1, rs2 } => Operation::Write { rd, value: u32::from(less_unsigned(hart.get(rs1), hart.get(rs2))) },
        Instr::Xor { rd, rs1, rs2 } => Operation::Write { rd, value: hart.get(rs1) ^ hart.get(rs2) },
        Instr::Srl { rd, rs1, rs2 } => Operation::Write { rd, value: shifted_right(hart.get(rs1), hart.get(rs2)) },
        Instr::Sra { rd, rs1, rs2 } => Operation::Write { rd, value: shifted_right_signed(hart.get(rs1), hart.get(rs2)) },
        Instr::Or { rd, rs1, rs2 } => Operation::Write { rd, value: hart.get(rs1) | hart.get(rs2) },
        Instr::And { rd, rs1, rs2 } => Operation::Write { rd, value: hart.get(rs1) & hart.get(rs2) },
        Instr::Fence { .. } => Operation::Next,
        Instr::Ecall => Operation::Call,
        Instr::Ebreak => Operation::Break,
        Instr::Mul { rd, rs1, rs2 } => Operation::Write { rd, value: hart.get(rs1).wrapping_mul(hart.get(rs2)) },
        Instr::Mulh { rd, rs1, rs2 } => Operation::Write { rd, value: high_product_signed(hart.get(rs1), hart.get(rs2)) },
        Instr::Mulhsu { rd, rs1, rs2 } => Operation::Write { rd, value: high_product_mixed(hart.get(rs1), hart.get(rs2)) },
        Instr::Mulhu { rd, rs1, rs2 } => Operation::Write { rd, value: high_product_unsigned(hart.get(rs1), hart.get(rs2)) },
        Instr::Div { rd, rs1, rs2 } => Operation::Write { rd, value: quotient(hart.get(rs1), hart.get(rs2)) },
        Instr::Divu { rd, rs1, rs2 } => Operation::Write { rd, value: quotient_unsigned(hart.get(rs1), hart.get(rs2)) },
        Instr::Rem { rd, rs1, rs2 } => Operation::Write { rd, value: remainder(hart.get(rs1), hart.get(rs2)) },
        Instr::Remu { rd, rs1, rs2 } => Operation::Write { rd, value: remainder_unsigned(hart.get(rs1), hart.get(rs2)) },
    }
}

/// A word and an immediate added up, modulo 2^32.
#[inline]
pub(crate) fn displaced(a: u32, imm: i32) -> u32
    ensures { result ≡ word_of (pos a +ℤ imm) }
{
    a.wrapping_add(imm.cast_unsigned())
}

/// A word with bit 0 cleared.
#[inline]
fn even(a: u32) -> u32
    ensures { result ≡ a / 2 * 2 }
{
    a & !1
}
