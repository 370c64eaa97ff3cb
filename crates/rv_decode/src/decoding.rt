//! From a word to its instruction: one match on opcode and funct3 together, then one on funct7.
//!
//! Each function reads the fields of its opcode's format once; no table is searched.

ghost use Rattle.std.specs.Prelude.{◌≡◌, ◌⊎◌, ◌+◌, ◌*◌, IfSome};
ghost use Rattle.machine_words.specs.Bits.{bits};
ghost use Rattle.rv_decode.specs.Decode.{decoded};
ghost use Rattle.rv_decode.specs.Fields.{opcode, funct3, funct7};
ghost use Rattle.rv_decode.specs.WellFormed.{IsWellFormed};

use crate::Instr;
use crate::fields::{
    b_immediate, funct3, funct7, i_immediate, j_immediate, opcode, rd, rs1, rs2, s_immediate,
    u_immediate,
};

/// The instruction of a word, or none where no row of the table takes it: such a word is illegal.
#[tactic(auto, using(crate::proofs::Rows::formed))]
pub fn decode(w: u32) -> Option<Instr>
    ensures table { result ≡ decoded w }
    ensures formed { IfSome result IsWellFormed }
{
    instruction(w)
}

/// One jump for each word that runs often; the other words go by their opcode.
#[tactic(auto, using(crate::proofs::Groups::unknown))]
fn instruction(w: u32) -> Option<Instr>
    ensures { result ≡ decoded w }
{
    if w % 4 != 3 {
        return None;
    }
    match codes(w) {
        0x18 => branch(w, 0),
        0x38 => branch(w, 1),
        0x98 => branch(w, 4),
        0xB8 => branch(w, 5),
        0xD8 => branch(w, 6),
        0xF8 => branch(w, 7),
        0x00 => load(w, 0),
        0x20 => load(w, 1),
        0x40 => load(w, 2),
        0x80 => load(w, 4),
        0xA0 => load(w, 5),
        0x08 => store(w, 0),
        0x28 => store(w, 1),
        0x48 => store(w, 2),
        0x04 => immediate_operation(w, 0),
        0x24 => immediate_operation(w, 1),
        0x44 => immediate_operation(w, 2),
        0x64 => immediate_operation(w, 3),
        0x84 => immediate_operation(w, 4),
        0xA4 => immediate_operation(w, 5),
        0xC4 => immediate_operation(w, 6),
        0xE4 => immediate_operation(w, 7),
        0x0C => register_operation(w, 0),
        0x2C => register_operation(w, 1),
        0x4C => register_operation(w, 2),
        0x6C => register_operation(w, 3),
        0x8C => register_operation(w, 4),
        0xAC => register_operation(w, 5),
        0xCC => register_operation(w, 6),
        0xEC => register_operation(w, 7),
        0x0D | 0x2D | 0x4D | 0x6D | 0x8D | 0xAD | 0xCD | 0xED => load_upper(w),
        0x05 | 0x25 | 0x45 | 0x65 | 0x85 | 0xA5 | 0xC5 | 0xE5 => add_upper(w),
        0x1B | 0x3B | 0x5B | 0x7B | 0x9B | 0xBB | 0xDB | 0xFB => jump_and_link(w),
        0x19 => jump_and_link_register(w, 0),
        _ => by_opcode(w),
    }
}

/// funct3 and the upper five bits of the opcode as one number.
#[inline]
fn codes(w: u32) -> u32
    ensures { result ≡ 32 * funct3 w + bits w 2 5 }
{
    w >> 2 & 0x1F | (w >> 12 & 7) << 5
}

#[inline]
#[tactic(auto, using(crate::proofs::Groups::lui))]
fn load_upper(w: u32) -> Option<Instr>
    requires { opcode w ≡ 0x37 }
    ensures { result ≡ decoded w }
{
    Some(Instr::Lui {
        rd: rd(w),
        imm: u_immediate(w),
    })
}

#[inline]
#[tactic(auto, using(crate::proofs::Groups::auipc))]
fn add_upper(w: u32) -> Option<Instr>
    requires { opcode w ≡ 0x17 }
    ensures { result ≡ decoded w }
{
    Some(Instr::Auipc {
        rd: rd(w),
        imm: u_immediate(w),
    })
}

#[inline]
#[tactic(auto, using(crate::proofs::Groups::jal))]
fn jump_and_link(w: u32) -> Option<Instr>
    requires { opcode w ≡ 0x6F }
    ensures { result ≡ decoded w }
{
    Some(Instr::Jal {
        rd: rd(w),
        imm: j_immediate(w),
    })
}

/// The same, by the opcode and then by the function codes. It is always inlined: a call would hand the
/// instruction over in memory.
#[inline(always)]
#[tactic(auto, using(crate::proofs::Groups::unknown))]
fn by_opcode(w: u32) -> Option<Instr>
    ensures { result ≡ decoded w }
{
    match opcode(w) {
        0x37 => load_upper(w),
        0x17 => add_upper(w),
        0x6F => jump_and_link(w),
        0x67 => jump_and_link_register(w, funct3(w)),
        0x63 => branch(w, funct3(w)),
        0x03 => load(w, funct3(w)),
        0x23 => store(w, funct3(w)),
        0x13 => immediate_operation(w, funct3(w)),
        0x33 => register_operation(w, funct3(w)),
        0x0F => fence(w, funct3(w)),
        0x73 => system(w),
        _ => None,
    }
}

#[inline]
#[tactic(auto, using(crate::proofs::Groups::jalr))]
fn jump_and_link_register(w: u32, code3: u32) -> Option<Instr>
    requires given { funct3 w ≡ code3 }
    requires code { opcode w ≡ 0x67 }
    ensures { result ≡ decoded w }
{
    match code3 {
        0 => Some(Instr::Jalr {
            rd: rd(w),
            rs1: rs1(w),
            imm: i_immediate(w),
        }),
        _ => None,
    }
}

#[inline]
#[tactic(auto, using(crate::proofs::Groups::branches))]
fn branch(w: u32, code3: u32) -> Option<Instr>
    requires given { funct3 w ≡ code3 }
    requires code { opcode w ≡ 0x63 }
    ensures { result ≡ decoded w }
{
    let (rs1, rs2) = (rs1(w), rs2(w));
    let imm = b_immediate(w);
    match code3 {
        0 => Some(Instr::Beq { rs1, rs2, imm }),
        1 => Some(Instr::Bne { rs1, rs2, imm }),
        4 => Some(Instr::Blt { rs1, rs2, imm }),
        5 => Some(Instr::Bge { rs1, rs2, imm }),
        6 => Some(Instr::Bltu { rs1, rs2, imm }),
        7 => Some(Instr::Bgeu { rs1, rs2, imm }),
        _ => None,
    }
}

#[inline]
#[tactic(auto, using(crate::proofs::Groups::loads))]
fn load(w: u32, code3: u32) -> Option<Instr>
    requires given { funct3 w ≡ code3 }
    requires code { opcode w ≡ 0x03 }
    ensures { result ≡ decoded w }
{
    let (rd, rs1) = (rd(w), rs1(w));
    let imm = i_immediate(w);
    match code3 {
        0 => Some(Instr::Lb { rd, rs1, imm }),
        1 => Some(Instr::Lh { rd, rs1, imm }),
        2 => Some(Instr::Lw { rd, rs1, imm }),
        4 => Some(Instr::Lbu { rd, rs1, imm }),
        5 => Some(Instr::Lhu { rd, rs1, imm }),
        _ => None,
    }
}

#[inline]
#[tactic(auto, using(crate::proofs::Groups::stores))]
fn store(w: u32, code3: u32) -> Option<Instr>
    requires given { funct3 w ≡ code3 }
    requires code { opcode w ≡ 0x23 }
    ensures { result ≡ decoded w }
{
    let (rs1, rs2) = (rs1(w), rs2(w));
    let imm = s_immediate(w);
    match code3 {
        0 => Some(Instr::Sb { rs1, rs2, imm }),
        1 => Some(Instr::Sh { rs1, rs2, imm }),
        2 => Some(Instr::Sw { rs1, rs2, imm }),
        _ => None,
    }
}

#[inline]
#[tactic(auto, using(crate::proofs::Groups::immediates))]
fn immediate_operation(w: u32, code3: u32) -> Option<Instr>
    requires given { funct3 w ≡ code3 }
    requires code { opcode w ≡ 0x13 }
    ensures { result ≡ decoded w }
{
    let (rd, rs1) = (rd(w), rs1(w));
    let imm = i_immediate(w);
    match code3 {
        0 => Some(Instr::Addi { rd, rs1, imm }),
        2 => Some(Instr::Slti { rd, rs1, imm }),
        3 => Some(Instr::Sltiu { rd, rs1, imm }),
        4 => Some(Instr::Xori { rd, rs1, imm }),
        6 => Some(Instr::Ori { rd, rs1, imm }),
        7 => Some(Instr::Andi { rd, rs1, imm }),
        _ => shift(w, code3),
    }
}

#[inline]
#[tactic(auto, using(crate::proofs::Groups::immediates))]
fn shift(w: u32, code3: u32) -> Option<Instr>
    requires given { funct3 w ≡ code3 }
    requires code { opcode w ≡ 0x13 }
    requires shifts { (funct3 w ≡ 1) ⊎ (funct3 w ≡ 5) }
    ensures { result ≡ decoded w }
{
    let (rd, rs1) = (rd(w), rs1(w));
    let amount = rs2(w);
    match (funct7(w), code3) {
        (0x00, 1) => Some(Instr::Slli { rd, rs1, amount }),
        (0x00, 5) => Some(Instr::Srli { rd, rs1, amount }),
        (0x20, 5) => Some(Instr::Srai { rd, rs1, amount }),
        _ => None,
    }
}

#[inline]
#[tactic(auto, using(crate::proofs::Groups::no_operation))]
fn register_operation(w: u32, code3: u32) -> Option<Instr>
    requires given { funct3 w ≡ code3 }
    requires code { opcode w ≡ 0x33 }
    ensures { result ≡ decoded w }
{
    match funct7(w) {
        0x00 => base_operation(w, code3),
        0x01 => multiply_or_divide(w, code3),
        0x20 => alternate_operation(w, code3),
        _ => None,
    }
}

#[inline]
#[tactic(auto, using(crate::proofs::Groups::registers))]
fn base_operation(w: u32, code3: u32) -> Option<Instr>
    requires given { funct3 w ≡ code3 }
    requires code { opcode w ≡ 0x33 }
    requires code7 { funct7 w ≡ 0x00 }
    ensures { result ≡ decoded w }
{
    let (rd, rs1, rs2) = (rd(w), rs1(w), rs2(w));
    Some(match code3 {
        0 => Instr::Add { rd, rs1, rs2 },
        1 => Instr::Sll { rd, rs1, rs2 },
        2 => Instr::Slt { rd, rs1, rs2 },
        3 => Instr::Sltu { rd, rs1, rs2 },
        4 => Instr::Xor { rd, rs1, rs2 },
        5 => Instr::Srl { rd, rs1, rs2 },
        6 => Instr::Or { rd, rs1, rs2 },
        7 => Instr::And { rd, rs1, rs2 },
        _ => unreachable!(),
    })
}

#[inline]
#[tactic(auto, using(crate::proofs::Groups::registers))]
fn alternate_operation(w: u32, code3: u32) -> Option<Instr>
    requires given { funct3 w ≡ code3 }
    requires code { opcode w ≡ 0x33 }
    requires code7 { funct7 w ≡ 0x20 }
    ensures { result ≡ decoded w }
{
    let (rd, rs1, rs2) = (rd(w), rs1(w), rs2(w));
    match code3 {
        0 => Some(Instr::Sub { rd, rs1, rs2 }),
        5 => Some(Instr::Sra { rd, rs1, rs2 }),
        _ => None,
    }
}

#[inline]
#[tactic(auto, using(crate::proofs::Groups::registers))]
fn multiply_or_divide(w: u32, code3: u32) -> Option<Instr>
    requires given { funct3 w ≡ code3 }
    requires code { opcode w ≡ 0x33 }
    requires code7 { funct7 w ≡ 0x01 }
    ensures { result ≡ decoded w }
{
    let (rd, rs1, rs2) = (rd(w), rs1(w), rs2(w));
    Some(match code3 {
        0 => Instr::Mul { rd, rs1, rs2 },
        1 => Instr::Mulh { rd, rs1, rs2 },
        2 => Instr::Mulhsu { rd, rs1, rs2 },
        3 => Instr::Mulhu { rd, rs1, rs2 },
        4 => Instr::Div { rd, rs1, rs2 },
        5 => Instr::Divu { rd, rs1, rs2 },
        6 => Instr::Rem { rd, rs1, rs2 },
        7 => Instr::Remu { rd, rs1, rs2 },
        _ => unreachable!(),
    })
}

#[inline]
#[tactic(auto, using(crate::proofs::Groups::fences))]
fn fence(w: u32, code3: u32) -> Option<Instr>
    requires given { funct3 w ≡ code3 }
    requires code { opcode w ≡ 0x0F }
    ensures { result ≡ decoded w }
{
    match code3 {
        0 => Some(Instr::Fence {
            rd: rd(w),
            rs1: rs1(w),
            imm: i_immediate(w),
        }),
        _ => None,
    }
}

#[inline]
#[tactic(auto, using(crate::proofs::Groups::systems))]
fn system(w: u32) -> Option<Instr>
    requires { opcode w ≡ 0x73 }
    ensures { result ≡ decoded w }
{
    match w {
        0x0000_0073 => Some(Instr::Ecall),
        0x0010_0073 => Some(Instr::Ebreak),
        _ => None,
    }
}
