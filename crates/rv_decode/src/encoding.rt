//! From an instruction to its word: the row's codes, and one function a format.
//!
//! The contracts ask for fields that the formats can hold, so no bit of a field is lost. No word is
//! decoded here.

ghost use Rattle.std.specs.Prelude.{◌≡◌, ℕ, ◌^◌, ◌<◌, Some};
ghost use Rattle.rv_decode.specs.Decode.{decoded};
ghost use Rattle.rv_decode.specs.Encode.{encoded, field, r_word, i_word, s_word, b_word, u_word, j_word};
ghost use Rattle.rv_decode.specs.WellFormed.{IsWellFormed, FitsR, FitsI, FitsS, FitsB, FitsU, FitsJ};

use crate::Instr;

/// The word of an instruction: the one word that decodes to it.
///
/// Its fields are to be such as its format holds, as those of each decoded instruction are.
pub fn encode(i: Instr) -> u32
    requires { IsWellFormed i }
    ensures decodes { decoded result ≡ Some i }
    ensures only { (w : ℕ) → w < 2 ^ 32 → decoded w ≡ Some i → result ≡ w }
{
    word(i)
}

// Each row's codes, with the instruction's fields.
fn word(i: Instr) -> u32
    requires { IsWellFormed i }
    ensures { result ≡ encoded i }
{
    match i {
        Instr::Lui { rd, imm } => encode_u(0x37, rd, imm),
        Instr::Auipc { rd, imm } => encode_u(0x17, rd, imm),
        Instr::Jal { rd, imm } => encode_j(0x6F, rd, imm),
        Instr::Jalr { rd, rs1, imm } => encode_i(0x67, 0, rd, rs1, imm),
        Instr::Beq { rs1, rs2, imm } => encode_b(0x63, 0, rs1, rs2, imm),
        Instr::Bne { rs1, rs2, imm } => encode_b(0x63, 1, rs1, rs2, imm),
        Instr::Blt { rs1, rs2, imm } => encode_b(0x63, 4, rs1, rs2, imm),
        Instr::Bge { rs1, rs2, imm } => encode_b(0x63, 5, rs1, rs2, imm),
        Instr::Bltu { rs1, rs2, imm } => encode_b(0x63, 6, rs1, rs2, imm),
        Instr::Bgeu { rs1, rs2, imm } => encode_b(0x63, 7, rs1, rs2, imm),
        Instr::Lb { rd, rs1, imm } => encode_i(0x03, 0, rd, rs1, imm),
        Instr::Lh { rd, rs1, imm } => encode_i(0x03, 1, rd, rs1, imm),
        Instr::Lw { rd, rs1, imm } => encode_i(0x03, 2, rd, rs1, imm),
        Instr::Lbu { rd, rs1, imm } => encode_i(0x03, 4, rd, rs1, imm),
        Instr::Lhu { rd, rs1, imm } => encode_i(0x03, 5, rd, rs1, imm),
        Instr::Sb { rs1, rs2, imm } => encode_s(0x23, 0, rs1, rs2, imm),
        Instr::Sh { rs1, rs2, imm } => encode_s(0x23, 1, rs1, rs2, imm),
        Instr::Sw { rs1, rs2, imm } => encode_s(0x23, 2, rs1, rs2, imm),
        Instr::Addi { rd, rs1, imm } => encode_i(0x13, 0, rd, rs1, imm),
        Instr::Slti { rd, rs1, imm } => encode_i(0x13, 2, rd, rs1, imm),
        Instr::Sltiu { rd, rs1, imm } => encode_i(0x13, 3, rd, rs1, imm),
        Instr::Xori { rd, rs1, imm } => encode_i(0x13, 4, rd, rs1, imm),
        Instr::Ori { rd, rs1, imm } => encode_i(0x13, 6, rd, rs1, imm),
        Instr::Andi { rd, rs1, imm } => encode_i(0x13, 7, rd, rs1, imm),
        Instr::Slli { rd, rs1, amount } => encode_r(0x13, 1, 0x00, rd, rs1, amount),
        Instr::Srli { rd, rs1, amount } => encode_r(0x13, 5, 0x00, rd, rs1, amount),
        Instr::Srai { rd, rs1, amount } => encode_r(0x13, 5, 0x20, rd, rs1, amount),
        Instr::Add { rd, rs1, rs2 } => encode_r(0x33, 0, 0x00, rd, rs1, rs2),
        Instr::Sub { rd, rs1, rs2 } => encode_r(0x33, 0, 0x20, rd, rs1, rs2),
        Instr::Sll { rd, rs1, rs2 } => encode_r(0x33, 1, 0x00, rd, rs1, rs2),
        Instr::Slt { rd, rs1, rs2 } => encode_r(0x33, 2, 0x00, rd, rs1, rs2),
        Instr::Sltu { rd, rs1, rs2 } => encode_r(0x33, 3, 0x00, rd, rs1, rs2),
        Instr::Xor { rd, rs1, rs2 } => encode_r(0x33, 4, 0x00, rd, rs1, rs2),
        Instr::Srl { rd, rs1, rs2 } => encode_r(0x33, 5, 0x00, rd, rs1, rs2),
        Instr::Sra { rd, rs1, rs2 } => encode_r(0x33, 5, 0x20, rd, rs1, rs2),
        Instr::Or { rd, rs1, rs2 } => encode_r(0x33, 6, 0x00, rd, rs1, rs2),
        Instr::And { rd, rs1, rs2 } => encode_r(0x33, 7, 0x00, rd, rs1, rs2),
        Instr::Fence { rd, rs1, imm } => encode_i(0x0F, 0, rd, rs1, imm),
        Instr::Ecall => 0x0000_0073,
        Instr::Ebreak => 0x0010_0073,
        Instr::Mul { rd, rs1, rs2 } => encode_r(0x33, 0, 0x01, rd, rs1, rs2),
        Instr::Mulh { rd, rs1, rs2 } => encode_r(0x33, 1, 0x01, rd, rs1, rs2),
        Instr::Mulhsu { rd, rs1, rs2 } => encode_r(0x33, 2, 0x01, rd, rs1, rs2),
        Instr::Mulhu { rd, rs1, rs2 } => encode_r(0x33, 3, 0x01, rd, rs1, rs2),
        Instr::Div { rd, rs1, rs2 } => encode_r(0x33, 4, 0x01, rd, rs1, rs2),
        Instr::Divu { rd, rs1, rs2 } => encode_r(0x33, 5, 0x01, rd, rs1, rs2),
        Instr::Rem { rd, rs1, rs2 } => encode_r(0x33, 6, 0x01, rd, rs1, rs2),
        Instr::Remu { rd, rs1, rs2 } => encode_r(0x33, 7, 0x01, rd, rs1, rs2),
    }
}

fn encode_r(opcode: u32, funct3: u32, funct7: u32, rd: u8, rs1: u8, rs2: u8) -> u32
    requires code { opcode < 2 ^ 7 }
    requires code3 { funct3 < 2 ^ 3 }
    requires code7 { funct7 < 2 ^ 7 }
    requires fits { FitsR rd rs1 rs2 }
    ensures { result ≡ r_word opcode funct3 funct7 rd rs1 rs2 }
{
    opcode
        | u32::from(rd) << 7
        | funct3 << 12
        | u32::from(rs1) << 15
        | u32::from(rs2) << 20
        | funct7 << 25
}

fn encode_i(opcode: u32, funct3: u32, rd: u8, rs1: u8, imm: i32) -> u32
    requires code { opcode < 2 ^ 7 }
    requires code3 { funct3 < 2 ^ 3 }
    requires fits { FitsI rd rs1 imm }
    ensures { result ≡ i_word opcode funct3 rd rs1 imm }
{
    opcode | u32::from(rd) << 7 | funct3 << 12 | u32::from(rs1) << 15 | low_bits(imm, 12) << 20
}

fn encode_s(opcode: u32, funct3: u32, rs1: u8, rs2: u8, imm: i32) -> u32
    requires code { opcode < 2 ^ 7 }
    requires code3 { funct3 < 2 ^ 3 }
    requires fits { FitsS rs1 rs2 imm }
    ensures { result ≡ s_word opcode funct3 rs1 rs2 imm }
{
    let n = low_bits(imm, 12);
    encode_r(opcode, funct3, n >> 5, (n & 0x1F) as u8, rs1, rs2)
}

fn encode_b(opcode: u32, funct3: u32, rs1: u8, rs2: u8, imm: i32) -> u32
    requires code { opcode < 2 ^ 7 }
    requires code3 { funct3 < 2 ^ 3 }
    requires fits { FitsB rs1 rs2 imm }
    ensures { result ≡ b_word opcode funct3 rs1 rs2 imm }
{
    let n = low_bits(imm, 13);
    let high = n >> 5 & 0x3F | (n >> 12) << 6;
    let low = n >> 11 & 1 | (n >> 1 & 0xF) << 1;
    encode_r(opcode, funct3, high, low as u8, rs1, rs2)
}

fn encode_u(opcode: u32, rd: u8, imm: i32) -> u32
    requires code { opcode < 2 ^ 7 }
    requires fits { FitsU rd imm }
    ensures { result ≡ u_word opcode rd imm }
{
    opcode | u32::from(rd) << 7 | imm.cast_unsigned()
}

fn encode_j(opcode: u32, rd: u8, imm: i32) -> u32
    requires code { opcode < 2 ^ 7 }
    requires fits { FitsJ rd imm }
    ensures { result ≡ j_word opcode rd imm }
{
    let n = low_bits(imm, 21);
    opcode
        | u32::from(rd) << 7
        | (n >> 12 & 0xFF) << 12
        | (n >> 11 & 1) << 20
        | (n >> 1 & 0x3FF) << 21
        | (n >> 20) << 31
}

// The lowest bits of an immediate, as its field holds them.
fn low_bits(imm: i32, width: u32) -> u32
    requires { width < 32 }
    ensures { result ≡ field width imm }
{
    imm.cast_unsigned() % (1 << width)
}
