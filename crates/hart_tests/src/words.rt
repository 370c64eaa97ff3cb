//! Words worked by hand from the listings and field positions of the RISC-V Unprivileged ISA
//! Manual.
//!
//! Each word is decoded and encoded again, and words in no row of the table have to be refused. No
//! instruction is executed here.

use rv_decode::{Instr, decode, encode};
use std::process::Abort;

/// A word, the name of its instruction, `rd`, `rs1` and `rs2`, and the immediate or the amount; 0 for what
/// its format doesn't have.
type Row = (u32, &'static str, [u8; 3], i32);

/// A word of each row of the instruction table.
#[rattlefmt::skip]
const ROWS: [Row; 48] = [
    (0x1234_52B7, "Lui", [5, 0, 0], 0x12345000),
    (0xFEDC_B317, "Auipc", [6, 0, 0], -0x1235000),
    (0xB225_40EF, "Jal", [1, 0, 0], -703710),
    (0xFFD5_00E7, "Jalr", [1, 10, 0], -3),
    (0x8073_0063, "Beq", [0, 6, 7], -4096),
    (0x7E73_1FE3, "Bne", [0, 6, 7], 4094),
    (0xFE73_4FE3, "Blt", [0, 6, 7], -2),
    (0x0073_50E3, "Bge", [0, 6, 7], 2048),
    (0xAA73_65E3, "Bltu", [0, 6, 7], -1366),
    (0x5473_7A63, "Bgeu", [0, 6, 7], 1364),
    (0xFFF6_0583, "Lb", [11, 12, 0], -1),
    (0xFFE6_1583, "Lh", [11, 12, 0], -2),
    (0x7FF6_2583, "Lw", [11, 12, 0], 2047),
    (0x8006_4583, "Lbu", [11, 12, 0], -2048),
    (0x5556_5583, "Lhu", [11, 12, 0], 1365),
    (0xFEE6_8FA3, "Sb", [0, 13, 14], -1),
    (0x54E6_9B23, "Sh", [0, 13, 14], 1366),
    (0x80E6_A023, "Sw", [0, 13, 14], -2048),
    (0xFFF8_0793, "Addi", [15, 16, 0], -1),
    (0x0078_2793, "Slti", [15, 16, 0], 7),
    (0x7FF8_3793, "Sltiu", [15, 16, 0], 2047),
    (0x8008_4793, "Xori", [15, 16, 0], -2048),
    (0x5558_6793, "Ori", [15, 16, 0], 1365),
    (0xAAA8_7793, "Andi", [15, 16, 0], -1366),
    (0x01F9_1893, "Slli", [17, 18, 0], 31),
    (0x0019_5893, "Srli", [17, 18, 0], 1),
    (0x4159_5893, "Srai", [17, 18, 0], 21),
    (0x0073_02B3, "Add", [5, 6, 7], 0),
    (0x4020_8FB3, "Sub", [31, 1, 2], 0),
    (0x0082_11B3, "Sll", [3, 4, 8], 0),
    (0x00B5_24B3, "Slt", [9, 10, 11], 0),
    (0x00E6_B633, "Sltu", [12, 13, 14], 0),
    (0x0118_47B3, "Xor", [15, 16, 17], 0),
    (0x0149_D933, "Srl", [18, 19, 20], 0),
    (0x417B_5AB3, "Sra", [21, 22, 23], 0),
    (0x01AC_EC33, "Or", [24, 25, 26], 0),
    (0x01DE_7DB3, "And", [27, 28, 29], 0),
    (0x0FF2_018F, "Fence", [3, 4, 0], 255),
    (0x0000_0073, "Ecall", [0, 0, 0], 0),
    (0x0010_0073, "Ebreak", [0, 0, 0], 0),
    (0x0231_00B3, "Mul", [1, 2, 3], 0),
    (0x0262_9233, "Mulh", [4, 5, 6], 0),
    (0x0294_23B3, "Mulhsu", [7, 8, 9], 0),
    (0x02C5_B533, "Mulhu", [10, 11, 12], 0),
    (0x02F7_46B3, "Div", [13, 14, 15], 0),
    (0x0328_D833, "Divu", [16, 17, 18], 0),
    (0x035A_69B3, "Rem", [19, 20, 21], 0),
    (0x038B_FB33, "Remu", [22, 23, 24], 0),
];

/// Words of few bits, and fields at their bounds.
#[rattlefmt::skip]
const BOUNDS: [Row; 16] = [
    (0x0070_0293, "Addi", [5, 0, 0], 7),
    (0xFFF0_0293, "Addi", [5, 0, 0], -1),
    (0x8000_02B7, "Lui", [5, 0, 0], -0x8000_0000),
    (0xFFFF_FFB7, "Lui", [31, 0, 0], -4096),
    (0x7FFF_F06F, "Jal", [0, 0, 0], 0xF_FFFE),
    (0x8000_006F, "Jal", [0, 0, 0], -0x10_0000),
    (0x0010_006F, "Jal", [0, 0, 0], 2048),
    (0x0020_006F, "Jal", [0, 0, 0], 2),
    (0x0000_106F, "Jal", [0, 0, 0], 4096),
    (0x0000_0063, "Beq", [0, 0, 0], 0),
    (0x0000_00E3, "Beq", [0, 0, 0], 2048),
    (0x0200_0063, "Beq", [0, 0, 0], 32),
    (0x0000_000F, "Fence", [0, 0, 0], 0),
    (0x8330_000F, "Fence", [0, 0, 0], -1997),
    (0x0273_02B3, "Mul", [5, 6, 7], 0),
    (0x0273_42B3, "Div", [5, 6, 7], 0),
];

/// The name of an instruction.
#[rattlefmt::skip]
fn name(i: Instr) -> &'static str {
    match i {
        Instr::Lui { .. } => "Lui",
        Instr::Auipc { .. } => "Auipc",
        Instr::Jal { .. } => "Jal",
        Instr::Jalr { .. } => "Jalr",
        Instr::Beq { .. } => "Beq",
        Instr::Bne { .. } => "Bne",
        Instr::Blt { .. } => "Blt",
        Instr::Bge { .. } => "Bge",
        Instr::Bltu { .. } => "Bltu",
        Instr::Bgeu { .. } => "Bgeu",
        Instr::Lb { .. } => "Lb",
        Instr::Lh { .. } => "Lh",
        Instr::Lw { .. } => "Lw",
        Instr::Lbu { .. } => "Lbu",
        Instr::Lhu { .. } => "Lhu",
        Instr::Sb { .. } => "Sb",
        Instr::Sh { .. } => "Sh",
        Instr::Sw { .. } => "Sw",
        Instr::Addi { .. } => "Addi",
        Instr::Slti { .. } => "Slti",
        Instr::Sltiu { .. } => "Sltiu",
        Instr::Xori { .. } => "Xori",
        Instr::Ori { .. } => "Ori",
        Instr::Andi { .. } => "Andi",
        Instr::Slli { .. } => "Slli",
        Instr::Srli { .. } => "Srli",
        Instr::Srai { .. } => "Srai",
        Instr::Add { .. } => "Add",
        Instr::Sub { .. } => "Sub",
        Instr::Sll { .. } => "Sll",
        Instr::Slt { .. } => "Slt",
        Instr::Sltu { .. } => "Sltu",
        Instr::Xor { .. } => "Xor",
        Instr::Srl { .. } => "Srl",
        Instr::Sra { .. } => "Sra",
        Instr::Or { .. } => "Or",
        Instr::And { .. } => "And",
        Instr::Fence { .. } => "Fence",
        Instr::Ecall => "Ecall",
        Instr::Ebreak => "Ebreak",
        Instr::Mul { .. } => "Mul",
        Instr::Mulh { .. } => "Mulh",
        Instr::Mulhsu { .. } => "Mulhsu",
        Instr::Mulhu { .. } => "Mulhu",
        Instr::Div { .. } => "Div",
        Instr::Divu { .. } => "Divu",
        Instr::Rem { .. } => "Rem",
        Instr::Remu { .. } => "Remu",
    }
}

/// `rd`, `rs1` and `rs2` of an instruction, and its immediate or amount; 0 for what its format doesn't have.
#[rattlefmt::skip]
fn fields(i: Instr) -> ([u8; 3], i32) {
    match i {
        Instr::Lui { rd, imm } | Instr::Auipc { rd, imm } | Instr::Jal { rd, imm } => ([rd, 0, 0], imm),
        Instr::Jalr { rd, rs1, imm } | Instr::Lb { rd, rs1, imm } | Instr::Lh { rd, rs1, imm }
        | Instr::Lw { rd, rs1, imm } | Instr::Lbu { rd, rs1, imm } | Instr::Lhu { rd, rs1, imm }
        | Instr::Addi { rd, rs1, imm } | Instr::Slti { rd, rs1, imm }
        | Instr::Sltiu { rd, rs1, imm } | Instr::Xori { rd, rs1, imm }
        | Instr::Ori { rd, rs1, imm } | Instr::Andi { rd, rs1, imm }
        | Instr::Fence { rd, rs1, imm } => ([rd, rs1, 0], imm),
        Instr::Beq { rs1, rs2, imm } | Instr::Bne { rs1, rs2, imm }
        | Instr::Blt { rs1, rs2, imm } | Instr::Bge { rs1, rs2, imm }
        | Instr::Bltu { rs1, rs2, imm } | Instr::Bgeu { rs1, rs2, imm }
        | Instr::Sb { rs1, rs2, imm } | Instr::Sh { rs1, rs2, imm } | Instr::Sw { rs1, rs2, imm } => ([0, rs1, rs2], imm),
        Instr::Slli { rd, rs1, amount } | Instr::Srli { rd, rs1, amount }
        | Instr::Srai { rd, rs1, amount } => ([rd, rs1, 0], i32::from(amount)),
        Instr::Add { rd, rs1, rs2 } | Instr::Sub { rd, rs1, rs2 } | Instr::Sll { rd, rs1, rs2 }
        | Instr::Slt { rd, rs1, rs2 } | Instr::Sltu { rd, rs1, rs2 }
        | Instr::Xor { rd, rs1, rs2 } | Instr::Srl { rd, rs1, rs2 } | Instr::Sra { rd, rs1, rs2 }
        | Instr::Or { rd, rs1, rs2 } | Instr::And { rd, rs1, rs2 } | Instr::Mul { rd, rs1, rs2 }
        | Instr::Mulh { rd, rs1, rs2 } | Instr::Mulhsu { rd, rs1, rs2 }
        | Instr::Mulhu { rd, rs1, rs2 } | Instr::Div { rd, rs1, rs2 }
        | Instr::Divu { rd, rs1, rs2 } | Instr::Rem { rd, rs1, rs2 }
        | Instr::Remu { rd, rs1, rs2 } => ([rd, rs1, rs2], 0),
        Instr::Ecall | Instr::Ebreak => ([0, 0, 0], 0),
    }
}

/// Each word is that instruction's, and the instruction's word is that one.
fn check(rt: &impl Abort, rows: &[Row]) {
    for (word, named, registers, number) in rows {
        let Some(i) = decode(*word) else {
            panic!(rt; "no row for {word:x}");
        };
        let is = name(i) == *named && fields(i) == (*registers, *number) && encode(i) == *word;
        assert!(rt; is, "at {word:x}");
    }
}

#[test]
fn words_are_instructions_and_back(rt: HostRuntime) {
    check(&rt, &ROWS);
    check(&rt, &BOUNDS);
}

#[test]
fn words_with_no_row(rt: HostRuntime) {
    for word in [
        0x0000_0000, // all zeros
        0xFFFF_FFFF, // all ones
        0x0000_100F, // fence.i
        0x0000_2063, // a branch of code 2
        0x0000_3003, // ld
        0x0000_6003, // lwu
        0x0000_3023, // sd
        0x0000_1067, // jalr of code 1
        0x0200_1013, // slli with bit 5 of the amount
        0x4000_1013, // slli with the code of srai
        0x0200_5013, // srli with bit 5 of the amount
        0x4200_5013, // srai with bit 5 of the amount
        0x4000_1033, // sll with the code of sub
        0x4200_0033, // two codes at once
        0x8000_0033, // add with bit 31
        0x3020_0073, // mret
        0x1050_0073, // wfi
        0x0000_00F3, // ecall with an rd
        0x0000_1073, // csrrw
        0x0070_0292, // addi of which bit 0 is gone
    ] {
        assert!(rt; decode(word).is_none(), "at {word:x}");
    }
}

#[test]
fn each_opcode(rt: HostRuntime) {
    for opcode in 0..128u32 {
        let has_row = matches!(
            opcode,
            0x03 | 0x0F | 0x13 | 0x17 | 0x23 | 0x33 | 0x37 | 0x63 | 0x67 | 0x6F | 0x73
        );
        assert_eq!(rt; decode(opcode).is_some(), has_row, "at {opcode:x}");
    }
}
