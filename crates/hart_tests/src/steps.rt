//! Single steps over a plain bus. The words are those of the GNU assembler; the results were worked by
//! hand from the RISC-V Unprivileged ISA Manual.
//!
//! The instruction lies at PC and eight bytes of data after it. x1 and x2 are its operands, and x3 is
//! written; x3 holds the value of x1 before.
ghost use Rattle.std.specs.Prelude.{◌≡◌, ◌%◌, slice_index};

use crate::plain::Plain;
use rv_core::{Cause, Hart, Out, step};
use std::process::Abort;

const PC: u32 = 0x8000_0100;

const DATA: u32 = PC + 4;

const BYTES: [u8; 8] = [0x80, 0x7F, 0xFE, 0xFF, 0x01, 0x02, 0x03, 0x84];

/// A word, x1, x2, and what x3 is then.
#[rattlefmt::skip]
const REGISTERS: [(u32, u32, u32, u32); 96] = [
    // add x3, x1, x2
    (0x0020_81B3, 7, 0xFFFF_FFFE, 5),
    (0x0020_81B3, 0xFFFF_FFFF, 1, 0),
    (0x0020_81B3, 0x7FFF_FFFF, 1, 0x8000_0000),
    // sub x3, x1, x2
    (0x4020_81B3, 5, 7, 0xFFFF_FFFE),
    (0x4020_81B3, 0x8000_0000, 1, 0x7FFF_FFFF),
    (0x4020_81B3, 0, 0x8000_0000, 0x8000_0000),
    // sll x3, x1, x2
    (0x0020_91B3, 0x8000_0001, 1, 2),
    (0x0020_91B3, 1, 31, 0x8000_0000),
    (0x0020_91B3, 0xDEAD_BEEF, 32, 0xDEAD_BEEF),
    // slt x3, x1, x2
    (0x0020_A1B3, 0xFFFF_FFFF, 0, 1),
    (0x0020_A1B3, 0, 0xFFFF_FFFF, 0),
    (0x0020_A1B3, 0x8000_0000, 0x7FFF_FFFF, 1),
    (0x0020_A1B3, 5, 5, 0),
    // sltu x3, x1, x2
    (0x0020_B1B3, 0xFFFF_FFFF, 0, 0),
    (0x0020_B1B3, 0, 0xFFFF_FFFF, 1),
    (0x0020_B1B3, 0x7FFF_FFFF, 0x8000_0000, 1),
    (0x0020_B1B3, 5, 5, 0),
    // xor x3, x1, x2
    (0x0020_C1B3, 0xF0F0_F0F0, 0xFF00_FF00, 0x0FF0_0FF0),
    (0x0020_C1B3, 0xFFFF_FFFF, 0xFFFF_FFFF, 0),
    // srl x3, x1, x2
    (0x0020_D1B3, 0x8000_0000, 31, 1),
    (0x0020_D1B3, 0x8000_0000, 4, 0x0800_0000),
    (0x0020_D1B3, 0x9234_5678, 32, 0x9234_5678),
    // sra x3, x1, x2
    (0x4020_D1B3, 0x8000_0000, 31, 0xFFFF_FFFF),
    (0x4020_D1B3, 0x8000_0000, 4, 0xF800_0000),
    (0x4020_D1B3, 0x7FFF_FFFF, 31, 0),
    (0x4020_D1B3, 0x8000_0001, 0xFFFF_FFE0, 0x8000_0001),
    // or x3, x1, x2
    (0x0020_E1B3, 0xF0F0_0000, 0x00F0_F000, 0xF0F0_F000),
    (0x0020_E1B3, 0, 0x8000_0000, 0x8000_0000),
    // and x3, x1, x2
    (0x0020_F1B3, 0xF0F0_F0F0, 0xFF00_FF00, 0xF000_F000),
    (0x0020_F1B3, 0xFFFF_FFFF, 0x1234_5678, 0x1234_5678),
    // mul x3, x1, x2
    (0x0220_81B3, 7, 0xFFFF_FFFD, 0xFFFF_FFEB),
    (0x0220_81B3, 0x8000_0000, 2, 0),
    (0x0220_81B3, 0x0001_0001, 0x0001_0001, 0x0002_0001),
    (0x0220_81B3, 0xFFFF_FFFF, 0xFFFF_FFFF, 1),
    // mulh x3, x1, x2
    (0x0220_91B3, 0xFFFF_FFFF, 0xFFFF_FFFF, 0),
    (0x0220_91B3, 0x8000_0000, 0x8000_0000, 0x4000_0000),
    (0x0220_91B3, 0x8000_0000, 0x7FFF_FFFF, 0xC000_0000),
    (0x0220_91B3, 0xFFFF_FFFF, 1, 0xFFFF_FFFF),
    // mulhsu x3, x1, x2
    (0x0220_A1B3, 0xFFFF_FFFF, 0xFFFF_FFFF, 0xFFFF_FFFF),
    (0x0220_A1B3, 1, 0xFFFF_FFFF, 0),
    (0x0220_A1B3, 0x8000_0000, 0x8000_0000, 0xC000_0000),
    (0x0220_A1B3, 0x7FFF_FFFF, 0xFFFF_FFFF, 0x7FFF_FFFE),
    // mulhu x3, x1, x2
    (0x0220_B1B3, 0xFFFF_FFFF, 0xFFFF_FFFF, 0xFFFF_FFFE),
    (0x0220_B1B3, 0x8000_0000, 2, 1),
    (0x0220_B1B3, 0xFFFF_FFFF, 1, 0),
    (0x0220_B1B3, 0x8000_0000, 0x8000_0000, 0x4000_0000),
    // div x3, x1, x2
    (0x0220_C1B3, 7, 0, 0xFFFF_FFFF),
    (0x0220_C1B3, 0x8000_0000, 0xFFFF_FFFF, 0x8000_0000),
    (0x0220_C1B3, 0xFFFF_FFF9, 2, 0xFFFF_FFFD),
    (0x0220_C1B3, 7, 0xFFFF_FFFE, 0xFFFF_FFFD),
    (0x0220_C1B3, 0xFFFF_FFF9, 0xFFFF_FFFE, 3),
    // divu x3, x1, x2
    (0x0220_D1B3, 7, 0, 0xFFFF_FFFF),
    (0x0220_D1B3, 0xFFFF_FFF9, 2, 0x7FFF_FFFC),
    (0x0220_D1B3, 0x8000_0000, 0xFFFF_FFFF, 0),
    // rem x3, x1, x2
    (0x0220_E1B3, 7, 0, 7),
    (0x0220_E1B3, 0x8000_0000, 0xFFFF_FFFF, 0),
    (0x0220_E1B3, 0xFFFF_FFF9, 2, 0xFFFF_FFFF),
    (0x0220_E1B3, 7, 0xFFFF_FFFE, 1),
    // remu x3, x1, x2
    (0x0220_F1B3, 7, 0, 7),
    (0x0220_F1B3, 0xFFFF_FFF9, 2, 1),
    (0x0220_F1B3, 0x8000_0000, 0xFFFF_FFFF, 0x8000_0000),
    // add x0, x1, x2
    (0x0020_8033, 7, 8, 7),
    // add x3, x3, x3
    (0x0031_81B3, 0x8000_0001, 0, 2),
    // addi x3, x1, -1
    (0xFFF0_8193, 0, 0, 0xFFFF_FFFF),
    // addi x3, x1, 2047
    (0x7FF0_8193, 0x8000_0000, 0, 0x8000_07FF),
    // addi x3, x1, -2048
    (0x8000_8193, 0x7FF, 0, 0xFFFF_FFFF),
    // slti x3, x1, -1
    (0xFFF0_A193, 0xFFFF_FFFE, 0, 1),
    (0xFFF0_A193, 0xFFFF_FFFF, 0, 0),
    (0xFFF0_A193, 0, 0, 0),
    // slti x3, x1, 1
    (0x0010_A193, 0x8000_0000, 0, 1),
    (0x0010_A193, 0x7FFF_FFFF, 0, 0),
    // sltiu x3, x1, -1
    (0xFFF0_B193, 0xFFFF_FFFE, 0, 1),
    (0xFFF0_B193, 0xFFFF_FFFF, 0, 0),
    // sltiu x3, x1, 1
    (0x0010_B193, 0, 0, 1),
    (0x0010_B193, 1, 0, 0),
    // xori x3, x1, -1
    (0xFFF0_C193, 0x1234_5678, 0, 0xEDCB_A987),
    // xori x3, x1, 0x555
    (0x5550_C193, 0xFFFF_FFFF, 0, 0xFFFF_FAAA),
    // ori x3, x1, -2048
    (0x8000_E193, 1, 0, 0xFFFF_F801),
    // ori x3, x1, 0x555
    (0x5550_E193, 0xAAA, 0, 0xFFF),
    // andi x3, x1, -2048
    (0x8000_F193, 0x1234_5678, 0, 0x1234_5000),
    // andi x3, x1, 0xFF
    (0x0FF0_F193, 0x1234_5678, 0, 0x78),
    // slli x3, x1, 0
    (0x0000_9193, 0x8000_0001, 0, 0x8000_0001),
    // slli x3, x1, 31
    (0x01F0_9193, 3, 0, 0x8000_0000),
    // srli x3, x1, 0
    (0x0000_D193, 0x8000_0001, 0, 0x8000_0001),
    // srli x3, x1, 31
    (0x01F0_D193, 0x8000_0000, 0, 1),
    // srai x3, x1, 0
    (0x4000_D193, 0x8000_0001, 0, 0x8000_0001),
    // srai x3, x1, 4
    (0x4040_D193, 0x8000_0000, 0, 0xF800_0000),
    // srai x3, x1, 31
    (0x41F0_D193, 0x8000_0000, 0, 0xFFFF_FFFF),
    (0x41F0_D193, 0x7FFF_FFFF, 0, 0),
    // lui x3, 0xFFFFF
    (0xFFFF_F1B7, 0, 0, 0xFFFF_F000),
    // lui x3, 0x80000
    (0x8000_01B7, 0, 0, 0x8000_0000),
    // auipc x3, 0
    (0x0000_0197, 0, 0, 0x8000_0100),
    // auipc x3, 0xFFFFF
    (0xFFFF_F197, 0, 0, 0x7FFF_F100),
    // auipc x3, 0x80000
    (0x8000_0197, 0, 0, 0x100),
    // fence
    (0x0FF0_000F, 9, 0, 9),
    // fence, rd 3
    (0x0FF0_018F, 9, 0, 9),
];

/// A word, x1, x2, and how the step ends, with pc and x3 then.
#[rattlefmt::skip]
const FLOW: [(u32, u32, u32, Out, u32, u32); 47] = [
    // jal x3, pc + 8
    (0x0080_01EF, 0, 0, Out::Done, PC + 8, PC + 4),
    // jal x3, pc - 256
    (0xF01F_F1EF, 0, 0, Out::Done, PC - 0x100, PC + 4),
    // jal x0, pc
    (0x0000_006F, 9, 0, Out::Done, PC, 9),
    // jal x3, pc + 2
    (0x0020_01EF, 9, 0, Out::Fault(Cause::FetchMisaligned), PC, 9),
    // jalr x3, 0(x1): bit 0 is cleared
    (0x0000_81E7, 0x8000_0200, 0, Out::Done, 0x8000_0200, PC + 4),
    (0x0000_81E7, 0x8000_0201, 0, Out::Done, 0x8000_0200, PC + 4),
    (0x0000_81E7, 0x8000_0202, 0, Out::Fault(Cause::FetchMisaligned), PC, 0x8000_0202),
    (0x0000_81E7, 0x8000_0203, 0, Out::Fault(Cause::FetchMisaligned), PC, 0x8000_0203),
    // jalr x3, 3(x1)
    (0x0030_81E7, 0x8000_0201, 0, Out::Done, 0x8000_0204, PC + 4),
    (0x0030_81E7, 0x8000_0202, 0, Out::Done, 0x8000_0204, PC + 4),
    // jalr x3, 4(x3): the target is taken before x3 is written
    (0x0041_81E7, 0x8000_0200, 0, Out::Done, 0x8000_0204, PC + 4),
    // jalr x3, -4(x1) and -1(x1)
    (0xFFC0_81E7, 0, 0, Out::Done, 0xFFFF_FFFC, PC + 4),
    (0xFFF0_81E7, 0, 0, Out::Fault(Cause::FetchMisaligned), PC, 0),
    // jalr x0, 0(x1)
    (0x0000_8067, 0x8000_0200, 0, Out::Done, 0x8000_0200, 0x8000_0200),
    // beq x1, x2, pc + 8 and pc + 2
    (0x0020_8463, 5, 5, Out::Done, PC + 8, 5),
    (0x0020_8463, 5, 6, Out::Done, PC + 4, 5),
    (0x0020_8163, 5, 5, Out::Fault(Cause::FetchMisaligned), PC, 5),
    (0x0020_8163, 5, 6, Out::Done, PC + 4, 5),
    // bne x1, x2, pc + 8 and pc + 6
    (0x0020_9463, 5, 6, Out::Done, PC + 8, 5),
    (0x0020_9463, 5, 5, Out::Done, PC + 4, 5),
    (0x0020_9363, 5, 6, Out::Fault(Cause::FetchMisaligned), PC, 5),
    (0x0020_9363, 5, 5, Out::Done, PC + 4, 5),
    // blt x1, x2, pc - 4 and pc + 2
    (0xFE20_CEE3, 0xFFFF_FFFF, 0, Out::Done, PC - 4, 0xFFFF_FFFF),
    (0xFE20_CEE3, 0, 0xFFFF_FFFF, Out::Done, PC + 4, 0),
    (0xFE20_CEE3, 5, 5, Out::Done, PC + 4, 5),
    (0x0020_C163, 0xFFFF_FFFF, 0, Out::Fault(Cause::FetchMisaligned), PC, 0xFFFF_FFFF),
    (0x0020_C163, 0, 0xFFFF_FFFF, Out::Done, PC + 4, 0),
    // bge x1, x2, pc + 8 and pc + 2
    (0x0020_D463, 0, 0xFFFF_FFFF, Out::Done, PC + 8, 0),
    (0x0020_D463, 5, 5, Out::Done, PC + 8, 5),
    (0x0020_D463, 0xFFFF_FFFF, 0, Out::Done, PC + 4, 0xFFFF_FFFF),
    (0x0020_D163, 5, 5, Out::Fault(Cause::FetchMisaligned), PC, 5),
    (0x0020_D163, 0xFFFF_FFFF, 0, Out::Done, PC + 4, 0xFFFF_FFFF),
    // bltu x1, x2, pc + 8 and pc + 2
    (0x0020_E463, 0, 0xFFFF_FFFF, Out::Done, PC + 8, 0),
    (0x0020_E463, 5, 5, Out::Done, PC + 4, 5),
    (0x0020_E463, 0xFFFF_FFFF, 0, Out::Done, PC + 4, 0xFFFF_FFFF),
    (0x0020_E163, 0, 0xFFFF_FFFF, Out::Fault(Cause::FetchMisaligned), PC, 0),
    (0x0020_E163, 0xFFFF_FFFF, 0, Out::Done, PC + 4, 0xFFFF_FFFF),
    // bgeu x1, x2, pc + 8 and pc + 2
    (0x0020_F463, 0xFFFF_FFFF, 0, Out::Done, PC + 8, 0xFFFF_FFFF),
    (0x0020_F463, 5, 5, Out::Done, PC + 8, 5),
    (0x0020_F463, 0, 0xFFFF_FFFF, Out::Done, PC + 4, 0),
    (0x0020_F163, 5, 5, Out::Fault(Cause::FetchMisaligned), PC, 5),
    (0x0020_F163, 0, 0xFFFF_FFFF, Out::Done, PC + 4, 0),
    // ecall, ebreak
    (0x0000_0073, 9, 0, Out::Call, PC + 4, 9),
    (0x0010_0073, 9, 0, Out::Fault(Cause::Breakpoint), PC, 9),
    // no instruction: all zeros, all ones, fence.i
    (0x0000_0000, 9, 0, Out::Fault(Cause::Illegal), PC, 9),
    (0xFFFF_FFFF, 9, 0, Out::Fault(Cause::Illegal), PC, 9),
    (0x0000_100F, 9, 0, Out::Fault(Cause::Illegal), PC, 9),
];

/// A word, x1, and how the step ends, with x3 then.
#[rattlefmt::skip]
const LOADS: [(u32, u32, Out, u32); 24] = [
    // lb x3, 0(x1) and 7(x1)
    (0x0000_8183, DATA, Out::Done, 0xFFFF_FF80),
    (0x0000_8183, DATA + 1, Out::Done, 0x7F),
    (0x0000_8183, DATA + 8, Out::Fault(Cause::LoadOutside), DATA + 8),
    (0x0000_8183, DATA - 5, Out::Fault(Cause::LoadOutside), DATA - 5),
    (0x0070_8183, DATA, Out::Done, 0xFFFF_FF84),
    // lbu x3, 0(x1)
    (0x0000_C183, DATA, Out::Done, 0x80),
    (0x0000_C183, DATA + 3, Out::Done, 0xFF),
    // lh x3, 0(x1)
    (0x0000_9183, DATA, Out::Done, 0x7F80),
    (0x0000_9183, DATA + 2, Out::Done, 0xFFFF_FFFE),
    (0x0000_9183, DATA + 1, Out::Fault(Cause::LoadMisaligned), DATA + 1),
    (0x0000_9183, DATA + 8, Out::Fault(Cause::LoadOutside), DATA + 8),
    (0x0000_9183, DATA + 9, Out::Fault(Cause::LoadMisaligned), DATA + 9),
    // lhu x3, 0(x1)
    (0x0000_D183, DATA + 2, Out::Done, 0xFFFE),
    (0x0000_D183, DATA + 6, Out::Done, 0x8403),
    (0x0000_D183, DATA + 3, Out::Fault(Cause::LoadMisaligned), DATA + 3),
    // lw x3, 0(x1), -4(x1) and 4(x1)
    (0x0000_A183, DATA, Out::Done, 0xFFFE_7F80),
    (0x0000_A183, DATA + 4, Out::Done, 0x8403_0201),
    (0x0000_A183, DATA + 1, Out::Fault(Cause::LoadMisaligned), DATA + 1),
    (0x0000_A183, DATA + 2, Out::Fault(Cause::LoadMisaligned), DATA + 2),
    (0x0000_A183, DATA + 8, Out::Fault(Cause::LoadOutside), DATA + 8),
    (0xFFC0_A183, DATA + 4, Out::Done, 0xFFFE_7F80),
    (0x0040_A183, 0xFFFF_FFFC, Out::Fault(Cause::LoadOutside), 0xFFFF_FFFC),
    // lw x0, 0(x1)
    (0x0000_A003, DATA, Out::Done, DATA),
    (0x0000_A003, DATA + 8, Out::Fault(Cause::LoadOutside), DATA + 8),
];

/// A word, x1, and how the step ends, with the data then. x2 is 0xA1B2_C3D4.
#[rattlefmt::skip]
const STORES: [(u32, u32, Out, [u8; 8]); 15] = [
    // sb x2, 0(x1), sb x2, -1(x1) and sb x0, 0(x1)
    (0x0020_8023, DATA + 1, Out::Done, [0x80, 0xD4, 0xFE, 0xFF, 0x01, 0x02, 0x03, 0x84]),
    (0x0020_8023, DATA + 8, Out::Fault(Cause::StoreOutside), BYTES),
    (0x0020_8023, DATA - 5, Out::Fault(Cause::StoreOutside), BYTES),
    (0xFE20_8FA3, DATA + 8, Out::Done, [0x80, 0x7F, 0xFE, 0xFF, 0x01, 0x02, 0x03, 0xD4]),
    (0x0000_8023, DATA + 3, Out::Done, [0x80, 0x7F, 0xFE, 0x00, 0x01, 0x02, 0x03, 0x84]),
    // sh x2, 0(x1) and -2(x1)
    (0x0020_9023, DATA + 2, Out::Done, [0x80, 0x7F, 0xD4, 0xC3, 0x01, 0x02, 0x03, 0x84]),
    (0x0020_9023, DATA + 1, Out::Fault(Cause::StoreMisaligned), BYTES),
    (0x0020_9023, DATA + 8, Out::Fault(Cause::StoreOutside), BYTES),
    (0x0020_9023, DATA + 9, Out::Fault(Cause::StoreMisaligned), BYTES),
    (0xFE20_9F23, DATA + 8, Out::Done, [0x80, 0x7F, 0xFE, 0xFF, 0x01, 0x02, 0xD4, 0xC3]),
    // sw x2, 0(x1) and 4(x1)
    (0x0020_A023, DATA, Out::Done, [0xD4, 0xC3, 0xB2, 0xA1, 0x01, 0x02, 0x03, 0x84]),
    (0x0020_A023, DATA + 2, Out::Fault(Cause::StoreMisaligned), BYTES),
    (0x0020_A023, DATA + 8, Out::Fault(Cause::StoreOutside), BYTES),
    (0x0020_A223, DATA, Out::Done, [0x80, 0x7F, 0xFE, 0xFF, 0xD4, 0xC3, 0xB2, 0xA1]),
    (0x0020_A223, 0xFFFF_FFFC, Out::Fault(Cause::StoreOutside), BYTES),
];

/// A step from PC: what it starts from, how it ends, and what is changed then.
#[derive(Clone, Copy)]
struct Case {
    word: u32,
    a: u32,
    b: u32,
    out: Out,
    pc: u32,
    x3: u32,
    data: [u8; 8],
}

/// Takes the step where the instruction lies at an address, and compares all that can have changed.
fn check(rt: &impl Abort, at: u32, case: Case)
    requires { at % 4 ≡ 0 }
{
    let Case { word, a, b, .. } = case;
    let mut hart = hart_of(at, a, b);
    let mut bus = Plain::new(at, word, BYTES);
    let out = step(&mut hart, &mut bus);
    assert_eq!(rt; out, case.out, "{word:08x} at {a:08x}, {b:08x}");
    assert_eq!(rt; hart.pc, case.pc, "pc of {word:08x} at {a:08x}, {b:08x}");
    assert_eq!(rt;
        hart.x,
        registers_of(a, b, case.x3),
        "x of {word:08x} at {a:08x}, {b:08x}"
    );
    assert_eq!(rt;
        bus,
        Plain::new(at, word, case.data),
        "bus of {word:08x} at {a:08x}"
    );
}

/// A hart with x1, x2, and x3 as x1.
fn hart_of(pc: u32, a: u32, b: u32) -> Hart
    requires { pc % 4 ≡ 0 }
{
    let x = registers_of(a, b, a);
    Hart { pc, x }
}

/// Registers of which x1, x2 and x3 alone aren't 0.
fn registers_of(a: u32, b: u32, c: u32) -> [u32; 32]
    ensures { slice_index result 0 ≡ 0 }
{
    let mut x = [0; 32];
    x[1] = a;
    x[2] = b;
    x[3] = c;
    x
}

#[test]
fn registers(rt: HostRuntime) {
    for (word, a, b, x3) in REGISTERS {
        check(
            &rt,
            PC,
            Case {
                word,
                a,
                b,
                out: Out::Done,
                pc: PC + 4,
                x3,
                data: BYTES,
            },
        );
    }
}

#[test]
fn flow(rt: HostRuntime) {
    for (word, a, b, out, pc, x3) in FLOW {
        check(
            &rt,
            PC,
            Case {
                word,
                a,
                b,
                out,
                pc,
                x3,
                data: BYTES,
            },
        );
    }
}

#[test]
fn loads(rt: HostRuntime) {
    for (word, a, out, x3) in LOADS {
        check(
            &rt,
            PC,
            Case {
                word,
                a,
                b: 0,
                out,
                pc: pc_after(out),
                x3,
                data: BYTES,
            },
        );
    }
}

#[test]
fn stores(rt: HostRuntime) {
    for (word, a, out, data) in STORES {
        check(
            &rt,
            PC,
            Case {
                word,
                a,
                b: 0xA1B2_C3D4,
                out,
                pc: pc_after(out),
                x3: a,
                data,
            },
        );
    }
}

/// Where a step from PC that goes on or faults leaves pc.
fn pc_after(out: Out) -> u32 {
    if out == Out::Done { PC + 4 } else { PC }
}

#[test]
fn the_last_word_and_none(rt: HostRuntime) {
    let last = 0xFFFF_FFFC;
    let out = Out::Done;
    // addi x3, x1, 1, and jal x3, pc + 8
    check(
        &rt,
        last,
        Case {
            word: 0x0010_8193,
            a: 6,
            b: 0,
            out,
            pc: 0,
            x3: 7,
            data: BYTES,
        },
    );
    check(
        &rt,
        last,
        Case {
            word: 0x0080_01EF,
            a: 6,
            b: 0,
            out,
            pc: 4,
            x3: 0,
            data: BYTES,
        },
    );

    let mut hart = hart_of(PC, 1, 2);
    let mut bus = Plain::new(DATA, 0x0010_8193, BYTES);
    assert_eq!(rt; step(&mut hart, &mut bus), Out::Fault(Cause::FetchOutside));
    assert_eq!(rt; hart, hart_of(PC, 1, 2));
    assert_eq!(rt; bus, Plain::new(DATA, 0x0010_8193, BYTES));
}
