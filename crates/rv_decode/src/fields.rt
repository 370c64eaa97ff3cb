//! The fields and immediates of a word, read as the instruction formats place them.
//!
//! Each word has all these fields: which of them its instruction uses is asked elsewhere, and no
//! word is refused here.

ghost use Rattle.std.specs.Prelude.{◌≡◌, ◌^◌, ◌<◌, ◌≤◌};
ghost use Rattle.machine_words.specs.Bits.{signed};
ghost use Rattle.rv_decode.specs.Fields.{opcode, rd, funct3, rs1, rs2, funct7, i_immediate, s_immediate, b_immediate, u_immediate, j_immediate};

/// Bits 6 to 0: which group of instructions a word belongs to.
#[inline]
pub fn opcode(w: u32) -> u32
    ensures { result ≡ opcode w }
{
    w & 0x7F
}

/// Bits 11 to 7: the register that is written.
#[inline]
pub fn rd(w: u32) -> u8
    ensures { result ≡ rd w }
{
    (w >> 7 & 0x1F) as u8
}

/// Bits 19 to 15: the first operand's register.
#[inline]
pub fn rs1(w: u32) -> u8
    ensures { result ≡ rs1 w }
{
    (w >> 15 & 0x1F) as u8
}

/// Bits 24 to 20: the second operand's register.
#[inline]
pub fn rs2(w: u32) -> u8
    ensures { result ≡ rs2 w }
{
    (w >> 20 & 0x1F) as u8
}

/// Bits 14 to 12: the instruction within its group.
#[inline]
pub fn funct3(w: u32) -> u32
    ensures { result ≡ funct3 w }
{
    w >> 12 & 7
}

/// Bits 31 to 25: the rest of what distinguishes instructions.
#[inline]
pub fn funct7(w: u32) -> u32
    ensures { result ≡ funct7 w }
{
    w >> 25
}

/// The immediate of the I format: 12 bits, sign-extended.
#[inline]
pub fn i_immediate(w: u32) -> i32
    ensures { result ≡ i_immediate w }
{
    w.cast_signed() >> 20
}

/// The immediate of the S format: 12 bits in two parts, sign-extended.
#[inline]
pub fn s_immediate(w: u32) -> i32
    ensures { result ≡ s_immediate w }
{
    sign_extend(w >> 7 & 0x1F | (w >> 25) << 5, 12)
}

/// The offset of the B format: 13 bits, even, sign-extended.
#[inline]
pub fn b_immediate(w: u32) -> i32
    ensures { result ≡ b_immediate w }
{
    let n = (w >> 8 & 0xF) << 1 | (w >> 25 & 0x3F) << 5 | (w >> 7 & 1) << 11 | (w >> 31) << 12;
    sign_extend(n, 13)
}

/// The immediate of the U format: the upper 20 bits, in their place.
#[inline]
pub fn u_immediate(w: u32) -> i32
    ensures { result ≡ u_immediate w }
{
    (w & 0xFFFF_F000).cast_signed()
}

/// The offset of the J format: 21 bits, even, sign-extended.
#[inline]
pub fn j_immediate(w: u32) -> i32
    ensures { result ≡ j_immediate w }
{
    let n = (w >> 21 & 0x3FF) << 1 | (w >> 20 & 1) << 11 | (w >> 12 & 0xFF) << 12 | (w >> 31) << 20;
    sign_extend(n, 21)
}

// A number of the given number of bits, read as two's complement.
#[inline]
fn sign_extend(n: u32, width: u32) -> i32
    requires positive { 0 < width }
    requires narrow { width ≤ 32 }
    requires fits { n < 2 ^ width }
    ensures { result ≡ signed width n }
{
    let spare = 32 - width;
    (n << spare).cast_signed() >> spare
}
