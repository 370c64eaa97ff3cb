//! The operations on words.
//!
//! Each is one operation of the processor: nothing here branches but a division by zero.
ghost use Rattle.std.specs.Prelude.{◌≡◌, ◌*◌, ◌/◌, ◌^◌, nat_lt, pos, ◌*ℤ◌};
ghost use Rattle.rv_core.specs.Arithmetic.{int, difference, shifted_left, shifted_right, shifted_right_signed, less_signed, high_word, quotient, remainder, quotient_unsigned, remainder_unsigned};

/// The difference, modulo 2^32.
#[inline]
pub fn difference(a: u32, b: u32) -> u32
    ensures { result ≡ difference a b }
{
    a.wrapping_sub(b)
}

/// Shifted to the left by the low five bits of an amount.
#[inline]
pub fn shifted_left(a: u32, amount: u32) -> u32
    ensures { result ≡ shifted_left a amount }
{
    a << (amount & 31)
}

/// Shifted to the right with zeros.
#[inline]
pub fn shifted_right(a: u32, amount: u32) -> u32
    ensures { result ≡ shifted_right a amount }
{
    a >> (amount & 31)
}

/// Shifted to the right with copies of the sign bit.
#[inline]
pub fn shifted_right_signed(a: u32, amount: u32) -> u32
    ensures { result ≡ shifted_right_signed a amount }
{
    (a.cast_signed() >> (amount & 31)).cast_unsigned()
}

/// Whether a word is below another, both read as signed numbers.
#[inline]
pub fn less_signed(a: u32, b: u32) -> bool
    ensures { result ≡ less_signed a b }
{
    a.cast_signed() < b.cast_signed()
}

/// Whether a word is below another.
#[inline]
pub fn less_unsigned(a: u32, b: u32) -> bool
    ensures { result ≡ nat_lt a b }
{
    a < b
}

/// The high word of the product of signed numbers.
#[inline]
pub fn high_product_signed(a: u32, b: u32) -> u32
    ensures { result ≡ high_word (int a *ℤ int b) }
{
    high(i64::from(a.cast_signed()) * i64::from(b.cast_signed()))
}

/// The high word of the product of a signed number and an unsigned one.
#[inline]
pub fn high_product_mixed(a: u32, b: u32) -> u32
    ensures { result ≡ high_word (int a *ℤ pos b) }
{
    high(i64::from(a.cast_signed()) * i64::from(b))
}

/// The high word of the product of unsigned numbers.
#[inline]
pub fn high_product_unsigned(a: u32, b: u32) -> u32
    ensures { result ≡ a * b / 2 ^ 32 }
{
    (u64::from(a) * u64::from(b) >> 32) as u32
}

/// The high word of a product.
#[inline]
fn high(product: i64) -> u32
    ensures { result ≡ high_word product }
{
    (product.cast_unsigned() >> 32) as u32
}

/// The quotient of signed numbers, rounded towards zero; all ones by zero.
#[inline]
pub fn quotient(a: u32, b: u32) -> u32
    ensures { result ≡ quotient a b }
{
    if b == 0 {
        return u32::MAX;
    }
    a.cast_signed()
        .wrapping_div(b.cast_signed())
        .cast_unsigned()
}

/// The remainder of that division; the dividend by zero.
#[inline]
pub fn remainder(a: u32, b: u32) -> u32
    ensures { result ≡ remainder a b }
{
    if b == 0 {
        return a;
    }
    a.cast_signed()
        .wrapping_rem(b.cast_signed())
        .cast_unsigned()
}

/// The quotient of unsigned numbers; all ones by zero.
#[inline]
pub fn quotient_unsigned(a: u32, b: u32) -> u32
    ensures { result ≡ quotient_unsigned a b }
{
    if b == 0 { u32::MAX } else { a / b }
}

/// The remainder of that division; the dividend by zero.
#[inline]
pub fn remainder_unsigned(a: u32, b: u32) -> u32
    ensures { result ≡ remainder_unsigned a b }
{
    if b == 0 { a } else { a % b }
}
