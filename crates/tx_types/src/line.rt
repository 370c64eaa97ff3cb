//! One line of printed text and its parts.
//!
//! A line has a fixed room, so nothing here takes memory; each part asks for the room that it needs.
ghost use Rattle.std.specs.Prelude.{◌≡◌, ◌+◌, ◌≤◌, ◌<◌, ◌++◌, ◌∷◌, [], length, decimal};
ghost use Rattle.std.specs.Char.{digit_char};
ghost use Rattle.arrayvec.specs.ArrayString.{array_string_len};
ghost use Rattle.tx_types.specs.Limits.{line_room};
ghost use Rattle.tx_types.specs.Line.{hex, hex_byte};

use arrayvec::ArrayString;
use itoa::Buffer;

/// A line of text under construction, with room for 1,280 bytes.
pub type Line = ArrayString<1280>;

/// Appends a number in decimal, which takes up to ten digits.
pub fn put_decimal(line: &mut Line, n: u32)
    requires { array_string_len line.old + 10 ≤ line_room }
    ensures bytes { line.new.bytes ≡ line.old.bytes ++ decimal n }
    ensures short { array_string_len line.new ≤ array_string_len line.old + 10 }
{
    let mut buffer = Buffer::new();
    line.push_str(buffer.format(n));
}

/// Appends a number below 256 in decimal, which takes up to three digits.
#[tactic(auto, using(crate::proofs::Decimal::three_digits))]
pub fn put_small(line: &mut Line, small: u16)
    requires byte { small < 256 }
    requires room { array_string_len line.old + 3 ≤ line_room }
    ensures bytes { line.new.bytes ≡ line.old.bytes ++ decimal small }
    ensures short { array_string_len line.new ≤ array_string_len line.old + 3 }
{
    let mut buffer = Buffer::new();
    line.push_str(buffer.format(small));
}

/// Appends a number in decimal, which takes up to twenty digits.
pub fn put_long(line: &mut Line, long: u64)
    requires { array_string_len line.old + 20 ≤ line_room }
    ensures bytes { line.new.bytes ≡ line.old.bytes ++ decimal long }
    ensures short { array_string_len line.new ≤ array_string_len line.old + 20 }
{
    let mut buffer = Buffer::new();
    line.push_str(buffer.format(long));
}

/// Appends a word as eight lower-case hexadecimal digits.
pub fn put_hex(line: &mut Line, w: u32)
    requires { array_string_len line.old + 8 ≤ line_room }
    ensures bytes { line.new.bytes ≡ line.old.bytes ++ hex w }
    ensures len { array_string_len line.new ≡ array_string_len line.old + 8 }
{
    put_digit(line, w >> 28);
    put_digit(line, w >> 24 & 0xF);
    put_digit(line, w >> 20 & 0xF);
    put_digit(line, w >> 16 & 0xF);
    put_digit(line, w >> 12 & 0xF);
    put_digit(line, w >> 8 & 0xF);
    put_digit(line, w >> 4 & 0xF);
    put_digit(line, w & 0xF);
}

/// Appends the lowest byte of a word as two lower-case hexadecimal digits.
pub fn put_hex_byte(line: &mut Line, b: u32)
    requires { array_string_len line.old + 2 ≤ line_room }
    ensures bytes { line.new.bytes ≡ line.old.bytes ++ hex_byte b }
    ensures len { array_string_len line.new ≡ array_string_len line.old + 2 }
{
    put_digit(line, b >> 4 & 0xF);
    put_digit(line, b & 0xF);
}

/// Appends one hexadecimal digit.
fn put_digit(line: &mut Line, digit: u32)
    requires digit { digit < 16 }
    requires room { array_string_len line.old + 1 ≤ line_room }
    ensures bytes { line.new.bytes ≡ line.old.bytes ++ digit_char digit ∷ [] }
{
    if let Some(c) = char::from_digit(digit, 16) {
        line.push(c);
    }
}
