//! Parts of a report's lines: names, and lists of numbers and of words.
//!
//! Each asks for the room that it needs, so no line is ever cut short.
ghost use Rattle.std.specs.Prelude.{◌≡◌, ◌+◌, ◌*◌, ◌≤◌, ◌∷◌, ◌++◌, [], length};
ghost use Rattle.arrayvec.specs.ArrayString.{array_string_len};
ghost use Rattle.tx_types.specs.Limits.{line_room, name_limit, slot_limit};
ghost use Rattle.board_report.specs.Parts.{newline, graphic, name_text, numbers_text, words_text, cell_text, cells_text, running_text, pair_text};
ghost use Rattle.board_report.specs.Printable.{IsNumbers};

use tx_types::{Line, Name, put_decimal, put_hex, put_small};

/// Appends a word of the report's own, of at most sixteen bytes.
pub(crate) fn put_text(line: &mut Line, text: &str)
    requires { array_string_len line.old + length text.now ≤ line_room }
    ensures bytes { line.new.bytes ≡ line.old.bytes ++ text.now }
    ensures len { array_string_len line.new ≡ array_string_len line.old + length text.now }
{
    line.push_str(text);
}

/// Ends a line.
pub fn end_line(line: &mut Line)
    requires { array_string_len line.old + 1 ≤ line_room }
    ensures bytes { line.new.bytes ≡ line.old.bytes ++ newline }
    ensures len { array_string_len line.new ≡ array_string_len line.old + 1 }
{
    line.push_str("\n");
}

/// Appends one byte of a name.
fn put_graphic(line: &mut Line, b: u8)
    requires { array_string_len line.old + 1 ≤ line_room }
    ensures bytes { line.new.bytes ≡ line.old.bytes ++ graphic b ∷ [] }
    ensures len { array_string_len line.new ≡ array_string_len line.old + 1 }
{
    if 0x21 <= b && b <= 0x7E {
        line.push(char::from(b));
    } else {
        line.push('.');
    }
}

/// Appends a name as it prints.
pub fn put_name(line: &mut Line, name: &Name)
    requires { array_string_len line.old + name_limit ≤ line_room }
    ensures bytes { line.new.bytes ≡ line.old.bytes ++ name_text name.now }
    ensures short { array_string_len line.new ≤ array_string_len line.old + name_limit }
{
    let bytes = name.bytes();
    if bytes.is_empty() {
        line.push_str("-");
    }
    for b in bytes {
        put_graphic(line, *b);
    }
}

/// Appends numbers, each after a space.
pub(crate) fn put_numbers(line: &mut Line, numbers: &[u16])
    requires numbers { IsNumbers numbers.now }
    requires room { array_string_len line.old + 4 * slot_limit ≤ line_room }
    ensures bytes { line.new.bytes ≡ line.old.bytes ++ numbers_text numbers.now }
    ensures short { array_string_len line.new ≤ array_string_len line.old + 4 * slot_limit }
{
    for number in numbers {
        line.push_str(" ");
        put_small(line, *number);
    }
}

/// Appends words, each after a space.
pub fn put_words(line: &mut Line, words: &[u32])
    requires { array_string_len line.old + 9 * length words.now ≤ line_room }
    ensures bytes { line.new.bytes ≡ line.old.bytes ++ words_text words.now }
    ensures len { array_string_len line.new ≡ array_string_len line.old + 9 * length words.now }
{
    for word in words {
        line.push_str(" ");
        put_hex(line, *word);
    }
}

/// Appends a word of memory, or dashes.
fn put_cell(line: &mut Line, cell: Option<u32>)
    requires { array_string_len line.old + 8 ≤ line_room }
    ensures bytes { line.new.bytes ≡ line.old.bytes ++ cell_text cell }
    ensures len { array_string_len line.new ≡ array_string_len line.old + 8 }
{
    match cell {
        None => line.push_str("--------"),
        Some(word) => put_hex(line, word),
    }
}

/// Appends words of memory, each after a space.
pub(crate) fn put_cells(line: &mut Line, cells: &[Option<u32>])
    requires { array_string_len line.old + 9 * length cells.now ≤ line_room }
    ensures bytes { line.new.bytes ≡ line.old.bytes ++ cells_text cells.now }
    ensures len { array_string_len line.new ≡ array_string_len line.old + 9 * length cells.now }
{
    for cell in cells {
        line.push_str(" ");
        put_cell(line, *cell);
    }
}

/// Appends the thread that runs, or a dash.
pub(crate) fn put_running(line: &mut Line, running: Option<u16>)
    requires { array_string_len line.old + 10 ≤ line_room }
    ensures bytes { line.new.bytes ≡ line.old.bytes ++ running_text running }
    ensures short { array_string_len line.new ≤ array_string_len line.old + 10 }
{
    match running {
        None => line.push_str("-"),
        Some(thread) => put_decimal(line, u32::from(thread)),
    }
}

/// Appends two numbers in decimal after a text.
#[tactic(auto, unfolding(crate::specs::Parts::pair_text))]
pub(crate) fn put_pair(line: &mut Line, text: &str, a: u32, b: u32)
    requires { array_string_len line.old + length text.now + 21 ≤ line_room }
    ensures bytes { line.new.bytes ≡ line.old.bytes ++ pair_text text.now a b }
    ensures short { array_string_len line.new ≤ array_string_len line.old + length text.now + 21 }
{
    line.push_str(text);
    put_decimal(line, a);
    line.push_str(" ");
    put_decimal(line, b);
}
