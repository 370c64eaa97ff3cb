//! Words in a module's memory.
//!
//! Each stands in four bytes, the lowest first.
ghost use Rattle.std.specs.Prelude.{◌≡◌, ◌≤◌, ◌+◌, ◌*◌, true, length};
ghost use Rattle.region_guard.specs.Memory.{may};
ghost use Rattle.call_arguments.specs.Words.{word_at, nth_word, with_word, with_words};

use region_guard::{Access, Guard, a_write_changes_its_bytes_alone, what_may_be_used_is_in_ram};
use tx_types::ModNo;

/// The word at an address.
pub fn word_at(g: &Guard, m: ModNo, a: u32) -> u32
    requires { may g.now m Access.Load a 4 ≡ true }
    ensures { result ≡ word_at g.now a }
{
    g.get(m, Access::Load, a, 4)
}

/// Word number i of a block of n bytes.
pub fn nth_word(g: &Guard, m: ModNo, x: u32, n: u32, i: u32) -> u32
    requires allowed { may g.now m Access.Load x n ≡ true }
    requires inside { 4 * i + 4 ≤ n }
    ensures { result ≡ nth_word g.now x i }
{
    what_may_be_used_is_in_ram();
    let _ = g.regions();
    word_at(g, m, x + 4 * i)
}

/// Writes a word at an address.
pub fn put_word(g: &mut Guard, m: ModNo, a: u32, w: u32)
    requires { may g.old m Access.Store a 4 ≡ true }
    ensures { g.new ≡ with_word g.old a w }
{
    g.put(m, a, 4, w);
}

/// Writes words one after another from an address on.
pub fn put_words(g: &mut Guard, m: ModNo, a: u32, words: &[u32])
    requires { may g.old m Access.Store a (4 * length words.now) ≡ true }
    ensures { g.new ≡ with_words g.old a words.now }
{
    what_may_be_used_is_in_ram();
    a_write_changes_its_bytes_alone();
    let _ = g.regions();
    for (i, w) in words.iter().enumerate() {
        put_word(g, m, a + 4 * i as u32, *w);
    }
}
