//! The rules of a preamble, one function for each group of the table in specs/Preamble.
//!
//! Each answers the refusal of the first rule of its group that doesn't hold. The bounds of the
//! format stand here as constants; the definitions have names and numbers of their own.

ghost use Rattle.std.specs.Prelude.{◌≡◌, ◌<◌, ◌≤◌, ◌==◌, length, if◌then◌else◌, Ok, Err, OnOk};
ghost use Rattle.std.specs.Int.{bit_at};
ghost use Rattle.module_preamble.specs.Preamble.{judged, is_entry, is_optional_entry, is_stack, length_rules, identity_rules, size_rules, entry_rules, priority_rules, stack_rules};

use crate::{PreErr, Preamble};

/// The id of a module: the letters MODU.
pub const MODULE_ID: u32 = 0x4D4F_4455;
/// The first major version of the preamble that is known.
pub const FIRST_MAJOR: u32 = 1;
/// The last major version of the preamble that is known.
pub const LAST_MAJOR: u32 = 6;
/// The size of a preamble in words.
pub const PREAMBLE_WORDS: u32 = 32;
/// The size of a preamble in bytes.
pub const PREAMBLE_BYTES: u32 = 128;
/// The property bit of a module that runs in user mode.
pub const USER_MODE: u32 = 0;
/// The property bit of a module that runs under memory protection.
pub const MEMORY_PROTECTION: u32 = 1;
/// The most bytes of data that a module may ask for.
pub const MOST_DATA: u32 = 1_048_576;
/// How many priorities there are; 0 is the most urgent.
pub const PRIORITIES: u32 = 32;
/// The least size of a thread's stack.
pub const LEAST_STACK: u32 = 64;
/// The largest size of a thread's stack.
pub const MOST_STACK: u32 = 65_536;

/// One rule: the refusal where it doesn't hold.
fn ensure(holds: bool, refusal: PreErr) -> Result<(), PreErr>
    ensures { result ≡ (if holds then Ok tt else Err refusal) }
{
    if holds { Ok(()) } else { Err(refusal) }
}

/// Whether an image has room for a preamble.
#[tactic(auto, unfolding(crate::specs::Preamble::judged, crate::specs::Preamble::length_rules))]
pub fn check_length(image: &[u8]) -> Result<(), PreErr>
    ensures rules { result ≡ judged (length_rules image.now) tt }
    ensures room { OnOk result (PREAMBLE_BYTES ≤ length image.now) }
{
    if image.len() < PREAMBLE_BYTES as usize {
        return Err(PreErr::Short(image.len() as u32));
    }
    Ok(())
}

/// Whether the preamble is that of a module in a known version, with the two properties that it must have.
#[tactic(auto, unfolding(crate::specs::Preamble::judged, crate::specs::Preamble::identity_rules))]
pub fn check_identity(p: &Preamble) -> Result<(), PreErr>
    ensures { result ≡ judged (identity_rules p.now) tt }
{
    ensure(p.id == MODULE_ID, PreErr::BadId(p.id))?;
    ensure(
        (FIRST_MAJOR..=LAST_MAJOR).contains(&p.major),
        PreErr::BadMajor(p.major),
    )?;
    ensure(p.words == PREAMBLE_WORDS, PreErr::BadSize(p.words))?;
    ensure(
        is_set(p.props, USER_MODE) && is_set(p.props, MEMORY_PROTECTION),
        PreErr::BadProps(p.props),
    )
}

/// Whether the code is the whole image, of the given number of bytes, and the data has a size that
/// it may have.
#[tactic(auto, unfolding(crate::specs::Preamble::judged, crate::specs::Preamble::size_rules))]
pub fn check_sizes(p: &Preamble, len: usize) -> Result<(), PreErr>
    ensures { result ≡ judged (size_rules len p.now) tt }
{
    ensure(
        p.code_size.is_multiple_of(4) && p.code_size as usize == len,
        PreErr::BadCode(p.code_size),
    )?;
    ensure(p.data_size <= MOST_DATA, PreErr::BadData(p.data_size))
}

/// Whether each entry lies in the code.
#[tactic(auto, unfolding(crate::specs::Preamble::judged, crate::specs::Preamble::entry_rules))]
pub fn check_entries(p: &Preamble) -> Result<(), PreErr>
    ensures { result ≡ judged (entry_rules p.now) tt }
{
    ensure(is_entry(p, p.shell), PreErr::BadEntry(0, p.shell))?;
    ensure(is_entry(p, p.start), PreErr::BadEntry(1, p.start))?;
    ensure(is_optional_entry(p, p.stop), PreErr::BadEntry(2, p.stop))?;
    ensure(
        is_optional_entry(p, p.callback),
        PreErr::BadEntry(3, p.callback),
    )
}

/// Whether each priority is one that there is.
#[tactic(auto, unfolding(crate::specs::Preamble::judged, crate::specs::Preamble::priority_rules))]
pub fn check_priorities(p: &Preamble) -> Result<(), PreErr>
    ensures { result ≡ judged (priority_rules p.now) tt }
{
    ensure(p.start_prio < PRIORITIES, PreErr::BadPrio(0, p.start_prio))?;
    ensure(
        !p.has_callback() || p.callback_prio < PRIORITIES,
        PreErr::BadPrio(1, p.callback_prio),
    )
}

/// Whether each stack has a size that it may have.
#[tactic(auto, unfolding(crate::specs::Preamble::judged, crate::specs::Preamble::stack_rules))]
pub fn check_stacks(p: &Preamble) -> Result<(), PreErr>
    ensures { result ≡ judged (stack_rules p.now) tt }
{
    ensure(is_stack(p.start_stack), PreErr::BadStack(0, p.start_stack))?;
    ensure(
        !p.has_callback() || is_stack(p.callback_stack),
        PreErr::BadStack(1, p.callback_stack),
    )
}

/// Whether a bit of a word is set.
fn is_set(word: u32, bit: u32) -> bool
    requires { bit < 32 }
    ensures { result ≡ (bit_at word bit == 1) }
{
    word >> bit & 1 == 1
}

/// Whether a word is the offset of an instruction after the preamble.
fn is_entry(p: &Preamble, word: u32) -> bool
    ensures { result ≡ is_entry p.now word }
{
    word.is_multiple_of(4) && word >= PREAMBLE_BYTES && word < p.code_size
}

/// Whether a word is an entry, or 0 for none.
fn is_optional_entry(p: &Preamble, word: u32) -> bool
    ensures { result ≡ is_optional_entry p.now word }
{
    word == 0 || is_entry(p, word)
}

/// Whether a stack may have a size.
fn is_stack(size: u32) -> bool
    ensures { result ≡ is_stack size }
{
    (LEAST_STACK..=MOST_STACK).contains(&size)
}
