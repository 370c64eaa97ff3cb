//! Words, bytes and bit fields of the machine, as definitions that every layer above cites.
//!
//! A word is a number below 2^32 and lies in memory with its lowest byte first. This crate holds the
//! definitions (specs/) and their laws; no code of the machine runs here.
#![tactic(auto)]

ghost use Rattle.std.specs.Prelude.{◌≡◌, ℕ, ◌^◌, ◌<◌};
ghost use Rattle.machine_words.specs.Word.{word_at, bytes_of_word};

/// A word is the word of its own four bytes (RISC-V Unprivileged ISA Manual, little-endian memory).
pub fn word_is_its_bytes()
    ensures { (w : ℕ) → w < 2 ^ 32 → word_at (bytes_of_word w) 0 ≡ w }
{}
