//! The preamble at the head of a module image: its sixteen words, or the first rule that it breaks.
//!
//! The layout is that of the ThreadX Modules User Guide, "Module Preamble"; the bounds on sizes are
//! this board's. Nothing here looks at the code after the preamble, and nothing allocates.
#![tactic(auto)]

ghost use Rattle.std.specs.Prelude.{◌≡◌, IfOk};
ghost use Rattle.module_preamble.specs.Preamble.{preamble, IsAccepted};

mod refusal;
mod rules;
mod words;

pub use refusal::PreErr;
pub use rules::{
    FIRST_MAJOR, LAST_MAJOR, LEAST_STACK, MEMORY_PROTECTION, MODULE_ID, MOST_DATA, MOST_STACK,
    PREAMBLE_BYTES, PREAMBLE_WORDS, PRIORITIES, USER_MODE,
};
pub use words::Preamble;

/// The words of an image's preamble, or the refusal of the first rule that it breaks. The rules are
/// tested in the order in which `PreErr` lists them.
#[tactic(auto, using(crate::proofs::Judged::parts, crate::proofs::Accepted::accepted), unfolding(crate::specs::Preamble::preamble, crate::specs::Preamble::rules))]
pub fn read(image: &[u8]) -> Result<Preamble, PreErr>
    ensures preamble { result ≡ preamble image.now }
    ensures accepted { IfOk result (λ p. IsAccepted image.now p) }
{
    rules::check_length(image)?;
    let p = Preamble::of(image);
    rules::check_identity(&p)?;
    rules::check_sizes(&p, image.len())?;
    rules::check_entries(&p)?;
    rules::check_priorities(&p)?;
    rules::check_stacks(&p)?;
    Ok(p)
}
