//! What holds of every placement, for the layers above: the function's contract is a law.
//!
//! The body does nothing; a function calls it where its proof needs the law.
ghost use Rattle.module_loader.specs.Laws.{TakenLiesApart, PlacedLieApart};

/// What is taken lies in the free memory at a multiple of 32, and all the rest stays free; of what is
/// placed no two pieces meet.
pub fn what_is_placed_lies_apart()
    ensures taken { TakenLiesApart }
    ensures placed { PlacedLieApart }
{}
