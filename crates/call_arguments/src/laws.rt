//! What holds of all words of a module's memory, for the layers above: the function's contract is a
//! law.
//!
//! Its body does nothing; a function calls it where its proof needs the law.
ghost use Rattle.call_arguments.specs.Laws.{WordsAreAsMany};

/// There are as many words as are asked for.
pub fn words_are_as_many()
    ensures { WordsAreAsMany }
{}
