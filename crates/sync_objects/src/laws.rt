//! What holds of every table, for the layers above: each function's contract is a law.
//!
//! Their bodies do nothing; a function calls one where its proof needs the law.
ghost use Rattle.sync_objects.specs.Laws.{SetsKeepTheCounts, RemovesKeepTheCounts, SetsSpareOthers, RemovesSpareOthers, CountIsSet, CountIsGone};
ghost use Rattle.sync_objects.specs.Semas.{IsSemaTable, no_semas};

/// Each call keeps what holds of every table of counts.
pub fn calls_keep_the_counts()
    ensures new { IsSemaTable no_semas }
    ensures sets { SetsKeepTheCounts }
    ensures removes { RemovesKeepTheCounts }
{}

/// A call changes the count of its own object alone: that is the one set then, or 0.
pub fn a_call_changes_its_count_alone()
    ensures sets { SetsSpareOthers }
    ensures removes { RemovesSpareOthers }
    ensures is_set { CountIsSet }
    ensures is_gone { CountIsGone }
{}
