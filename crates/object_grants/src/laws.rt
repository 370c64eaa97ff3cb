//! What holds of every table of slots, for the layers above: each function's contract is a law.
//!
//! Their bodies do nothing; a function calls one where its proof needs the law.
ghost use Rattle.object_grants.specs.Laws.{CallsKeepTheTable, GenerationsNeverFall, FreeEndsReferences, DeadStaysDead, DeadFindsNothing, ReferenceDiesWithItsSlot};

/// Once a slot is freed, and whatever is done after, a reference to what it held finds nothing any
/// more, for any module and kind.
pub fn a_reference_dies_with_its_slot()
    ensures free_ends_references { FreeEndsReferences }
    ensures dead_stays_dead { DeadStaysDead }
    ensures dead_finds_nothing { DeadFindsNothing }
    ensures dies_with_its_slot { ReferenceDiesWithItsSlot }
{}

/// Each call keeps what holds of every table, and no slot's generation falls.
pub fn calls_keep_the_table()
    ensures sound { CallsKeepTheTable }
    ensures generations { GenerationsNeverFall }
{}
