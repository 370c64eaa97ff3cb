//! What holds of every use of guarded memory, for the layers above: each function's contract is a
//! law.
//!
//! Their bodies do nothing; a function calls one where its proof needs the law.
ghost use Rattle.region_guard.specs.Laws.{UsedIsInRam, PartsMayBeUsed, BytesOutsideStay, WrittenBytesStand, NumbersOutsideStay, StoreChangesItsBytes, StoreIsReadBack, RuleStays, SoundnessStays};

use flat_ram::{a_number_lies_lowest_byte_first, a_write_changes_its_range_alone};

/// What may be used lies in RAM, and each part of it may be used.
pub fn what_may_be_used_is_in_ram()
    ensures in_ram { UsedIsInRam }
    ensures parts { PartsMayBeUsed }
{}

/// A write changes its range alone: each byte and number outside stays, and so do the rule and what
/// holds of all guarded memory.
pub fn a_write_changes_its_bytes_alone()
    ensures outside_stays { BytesOutsideStay }
    ensures written_stands { WrittenBytesStand }
    ensures numbers_stay { NumbersOutsideStay }
    ensures rule_stays { RuleStays }
    ensures soundness_stays { SoundnessStays }
{
    a_write_changes_its_range_alone();
    a_number_lies_lowest_byte_first();
}

/// A store of a number is its low bytes, the lowest first, and is read back.
pub fn a_store_is_its_low_bytes()
    ensures bytes { StoreChangesItsBytes }
    ensures read_back { StoreIsReadBack }
{
    a_write_changes_its_range_alone();
    a_number_lies_lowest_byte_first();
    a_write_changes_its_bytes_alone();
}
