//! What holds of every write, for the layers above: each function's contract is a law.
//!
//! Their bodies do nothing; a function calls one where its proof needs the law.
ghost use Rattle.flat_ram.specs.Laws.{LengthStays, OthersStay, RangeIsWritten, NumbersStay, WidthIsLength, LowestFirst, SameBytesSameNumber, ReadsBack};

/// A write changes its range alone.
pub fn a_write_changes_its_range_alone()
    ensures length_stays { LengthStays }
    ensures others_stay { OthersStay }
    ensures range_is_written { RangeIsWritten }
    ensures numbers_stay { NumbersStay }
{}

/// The bytes of a stored number, the lowest first, and what is read from them.
pub fn a_number_lies_lowest_byte_first()
    ensures width_is_length { WidthIsLength }
    ensures lowest_first { LowestFirst }
    ensures same_bytes_same_number { SameBytesSameNumber }
    ensures reads_back { ReadsBack }
{}
