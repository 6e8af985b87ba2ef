//! Laws over the definitions.

ghost use Rattle.bus_formats.specs.Capture.{TextGrows, TextPairsGrow, TextArrivalsGrow, CappedGrows, CappedPairsGrow};
ghost use Rattle.bus_formats.specs.Packed.{PackedIsHeaded, PackedIsShort, PackedGrows, PackedEnds, PairsAreHeaded};
ghost use Rattle.bus_formats.specs.Packed.{PairsAreShort, OctetIsFourMarks, PackedPairsGrow, PackedPairsEnd};
ghost use Rattle.bus_formats.specs.Packed.{ArrivalsAreHeaded, ArrivalsAreShort, PackedArrivalsGrow, PackedArrivalsEnd};

/// A packed capture of sixteen octets or more is a head and what follows it, and one of fewer
/// gives no bit.
pub fn packed_is_head_and_body()
    ensures headed { PackedIsHeaded }
    ensures short { PackedIsShort }
{}

/// A longer front of the octets of a capture gives the same bits and more, or the same fault:
/// however the octets are cut, their bits are the same. The end of the input adds no bit.
pub fn captures_grow()
    ensures text { TextGrows }
    ensures packed { PackedGrows }
    ensures ended { PackedEnds }
    ensures capped { CappedGrows }
{}

/// A packed capture of two lines of sixteen octets or more is a head and what follows it, and one of
/// fewer gives no pair.
pub fn pairs_are_head_and_body()
    ensures headed { PairsAreHeaded }
    ensures short { PairsAreShort }
{}

/// An octet of a packed capture of two lines gives what four marks of a text of two lines give: its
/// digits to the base 4, the lowest first.
pub fn octet_is_four_marks()
    ensures { OctetIsFourMarks }
{}

/// However the octets of a capture of two lines are cut, their pairs are the same. The end of the
/// input adds no pair.
pub fn pair_captures_grow()
    ensures text { TextPairsGrow }
    ensures packed { PackedPairsGrow }
    ensures ended { PackedPairsEnd }
    ensures capped { CappedPairsGrow }
{}

/// A packed capture of arrivals of sixteen octets or more is a head and what follows it, and one of fewer
/// gives no arrival.
pub fn arrivals_are_head_and_body()
    ensures headed { ArrivalsAreHeaded }
    ensures short { ArrivalsAreShort }
{}

/// However the octets of a capture of arrivals are cut, its arrivals are the same. The end of the input
/// adds none.
pub fn arrival_captures_grow()
    ensures text { TextArrivalsGrow }
    ensures packed { PackedArrivalsGrow }
    ensures ended { PackedArrivalsEnd }
    ensures capped { CappedPairsGrow }
{}
