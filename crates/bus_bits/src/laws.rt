//! Laws over the definitions.

ghost use Rattle.bus_bits.specs.Octet.{NumberOfBits, BitsOfNumber, BitsOfOctets, OctetsOfBits};

/// An octet and its eight bits determine each other.
pub fn octet_is_bits()
    ensures number { NumberOfBits }
    ensures bits { BitsOfNumber }
{}

/// Cutting whole octets' bits into octets and writing octets as bits are inverse.
pub fn octets_are_bits()
    ensures octets { BitsOfOctets }
    ensures bits { OctetsOfBits }
{}
