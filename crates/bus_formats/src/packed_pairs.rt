//! The pairs of a packed capture of two lines, after its head.

ghost use Rattle.std.specs.Prelude.{◌≡◌, ℕ, ◌+◌, ◌*◌, ◌%◌, List, [], ◌∷◌, ◌++◌, Some, None, MatchResult, OnErr, ◌≤◌};
ghost use Rattle.std.specs.Prelude.{◌<◌, ◌⊎◌, length, zip};
ghost use Rattle.bus_bits.specs.Bits.{bits_from};
ghost use Rattle.bus_bits.specs.Octet.{bits_of};
ghost use Rattle.bus_formats.specs.Packed.{PairsAfter, pair_body, packed_fault_of, filled, in_pairs};

use crate::packed_bits::{PackedFault, gathered, has_one};
use crate::packed_head::{ArrivalHead, PairHead};
use crate::pair_block::part;
use arrayvec::ArrayVec;
use bus_bits::octet_bits;
use std::cmp::min;
use std::marker::Model;

/// Reads the octets after a head of two lines, each for four pairs, from the least significant bits
/// on: of the two bits of a pair the lower is the first line's, and the higher the second line's. The
/// last octet gives the pairs that are left, and its other bits are 0. In contracts it is the number
/// of pairs left.
///
/// The arrivals of two lines with a clock each are packed alike: the lower bit is the one that arrives,
/// and the higher says whether it is one of the second line.
#[derive(Clone, Copy, Debug, PartialEq, Eq)]
pub struct PackedPairs {
    left: u64,
}

impl Model for PackedPairs {
    ghost Value = { ℕ };

    ghost view = { λ reader. reader.left };

    ghost inverse = { λ left. record { left = left } };
}

impl PackedPairs {
    /// A reader that has taken no octet.
    pub fn new(head: PairHead) -> Self
        ensures { PairsAfter head.pairs [] result }
    {
        PackedPairs { left: head.pairs }
    }

    /// A reader of arrivals that has taken no octet.
    pub fn of_arrivals(head: ArrivalHead) -> Self
        ensures { PairsAfter head.arrivals [] result }
    {
        PackedPairs {
            left: head.arrivals,
        }
    }

    /// How many pairs are not yet given.
    pub fn left(&self) -> u64
        ensures { result ≡ self.now }
    {
        self.left
    }

    /// The pairs of the next octet, four or as many as are left.
    ///
    /// Where none is left the octet is refused as [`PackedFault::Trailing`], and where an unused
    /// bit is 1 as [`PackedFault::PadBits`]. A refusal changes nothing.
    pub fn step(&mut self, octet: u8) -> Result<ArrayVec<(bool, bool), 4>, PackedFault>
        ensures given { (n : ℕ) (xs : List ℕ) → PairsAfter n xs self.old → MatchResult result
            (λ pairs. PairsAfter n (xs ++ octet ∷ []) self.new
            × ((pair_body n (xs ++ octet ∷ [])).bits ≡ (pair_body n xs).bits ++ pairs.items))
            (λ fault. pair_body n (xs ++ octet ∷ [])
            ≡ record { bits = (pair_body n xs).bits; fault = Some (packed_fault_of fault) }) }
        ensures kept { OnErr result (self.new ≡ self.old) }
    {
        if self.left == 0 {
            return Err(PackedFault::Trailing);
        }
        let used = self.left.min(4);
        if has_one(&octet_bits(octet)[2 * used as usize..]) {
            return Err(PackedFault::PadBits);
        }
        self.left -= used;
        Ok(gathered(&octet_pairs(octet)[..used as usize]))
    }

    /// How many of the next `count` octets can be taken at once: sixteens of octets of which all pairs are wanted.
    #[inline(always)]
    pub fn whole(&self, count: usize) -> usize
        ensures within { result ≤ count }
        ensures wanted { 4 * result ≤ self.now }
        ensures sixteens { result % 16 ≡ 0 }
        ensures most { (count < result + 16) ⊎ (self.now < 4 * result + 64) }
    {
        16 * min(count as u64 / 16, self.left / 64) as usize
    }

    /// Takes sixteens of octets of which all pairs are wanted, and parts them: the first line's bits are then those of
    /// one block and the second line's those of another, each in octets whose lowest bit is the first.
    #[inline(always)]
    pub fn unpack_octets(&mut self, octets: &[u8], first: &mut [u8], second: &mut [u8])
        requires wanted { 4 * length octets.now ≤ self.old }
        requires sixteens { length octets.now % 16 ≡ 0 }
        requires room { (length octets.now ≤ 2 * length first.old) × (length octets.now ≤ 2 * length second.old) }
        ensures given { (n : ℕ) (xs : List ℕ) → PairsAfter n xs self.old →
            PairsAfter n (xs ++ octets.now) self.new
            × ((pair_body n (xs ++ octets.now)).bits ≡ (pair_body n xs).bits
            ++ zip (bits_from first.new 0 (4 * length octets.now)) (bits_from second.new 0 (4 * length octets.now))) }
        ensures len { (length first.new ≡ length first.old) × (length second.new ≡ length second.old) }
    {
        let left = self.left;
        self.left = left - 4 * octets.len() as u64;
        part(octets, first, second);
    }

    /// Refuses the end of the input as [`PackedFault::ShortBody`] where pairs are left.
    pub fn finish(&self) -> Result<(), PackedFault>
        ensures { (n : ℕ) (xs : List ℕ) → PairsAfter n xs self.now → MatchResult result
            (λ _. (filled n (pair_body n xs)).fault ≡ None)
            (λ fault. (filled n (pair_body n xs)).fault ≡ Some (packed_fault_of fault)) }
    {
        if self.left > 0 {
            Err(PackedFault::ShortBody)
        } else {
            Ok(())
        }
    }
}

/// The bits of an octet two by two, from the least significant on.
fn octet_pairs(o: u8) -> [(bool, bool); 4]
    ensures { result ≡ in_pairs (bits_of 8 o) }
{
    [
        (o % 2 == 1, o / 2 % 2 == 1),
        (o / 4 % 2 == 1, o / 8 % 2 == 1),
        (o / 16 % 2 == 1, o / 32 % 2 == 1),
        (o / 64 % 2 == 1, o / 128 % 2 == 1),
    ]
}
