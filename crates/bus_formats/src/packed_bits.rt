//! The bits of a packed capture, after its head.

ghost use Rattle.std.specs.Prelude.{◌≡◌, ℕ, List, [], ◌∷◌, ◌++◌, length, Some, None, MatchResult, OnErr, ◌≤◌, ◌<◌, ◌+◌};
ghost use Rattle.std.specs.Prelude.{◌*◌, ◌^◌, ◌⊎◌, take};
ghost use Rattle.std.specs.List.{list_any};
ghost use Rattle.bus_bits.specs.Bits.{bits_from};
ghost use Rattle.bus_bits.specs.Octet.{bits_of};
ghost use Rattle.bus_formats.specs.Packed.{PackedAfter, packed_body, packed_fault_of, filled};

use crate::packed_head::PackedHead;
use arrayvec::ArrayVec;
use bus_bits::octet_bits;
use std::cmp::min;
use std::marker::Model;

/// Why the octets after a head are not its bits.
#[derive(Clone, Copy, Debug, PartialEq, Eq)]
pub enum PackedFault {
    /// An octet follows the last.
    Trailing,
    /// An unused bit of the last octet is 1.
    PadBits,
    /// Bits are missing.
    ShortBody,
}

/// Reads the octets after a head, each for eight bits, the least significant first. The last gives
/// those that are left, and its other bits are 0. In contracts it is the number of bits left.
#[derive(Clone, Copy, Debug, PartialEq, Eq)]
pub struct PackedBits {
    left: u64,
}

impl Model for PackedBits {
    ghost Value = { ℕ };

    ghost view = { λ reader. reader.left };

    ghost inverse = { λ left. record { left = left } };
}

impl PackedBits {
    /// A reader that has taken no octet.
    pub fn new(head: PackedHead) -> Self
        ensures { PackedAfter head.bits [] result }
    {
        PackedBits { left: head.bits }
    }

    /// How many bits are not yet given.
    pub fn left(&self) -> u64
        ensures { result ≡ self.now }
    {
        self.left
    }

    /// The bits of the next octet, eight or as many as are left.
    ///
    /// Where none is left the octet is refused as [`PackedFault::Trailing`], and where an unused
    /// bit is 1 as [`PackedFault::PadBits`]. A refusal changes nothing.
    pub fn step(&mut self, octet: u8) -> Result<ArrayVec<bool, 8>, PackedFault>
        ensures given { (n : ℕ) (xs : List ℕ) → PackedAfter n xs self.old → MatchResult result
            (λ bits. PackedAfter n (xs ++ octet ∷ []) self.new
            × ((packed_body n (xs ++ octet ∷ [])).bits ≡ (packed_body n xs).bits ++ bits.items))
            (λ fault. packed_body n (xs ++ octet ∷ [])
            ≡ record { bits = (packed_body n xs).bits; fault = Some (packed_fault_of fault) }) }
        ensures kept { OnErr result (self.new ≡ self.old) }
    {
        if self.left == 0 {
            return Err(PackedFault::Trailing);
        }
        let bits = octet_bits(octet);
        if self.left >= 8 {
            self.consume_octet();
            return Ok(ArrayVec::from(bits));
        }
        let used = self.left as usize;
        if has_one(&bits[used..]) {
            return Err(PackedFault::PadBits);
        }
        self.left = 0;
        Ok(gathered(&bits[..used]))
    }

    /// How many of the next `count` octets are octets of which all eight bits are wanted.
    #[inline(always)]
    pub fn whole(&self, count: usize) -> usize
        ensures within { result ≤ count }
        ensures wanted { 8 * result ≤ self.now }
        ensures few { 8 * result < 2 ^ 64 }
        ensures most { (result ≡ count) ⊎ (self.now < 8 * result + 8) }
    {
        min(count as u64, self.left / 8) as usize
    }

    /// Takes octets of which all eight bits are wanted, without giving these.
    #[inline(always)]
    pub fn consume_octets(&mut self, octets: &[u8])
        requires { 8 * length octets.now ≤ self.old }
        ensures given { (n : ℕ) (xs : List ℕ) → PackedAfter n xs self.old →
            PackedAfter n (xs ++ octets.now) self.new
            × ((packed_body n (xs ++ octets.now)).bits
            ≡ (packed_body n xs).bits ++ bits_from octets.now 0 (8 * length octets.now)) }
    {
        let left = self.left;
        self.left = left - 8 * octets.len() as u64;
    }

    /// Takes an octet of which all eight bits are wanted, without giving them.
    fn consume_octet(&mut self)
        requires { 8 ≤ self.old }
        ensures given { (n : ℕ) (xs : List ℕ) (octet : ℕ) → PackedAfter n xs self.old →
            PackedAfter n (xs ++ octet ∷ []) self.new
            × ((packed_body n (xs ++ octet ∷ [])).bits ≡ (packed_body n xs).bits ++ bits_of 8 octet) }
    {
        self.left -= 8;
    }

    /// Refuses the end of the input as [`PackedFault::ShortBody`] where bits are left.
    pub fn finish(&self) -> Result<(), PackedFault>
        ensures { (n : ℕ) (xs : List ℕ) → PackedAfter n xs self.now → MatchResult result
            (λ _. (filled n (packed_body n xs)).fault ≡ None)
            (λ fault. (filled n (packed_body n xs)).fault ≡ Some (packed_fault_of fault)) }
    {
        if self.left > 0 {
            Err(PackedFault::ShortBody)
        } else {
            Ok(())
        }
    }
}

/// Whether one of these bits is 1.
pub(crate) fn has_one(bits: &[bool]) -> bool
    ensures { result ≡ list_any (λ bit. bit) bits.now }
{
    bits.iter().any(|bit| *bit)
}

/// A vector of these items, as many as it has room for at most.
pub(crate) fn gathered<T: Copy + Default, const N: usize>(items: &[T]) -> ArrayVec<T, N>
    requires { length items.now ≤ N }
    ensures { result.items ≡ items.now }
{
    let mut gathered = ArrayVec::new();
    for item in items {
        gathered.push(*item);
    }
    gathered
}
