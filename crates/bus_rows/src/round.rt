//! Bits in arrays, for tests that ask for no memory of their own.

use crate::words::sent;

/// A flag, eight zeros and a flag: a damaged piece.
pub const DAMAGED: [bool; 24] = [
    false, true, true, true, true, true, true, false, false, false, false, false, false, false,
    false, false, false, true, true, true, true, true, true, false,
];

/// How many bits a round of traffic has.
pub const ROUND_BITS: usize = 328;

/// How many octets these are.
pub const ROUND_OCTETS: usize = 41;

/// So many rounds have more than 10^5 bits.
pub const ROUNDS: u64 = 305;

/// The bits of these words, and after them ones, unless they are more than a round has.
pub fn round_of(words: &str) -> Option<[bool; ROUND_BITS]> {
    let mut bits = [true; ROUND_BITS];
    let mut place: usize = 0;
    for word in words.split_whitespace() {
        for mark in sent(word).bytes() {
            if mark == b'0' || mark == b'1' {
                *bits.get_mut(place)? = mark == b'1';
                place = place.saturating_add(1);
            }
        }
    }
    Some(bits)
}

/// The octets of a round, the first bit of each lowest.
pub fn round_octets(bits: &[bool; ROUND_BITS]) -> [u8; ROUND_OCTETS] {
    let mut octets = [0; ROUND_OCTETS];
    let (whole, _) = bits.as_chunks::<8>();
    for (octet, eight) in octets.iter_mut().zip(whole) {
        for bit in eight.iter().rev() {
            *octet = *octet << 1 | u8::from(*bit);
        }
    }
    octets
}

/// The pairs of two rounds.
pub fn round_pairs(
    first: &[bool; ROUND_BITS],
    second: &[bool; ROUND_BITS],
) -> [(bool, bool); ROUND_BITS] {
    let mut pairs = [(true, true); ROUND_BITS];
    for (pair, (one, other)) in pairs.iter_mut().zip(first.iter().zip(second)) {
        *pair = (*one, *other);
    }
    pairs
}
