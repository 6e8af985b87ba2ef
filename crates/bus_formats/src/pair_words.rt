//! The bits of two lines in one number, parted into two.

ghost use Rattle.std.specs.Prelude.{◌≡◌, ℕ, ◌<◌, ◌*◌, ◌/◌, ◌^◌, zip, slice_index, get_or, bit_and, bit_or};
ghost use Rattle.std.specs.Int.{bit_at};
ghost use Rattle.bus_bits.specs.Octet.{bits_of};
ghost use Rattle.bus_formats.specs.Packed.{in_pairs};

use std::simd::prelude::*;

/// Bits of both lines at the same places, the first lowest.
#[derive(Clone, Copy, Debug, PartialEq, Eq)]
pub struct PairWords {
    /// The first line's.
    pub first: u64,
    /// The second line's.
    pub second: u64,
}

impl PairWords {
    /// The pairs of a number, from the least significant bits on, parted.
    #[inline(always)]
    pub fn of(pairs: u64) -> Self
        ensures pairs { in_pairs (bits_of 64 pairs) ≡ zip (bits_of 32 result.first) (bits_of 32 result.second) }
        ensures few { (result.first < 2 ^ 32) × (result.second < 2 ^ 32) }
    {
        let both = parted(pairs, 0);
        PairWords {
            first: both.first[0] & 0xffff_ffff,
            second: both.second[0] & 0xffff_ffff,
        }
    }
}

/// The bits of sixteen octets of pairs, parted.
#[derive(Clone, Copy)]
pub(crate) struct BothLines {
    /// The first line's, 32 in each.
    pub(crate) first: [u64; 2],
    /// The second line's.
    pub(crate) second: [u64; 2],
}

/// The 32 pairs of each of two numbers, from the least significant bits on.
#[inline(always)]
pub(crate) fn parted(low: u64, high: u64) -> BothLines
    ensures low { in_pairs (bits_of 64 low)
        ≡ zip (bits_of 32 (slice_index result.first 0)) (bits_of 32 (slice_index result.second 0)) }
    ensures high { in_pairs (bits_of 64 high)
        ≡ zip (bits_of 32 (slice_index result.first 1)) (bits_of 32 (slice_index result.second 1)) }
{
    let words = u64x2::from_array([low, high]);
    BothLines {
        first: even_bits(words).to_array(),
        second: even_bits(words >> 1).to_array(),
    }
}

/// The bits at the even places of each number, close together.
#[inline(always)]
fn even_bits(words: u64x2) -> u64x2
    ensures { (j : ℕ) → j < 2 → (i : ℕ) → i < 32 → bit_at (get_or result j 0) i ≡ bit_at (get_or words j 0) (2 * i) }
{
    // They stand by ones, and then by twos, fours and so on, each with as many 0 above.
    let ones = words & u64x2::splat(0x5555_5555_5555_5555);
    let twos = closer(ones, 1, 0x3333_3333_3333_3333);
    let fours = closer(twos, 2, 0x0f0f_0f0f_0f0f_0f0f);
    let eights = closer(fours, 4, 0x00ff_00ff_00ff_00ff);
    let sixteens = closer(eights, 8, 0x0000_ffff_0000_ffff);
    closer(sixteens, 16, 0xffff_ffff)
}

/// The bits of each number and the same so many places lower, of which those of a mask are kept.
#[inline(always)]
fn closer(bits: u64x2, places: u64, mask: u64) -> u64x2
    requires { places < 64 }
    ensures { (j : ℕ) → j < 2 → get_or result j 0
        ≡ bit_and (bit_or (get_or bits j 0) (get_or bits j 0 / 2 ^ places)) mask }
{
    (bits | bits >> u64x2::splat(places)) & u64x2::splat(mask)
}
