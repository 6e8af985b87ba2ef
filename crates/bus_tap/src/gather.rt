//! A bit of each of 64 octets, as a word.

ghost use Rattle.std.specs.Prelude.{◌≡◌, ◌^◌, ◌/◌, ◌%◌, ◌==◌, ◌<◌, ◌+◌, ◌≤◌, ℕ, length, slice_index};
ghost use Rattle.bus_tap.specs.Blocks.{has_bit};

use bus_bits::eight_at;
use std::simd::prelude::*;

/// The lowest bit of each of eight octets.
const LOWEST: u64 = 0x0101_0101_0101_0101;

/// The product of this and eight octets, each 0 or 1, has these as the bits of its highest octet, the first the lowest.
const GATHER: u64 = 0x0102_0408_1020_4080;

/// What takes a bit of each of 64 octets.
pub trait Gather {
    /// The bits with number `at` of 64 octets, that of the first the lowest.
    fn gather(octets: &[u8], at: u8) -> u64
        requires at { at < 8 }
        requires long { length octets.now ≡ 64 }
        ensures { (i : ℕ) → i < 64 → has_bit result i ≡ (slice_index octets.now i / 2 ^ at % 2 == 1) };
}

/// By lanes, which is quicker where a processor makes a mask of them.
pub struct ByLanes;

/// By words. For processors that `c/targets/build` alone compiles for, LLVM has no mask of lanes.
pub struct ByWords;

/// The bits with number `at` of eight octets from number `from` on, that of the first the lowest.
#[inline(always)]
fn eight_bits(octets: &[u8], from: usize, at: u8) -> u64
    requires at { at < 8 }
    requires within { from + 8 ≤ length octets.now }
    ensures few { result < 256 }
    ensures bits { (i : ℕ) → i < 8 → has_bit result i ≡ (slice_index octets.now (from + i) / 2 ^ at % 2 == 1) }
{
    let found = eight_at(octets, from) & LOWEST << at;
    found.wrapping_mul(GATHER >> at) >> 56
}

impl Gather for ByLanes {
    #[inline(always)]
    fn gather(octets: &[u8], at: u8) -> u64 {
        let mask = 1 << at;
        let found = u8x64::from_slice(octets) & u8x64::splat(mask);
        found.simd_eq(u8x64::splat(mask)).to_bitmask()
    }
}

impl Gather for ByWords {
    #[inline(always)]
    fn gather(octets: &[u8], at: u8) -> u64 {
        let mut word = 0;
        for taken in 0..8usize {
            word = word * 256 + eight_bits(octets, 56 - 8 * taken, at);
        }
        word
    }
}
