//! Bits that decide nothing, many at a time.

ghost use Rattle.std.specs.Prelude.{◌≡◌, ◌+◌, ◌-◌, ◌*◌, ◌/◌, ◌%◌, ◌≤◌, ◌<◌, ◌^◌, true, length};
ghost use Rattle.std.specs.Prelude.{replicate};
ghost use Rattle.bus_bits.specs.Bits.{bits_from};
ghost use Rattle.bus_bits.specs.Octet.{bits_of};
ghost use Rattle.bus_line.specs.Internal.Flags.{flags};
ghost use Rattle.bus_line.specs.Internal.TimeFill.{AreFlags};

use bus_bits::{eight_at, seven_octets_at};
use std::cmp::min;

/// 56 ones after eight 0s.
const ONES: u64 = 0xffff_ffff_ffff_ff00;

/// Seven flags in a row, after eight 0s.
const SEVEN_FLAGS: u64 = 0x7e7e_7e7e_7e7e_7e00;

/// Where ones end that are looked for in 56 bits, then by eight octets at a time, and not in the last 63 bits. A call
/// for each row of them costs nothing beside it, and its caller stays small enough to be inlined.
#[inline(never)]
pub(crate) fn ones_end(octets: &[u8], from: usize, end: usize) -> usize
    requires some { from ≤ end }
    requires enough { end ≤ 8 * length octets.now }
    ensures within { (from ≤ result) × (result ≤ end) }
    ensures ones { bits_from octets.now from (result - from) ≡ replicate (result - from) true }
{
    if end - from < 64 || seven_octets_at(octets, from) << 8 != ONES {
        return from;
    }
    // These ones reach past the next octet's beginning.
    let mut at = 8 * (from / 8 + 1);
    while end - at >= 64 {
        if eight_at(octets, at / 8) != u64::MAX {
            break;
        }
        at += 64;
    }
    if at < from + 56 {
        return from + 56;
    }
    at
}

/// Where flags end, which are looked for seven at a time and not in the last 63 bits; no part of its caller, as
/// `ones_end`.
#[inline(never)]
pub(crate) fn flags_end(octets: &[u8], from: usize, end: usize) -> usize
    requires some { from ≤ end }
    requires enough { end ≤ 8 * length octets.now }
    ensures within { (from ≤ result) × (result ≤ end) }
    ensures flags { AreFlags octets.now from result }
{
    let mut at = from;
    while end - at >= 64 {
        let bits = seven_octets_at(octets, at);
        if bits << 8 != SEVEN_FLAGS {
            at += 8 * flags_in(bits);
            break;
        }
        at += 56;
    }
    at
}

/// How many flags the lowest 56 of these bits begin with.
fn flags_in(bits: u64) -> usize
    ensures few { result ≤ 7 }
    ensures are { bits_of (8 * result) bits ≡ flags result }
{
    let other = bits ^ SEVEN_FLAGS >> 8;
    min(other.trailing_zeros() / 8, 7) as usize
}
