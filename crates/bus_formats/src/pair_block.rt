//! The pairs of a packed capture of two lines, parted into octets of either line.

ghost use Rattle.std.specs.Prelude.{◌≡◌, ◌+◌, ◌*◌, ◌/◌, ◌%◌, ◌≤◌, ◌<◌, ◌^◌, ℕ, ◌++◌, length, zip, slice_index};
ghost use Rattle.bus_bits.specs.Octet.{bits_of, bits_of_octets};
ghost use Rattle.bus_bits.specs.Bits.{bits_from};
ghost use Rattle.bus_formats.specs.Packed.{in_pairs};

use crate::pair_words::parted;
use bus_bits::eight_at;

/// Parts the pairs of these octets, sixteen octets at a time: the first line's bits into one block and the second
/// line's into another, each in octets whose lowest bit is the first.
#[inline(always)]
pub(crate) fn part(octets: &[u8], first: &mut [u8], second: &mut [u8])
    requires sixteens { length octets.now % 16 ≡ 0 }
    requires room { (length octets.now ≤ 2 * length first.old) × (length octets.now ≤ 2 * length second.old) }
    ensures pairs { in_pairs (bits_of_octets octets.now)
        ≡ zip (bits_from first.new 0 (4 * length octets.now)) (bits_from second.new 0 (4 * length octets.now)) }
    ensures len { (length first.new ≡ length first.old) × (length second.new ≡ length second.old) }
{
    let mut at = 0;
    while at < octets.len() {
        let words = parted(eight_at(octets, at), eight_at(octets, at + 8));
        store_eight(first, at / 2, words.first);
        store_eight(second, at / 2, words.second);
        at += 16;
    }
}

/// Stores the lowest 32 bits of either number in eight octets from one on, the lowest first.
#[inline(always)]
fn store_eight(octets: &mut [u8], from: usize, words: [u64; 2])
    requires { from + 8 ≤ length octets.old }
    ensures bits { bits_from octets.new 0 (8 * from + 64)
        ≡ bits_from octets.old 0 (8 * from) ++ (bits_of 32 (slice_index words 0) ++ bits_of 32 (slice_index words 1)) }
    ensures len { length octets.new ≡ length octets.old }
{
    let [low, high] = words;
    let [a, b, c, d, ..] = low.to_le_bytes();
    let [e, f, g, h, ..] = high.to_le_bytes();
    octets[from..from + 8].copy_from_slice(&[a, b, c, d, e, f, g, h]);
}
