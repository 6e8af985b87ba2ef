//! Eight octets of a text capture in one number.

ghost use Rattle.std.specs.Prelude.{◌≡◌, ℕ, Bool, ◌<◌, ◌≤◌, ◌*◌, ◌/◌, ◌%◌, ◌==◌, ◌||◌, ◌++◌, ◌⊎◌, ◌↔◌, IsSome, map};
ghost use Rattle.std.specs.Prelude.{filter, take, drop, zip, bit_and, bit_xor, true};
ghost use Rattle.std.specs.Int.{w64, from_le_bytes};
ghost use Rattle.std.specs.List.{list_all};
ghost use Rattle.std.specs.Option.{ForSome};
ghost use Rattle.bus_bits.specs.Octet.{bits_of};
ghost use Rattle.bus_formats.specs.Internal.Marks.{HasMarks};
ghost use Rattle.bus_formats.specs.Capture.{EightBy, is_pair, mark_pair};
ghost use Rattle.bus_bits.specs.Text.{is_bit, is_space};

use crate::text_bits::is_skipped;

/// The bits of an octet that `0` and `1` share.
pub(crate) const BIT_HIGH: u8 = 0xfe;

/// The bits of an octet that `0` to `3` share.
pub(crate) const PAIR_HIGH: u8 = 0xfc;

/// Eight octets `0`.
const ZEROS: u64 = 0x3030_3030_3030_3030;

/// The lowest bit of each of eight octets.
const LOWEST: u64 = 0x0101_0101_0101_0101;

/// The product of this and eight octets, each 0 or 1, has these as the bits of its highest octet,
/// the first the lowest.
const GATHER: u64 = 0x0102_0408_1020_4080;

/// Eight bits of a text capture.
#[derive(Clone, Copy, Debug, PartialEq, Eq)]
pub struct EightBits {
    /// The bits as those of an octet, the first the lowest.
    pub octet: u8,
    /// How many octets of the text they took.
    pub taken: usize,
}

/// Eight pairs of a text capture of two lines.
#[derive(Clone, Copy, Debug, PartialEq, Eq)]
pub struct EightPairs {
    /// The first line's bits as those of an octet, the first the lowest.
    pub first: u8,
    /// The second line's.
    pub second: u8,
    /// How many octets of the text they took.
    pub taken: usize,
}

/// Eight marks of a text capture.
#[derive(Clone, Copy)]
pub(crate) struct EightMarks {
    /// The marks, without what is skipped.
    pub(crate) marks: [u8; 8],
    /// How many octets of the text they took.
    pub(crate) taken: usize,
}

/// The next eight marks, which share with `0` the bits of `high`, and how many octets they take:
/// eight, or nine where one of these is skipped. None where the next nine octets do not begin so.
#[inline(always)]
pub(crate) fn eight_marks(octets: &[u8], high: u8) -> Option<EightMarks>
    ensures marks { (is_mark : ℕ → Bool) → HasMarks high is_mark → ForSome result (λ e.
        (list_all (λ x. is_mark x || is_space x) (take e.taken octets.now) ≡ true)
        × (filter is_mark (take e.taken octets.now) ≡ e.marks) × (list_all is_mark e.marks ≡ true)) }
    ensures fewest { (is_mark : ℕ → Bool) → HasMarks high is_mark → ForSome result
        (λ e. EightBy is_mark e.taken octets.now × ((n : ℕ) → EightBy is_mark n octets.now → e.taken ≤ n)) }
    ensures few { ForSome result (λ e. (8 ≤ e.taken) × (e.taken ≤ 9)) }
    ensures some { (is_mark : ℕ → Bool) → HasMarks high is_mark →
        IsSome result ↔ (EightBy is_mark 8 octets.now ⊎ EightBy is_mark 9 octets.now) }
{
    let front: &[u8; 8] = octets.first_chunk()?;
    let others = other_bits(front, high);
    if others == 0 {
        return Some(EightMarks {
            marks: *front,
            taken: 8,
        });
    }
    let back: &[u8; 8] = octets[1..].first_chunk()?;
    let place = others.trailing_zeros() / 8;
    let marks = joined(front, back, place);
    if other_bits(&marks, high) != 0 || !is_skipped(front[place as usize]) {
        return None;
    }
    Some(EightMarks { marks, taken: 9 })
}

/// Of the bits of `high`, those in which each octet is not `0`: 0 if all eight are marks.
#[inline(always)]
pub(crate) fn other_bits(octets: &[u8; 8], high: u8) -> u64
    ensures { result ≡ from_le_bytes w64 (map (λ x. bit_and (bit_xor x 48) high) octets.now) }
{
    (u64::from_le_bytes(*octets) ^ ZEROS) & LOWEST * u64::from(high)
}

/// The bits of eight octets `0` and `1`, the first the lowest.
#[inline(always)]
pub(crate) fn gathered(octets: &[u8; 8]) -> u8
    requires { list_all is_bit octets.now ≡ true }
    ensures { bits_of 8 result ≡ map (λ x. x == 49) octets.now }
{
    packed(u64::from_le_bytes(*octets) ^ ZEROS)
}

/// The bits of eight octets `0` to `3`, the first the lowest: the first line's and the second's.
#[inline(always)]
pub(crate) fn gathered_pairs(octets: &[u8; 8]) -> (u8, u8)
    requires { list_all is_pair octets.now ≡ true }
    ensures { zip (bits_of 8 result.0) (bits_of 8 result.1) ≡ map mark_pair octets.now }
{
    let marks = u64::from_le_bytes(*octets) ^ ZEROS;
    (packed(marks & LOWEST), packed((marks & 2 * LOWEST) >> 1))
}

/// The bits of eight octets 0 and 1 as those of one, the first the lowest.
#[inline(always)]
fn packed(octets: u64) -> u8
    ensures { result ≡ octets * 72624976668147840 % 18446744073709551616 / 72057594037927936 }
{
    (octets.wrapping_mul(GATHER) >> 56) as u8
}

/// The octets of `front` before a place, and those of `back` from there on.
#[inline(always)]
fn joined(front: &[u8; 8], back: &[u8; 8], place: u32) -> [u8; 8]
    requires { place < 8 }
    ensures { result ≡ take place front.now ++ drop place back.now }
{
    let before = (1u64 << (8 * place)) - 1;
    (u64::from_le_bytes(*front) & before | u64::from_le_bytes(*back) & !before).to_le_bytes()
}
