//! Text captures packed into blocks of octets, the first bit the lowest of the first octet.

ghost use Rattle.std.specs.Prelude.{◌≡◌, ◌+◌, ◌*◌, ◌≤◌, ◌<◌, ◌^◌, ◌⊎◌, ℕ, List, false, ◌++◌, length, slice_index, take};
ghost use Rattle.std.specs.Prelude.{None};
ghost use Rattle.bus_bits.specs.Bits.{bits_from};
ghost use Rattle.bus_bits.specs.Octet.{bits_of};
ghost use Rattle.bus_formats.specs.Capture.{TextEnds, text_fault};
ghost use Rattle.bus_bits.specs.Text.{is_bit, is_space, text_bits};
ghost use Rattle.bus_formats.specs.Internal.Packs.{IsPacked, packed_bits};

use crate::text_bits::{TextBits, is_skipped};
use crate::text_marks::{marks_of_sixteen, marks_of_sixty_four};

/// What was packed into a block.
#[derive(Clone, Copy, Debug, PartialEq, Eq)]
pub struct TextBlock {
    /// How many bits the block has.
    pub count: usize,
    /// How many octets of the text they took.
    pub taken: usize,
}

/// A text as far as it is packed into a block.
#[derive(Clone, Copy)]
pub(crate) struct Packing {
    /// How many octets of the text were taken.
    pub(crate) taken: usize,
    /// How many octets of the block are full.
    pub(crate) filled: usize,
    /// The bits that fill no octet yet, the first the lowest.
    pub(crate) rest: u64,
    /// How many these are.
    pub(crate) held: u32,
}

impl TextBits {
    /// Packs the next bits of a text into a block, until fewer than 22 octets of room are left, fewer than sixteen
    /// octets of the text follow, or an octet is neither a bit nor skipped.
    #[inline(always)]
    pub fn pack(text: &[u8], block: &mut [u8]) -> TextBlock
        requires some { 1 ≤ length block.old }
        requires few { 8 * length block.old < 2 ^ 64 }
        ensures enough { result.taken ≤ length text.now }
        ensures within { result.count ≤ 8 * length block.new }
        ensures given { (xs : List ℕ) → text_fault xs ≡ None →
            (text_fault (xs ++ take result.taken text.now) ≡ None)
            × (text_bits (xs ++ take result.taken text.now) ≡ text_bits xs ++ bits_from block.new 0 result.count) }
        ensures most { (8 * length block.new < result.count + 176) ⊎ TextEnds is_bit 16 text.now result.taken }
        ensures len { length block.new ≡ length block.old }
    {
        let mut now = Packing {
            taken: 0,
            filled: 0,
            rest: 0,
            held: 0,
        };
        while now.filled + 22 <= block.len() {
            let next = pack_some(text, block, now);
            if next.taken == now.taken {
                return close(block, next);
            }
            now = next;
        }
        close(block, now)
    }
}

/// Stores the octet that is not full.
#[inline(always)]
pub(crate) fn close(block: &mut [u8], packing: Packing) -> TextBlock
    requires room { packing.filled < length block.old }
    requires few { 8 * length block.old < 2 ^ 64 }
    requires held { packing.held < 8 }
    requires rest { packing.rest < 2 ^ packing.held }
    ensures bits { bits_from block.new 0 result.count ≡ packed_bits block.old packing }
    ensures within { result.count ≤ 8 * length block.new }
    ensures count { result.count ≡ 8 * packing.filled + packing.held }
    ensures taken { result.taken ≡ packing.taken }
    ensures len { length block.new ≡ length block.old }
{
    block[packing.filled] = packing.rest as u8;
    TextBlock {
        count: 8 * packing.filled + packing.held as usize,
        taken: packing.taken,
    }
}

/// Packs up to 80 bits more, and takes what is skipped after them.
#[inline(always)]
fn pack_some(text: &[u8], block: &mut [u8], packing: Packing) -> Packing
    requires packed { IsPacked text.now block.old packing }
    requires room { packing.filled + 22 ≤ length block.old }
    ensures packed { IsPacked text.now block.new result }
    ensures more { packing.taken ≤ result.taken }
    ensures most { result.taken ≡ packing.taken → TextEnds is_bit 16 text.now result.taken }
    ensures len { length block.new ≡ length block.old }
{
    let long = pack_sixty_four(text, block, packing);
    if long.taken == packing.taken {
        return pack_short_lines(text, block, long);
    }
    pack_line(text, block, long)
}

/// Packs up to 16 bits four times, and takes what is skipped after each of them: where lines are short, 64 octets are
/// not looked at for each.
#[inline(always)]
fn pack_short_lines(text: &[u8], block: &mut [u8], packing: Packing) -> Packing
    requires packed { IsPacked text.now block.old packing }
    requires room { packing.filled + 14 ≤ length block.old }
    ensures packed { IsPacked text.now block.new result }
    ensures more { packing.taken ≤ result.taken }
    ensures most { result.taken ≡ packing.taken → TextEnds is_bit 16 text.now result.taken }
    ensures len { length block.new ≡ length block.old }
{
    let first = pack_line(text, block, packing);
    let second = pack_line(text, block, first);
    let third = pack_line(text, block, second);
    pack_line(text, block, third)
}

/// Packs up to 16 bits more, and takes what is skipped after them.
#[inline(always)]
fn pack_line(text: &[u8], block: &mut [u8], packing: Packing) -> Packing
    requires packed { IsPacked text.now block.old packing }
    requires room { packing.filled + 8 ≤ length block.old }
    ensures packed { IsPacked text.now block.new result }
    ensures room { result.filled ≤ packing.filled + 2 }
    ensures more { packing.taken ≤ result.taken }
    ensures most { result.taken ≡ packing.taken → TextEnds is_bit 16 text.now result.taken }
    ensures len { length block.new ≡ length block.old }
{
    let packing = pack_sixteen(text, block, packing);
    pass_spaces(text, packing)
}

/// Packs 64 bits more, where the next 64 octets are bits.
#[inline(always)]
fn pack_sixty_four(text: &[u8], block: &mut [u8], packing: Packing) -> Packing
    requires packed { IsPacked text.now block.old packing }
    requires room { packing.filled + 12 ≤ length block.old }
    ensures packed { IsPacked text.now block.new result }
    ensures room { result.filled ≤ packing.filled + 8 }
    ensures more { packing.taken ≤ result.taken }
    ensures len { length block.new ≡ length block.old }
{
    let Some(front) = text[packing.taken..].first_chunk() else {
        return packing;
    };
    let marks = marks_of_sixty_four(front);
    if marks.bits != u64::MAX {
        return packing;
    }
    let half = append_bits(block, marks.ones & 0xffff_ffff, 32, packing);
    append_bits(block, marks.ones >> 32, 32, half)
}

/// Packs the bits before the first of the next sixteen octets that is none.
#[inline(always)]
fn pack_sixteen(text: &[u8], block: &mut [u8], packing: Packing) -> Packing
    requires packed { IsPacked text.now block.old packing }
    requires room { packing.filled + 8 ≤ length block.old }
    ensures packed { IsPacked text.now block.new result }
    ensures room { result.filled ≤ packing.filled + 2 }
    ensures more { packing.taken ≤ result.taken }
    ensures most { result.taken ≡ packing.taken →
        (length text.now < result.taken + 16) ⊎ (is_bit (slice_index text.now result.taken) ≡ false) }
    ensures len { length block.new ≡ length block.old }
{
    let Some(front) = text[packing.taken..].first_chunk() else {
        return packing;
    };
    let marks = marks_of_sixteen(front);
    if marks.bits == 0xffff {
        return append_bits(block, marks.ones, 16, packing);
    }
    let count = marks.bits.trailing_ones();
    append_bits(block, marks.ones & ((1 << count) - 1), count, packing)
}

/// Takes the next octets of the text that are skipped.
#[inline(always)]
fn pass_spaces(text: &[u8], packing: Packing) -> Packing
    requires { packing.taken ≤ length text.now }
    ensures packed { (block : List ℕ) → IsPacked text.now block packing → IsPacked text.now block result }
    ensures filled { result.filled ≡ packing.filled }
    ensures more { packing.taken ≤ result.taken }
    ensures most { result.taken < length text.now → is_space (slice_index text.now result.taken) ≡ false }
{
    let mut now = packing;
    while now.taken < text.len() && is_skipped(text[now.taken]) {
        now.taken += 1;
    }
    now
}

/// Puts the bits of as many octets of the text after those that a block has. Eight octets are stored, though fewer may
/// be full.
#[inline(always)]
pub(crate) fn append_bits(block: &mut [u8], bits: u64, count: u32, packing: Packing) -> Packing
    requires room { packing.filled + 8 ≤ length block.old }
    requires held { packing.held < 8 }
    requires rest { packing.rest < 2 ^ packing.held }
    requires few { count ≤ 48 }
    requires small { bits < 2 ^ count }
    requires taken { packing.taken + count < 2 ^ 64 }
    ensures bits { packed_bits block.new result ≡ packed_bits block.old packing ++ bits_of count bits }
    ensures count { 8 * result.filled + result.held ≡ 8 * packing.filled + packing.held + count }
    ensures held { result.held < 8 }
    ensures rest { result.rest < 2 ^ result.held }
    ensures taken { result.taken ≡ packing.taken + count }
    ensures len { length block.new ≡ length block.old }
{
    let joined = packing.rest | bits << packing.held;
    let octets = joined.to_le_bytes();
    let at = packing.filled;
    block[at..at + 8].copy_from_slice(&octets);
    let held = packing.held + count;
    Packing {
        taken: packing.taken + count as usize,
        filled: at + (held / 8) as usize,
        rest: joined >> (held / 8 * 8),
        held: held % 8,
    }
}
