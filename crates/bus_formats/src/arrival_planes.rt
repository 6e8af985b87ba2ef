//! Text captures of arrivals packed into two blocks: the bits that arrive, and which of these are of the second line.

ghost use Rattle.std.specs.Prelude.{◌≡◌, ◌+◌, ◌*◌, ◌≤◌, ◌<◌, ◌==◌, ◌^◌, ◌⊎◌, ℕ, List, false, ◌++◌, length, map};
ghost use Rattle.std.specs.Prelude.{slice_index, take, zip, None};
ghost use Rattle.std.specs.Simd.Lanes.{mask_l};
ghost use Rattle.bus_bits.specs.Bits.{bits_from};
ghost use Rattle.bus_bits.specs.Octet.{bits_of};
ghost use Rattle.bus_formats.specs.Capture.{TextEnds, is_arrival, mark_arrival, text_arrivals, text_arrivals_fault};
ghost use Rattle.bus_bits.specs.Text.{is_space};
ghost use Rattle.bus_formats.specs.Internal.Packs.{AreParted, bits_of_both, lines_of_both};

use crate::text_arrivals::TextArrivals;
use crate::text_bits::is_skipped;
use crate::text_block::{Packing, TextBlock, append_bits, close};
use std::simd::prelude::*;

/// What 32 octets of a text mark, the first the lowest.
#[derive(Clone, Copy)]
struct ArrivalMarks {
    /// Which of them are bits that are 1.
    bits: u64,
    /// Which are bits of the second line.
    lines: u64,
    /// Which are bits of either line.
    marks: u64,
}

/// A text as far as it is packed into two blocks.
#[derive(Clone, Copy)]
struct Parting {
    /// How many octets of the text were taken.
    taken: usize,
    /// How many octets of either block are full.
    filled: usize,
    /// The bits that fill no octet yet, the first the lowest.
    bits: u64,
    /// Which of them are of the second line.
    lines: u64,
    /// How many these are.
    held: u32,
}

impl TextArrivals {
    /// Packs the next arrivals of a text into two blocks, until fewer than ten octets of room are left, fewer than
    /// 32 octets of the text follow, or an octet is neither a mark nor skipped: their bits into the one, and into
    /// the other a 1 for each that is of the second line.
    #[inline(always)]
    pub fn part(text: &[u8], bits: &mut [u8], lines: &mut [u8]) -> TextBlock
        requires same { length bits.old ≡ length lines.old }
        requires some { 1 ≤ length bits.old }
        requires few { 8 * length bits.old < 2 ^ 64 }
        ensures enough { result.taken ≤ length text.now }
        ensures within { result.count ≤ 8 * length bits.new }
        ensures given { (xs : List ℕ) → text_arrivals_fault xs ≡ None →
            (text_arrivals_fault (xs ++ take result.taken text.now) ≡ None)
            × (text_arrivals (xs ++ take result.taken text.now) ≡ text_arrivals xs
            ++ zip (bits_from bits.new 0 result.count) (bits_from lines.new 0 result.count)) }
        ensures most { (8 * length bits.new < result.count + 80) ⊎ TextEnds is_arrival 32 text.now result.taken }
        ensures len { (length bits.new ≡ length bits.old) × (length lines.new ≡ length lines.old) }
    {
        let mut now = Parting {
            taken: 0,
            filled: 0,
            bits: 0,
            lines: 0,
            held: 0,
        };
        while now.filled + 10 <= bits.len() {
            let next = part_line(text, bits, lines, now);
            if next.taken == now.taken {
                return close_both(bits, lines, next);
            }
            now = next;
        }
        close_both(bits, lines, now)
    }
}

/// Stores the octets that are not full.
#[inline(always)]
fn close_both(bits: &mut [u8], lines: &mut [u8], parting: Parting) -> TextBlock
    requires parted { (text : List ℕ) × AreParted text bits.old lines.old parting }
    requires same { length bits.old ≡ length lines.old }
    requires few { 8 * length bits.old < 2 ^ 64 }
    ensures within { result.count ≤ 8 * length bits.new }
    ensures count { result.count ≡ 8 * parting.filled + parting.held }
    ensures taken { result.taken ≡ parting.taken }
    ensures given { (text : List ℕ) → AreParted text bits.old lines.old parting → (xs : List ℕ) →
        text_arrivals_fault xs ≡ None →
        (text_arrivals_fault (xs ++ take result.taken text) ≡ None)
        × (text_arrivals (xs ++ take result.taken text) ≡ text_arrivals xs
        ++ zip (bits_from bits.new 0 result.count) (bits_from lines.new 0 result.count)) }
    ensures len { (length bits.new ≡ length bits.old) × (length lines.new ≡ length lines.old) }
{
    close(lines, lines_of(parting));
    close(bits, bits_of(parting))
}

/// The bits alone.
#[inline(always)]
fn bits_of(parting: Parting) -> Packing
    ensures { result ≡ bits_of_both parting }
{
    Packing {
        taken: parting.taken,
        filled: parting.filled,
        rest: parting.bits,
        held: parting.held,
    }
}

/// Which of them are of the second line, alone.
#[inline(always)]
fn lines_of(parting: Parting) -> Packing
    ensures { result ≡ lines_of_both parting }
{
    Packing {
        taken: parting.taken,
        filled: parting.filled,
        rest: parting.lines,
        held: parting.held,
    }
}

/// Packs up to 32 arrivals more, and takes what is skipped after them.
#[inline(always)]
fn part_line(text: &[u8], bits: &mut [u8], lines: &mut [u8], parting: Parting) -> Parting
    requires parted { AreParted text.now bits.old lines.old parting }
    requires same { length bits.old ≡ length lines.old }
    requires room { parting.filled + 10 ≤ length bits.old }
    ensures parted { AreParted text.now bits.new lines.new result }
    ensures more { parting.taken ≤ result.taken }
    ensures most { result.taken ≡ parting.taken → TextEnds is_arrival 32 text.now result.taken }
    ensures len { (length bits.new ≡ length bits.old) × (length lines.new ≡ length lines.old) }
{
    let parting = part_many(text, bits, lines, parting);
    pass_spaces(text, parting)
}

/// Packs the arrivals before the first of the next 32 octets that is none.
#[inline(always)]
fn part_many(text: &[u8], bits: &mut [u8], lines: &mut [u8], parting: Parting) -> Parting
    requires parted { AreParted text.now bits.old lines.old parting }
    requires same { length bits.old ≡ length lines.old }
    requires room { parting.filled + 10 ≤ length bits.old }
    ensures parted { AreParted text.now bits.new lines.new result }
    ensures more { parting.taken ≤ result.taken }
    ensures most { result.taken ≡ parting.taken →
        (length text.now < result.taken + 32) ⊎ (is_arrival (slice_index text.now result.taken) ≡ false) }
    ensures len { (length bits.new ≡ length bits.old) × (length lines.new ≡ length lines.old) }
{
    let Some(front) = text[parting.taken..].first_chunk() else {
        return parting;
    };
    let marks = marks_of(front);
    let count = marks.marks.trailing_ones();
    let kept = (1 << count) - 1;
    let next = append_bits(bits, marks.bits & kept, count, bits_of(parting));
    let of_lines = append_bits(lines, marks.lines & kept, count, lines_of(parting));
    Parting {
        taken: next.taken,
        filled: next.filled,
        bits: next.rest,
        lines: of_lines.rest,
        held: next.held,
    }
}

/// Takes the next octets of the text that are skipped.
#[inline(always)]
fn pass_spaces(text: &[u8], parting: Parting) -> Parting
    requires { parting.taken ≤ length text.now }
    ensures parted { (bits lines : List ℕ) → AreParted text.now bits lines parting →
        AreParted text.now bits lines result }
    ensures more { parting.taken ≤ result.taken }
    ensures most { result.taken < length text.now → is_space (slice_index text.now result.taken) ≡ false }
{
    let mut now = parting;
    while now.taken < text.len() && is_skipped(text[now.taken]) {
        now.taken += 1;
    }
    now
}

/// What 32 octets mark. None marks two things.
#[inline(always)]
fn marks_of(octets: &[u8; 32]) -> ArrivalMarks
    ensures bits { bits_of 32 result.bits ≡ map (λ x. (mark_arrival x).0) octets.now }
    ensures lines { bits_of 32 result.lines ≡ map (λ x. (mark_arrival x).1) octets.now }
    ensures marks { bits_of 32 result.marks ≡ map is_arrival octets.now }
    ensures few { (result.bits < 2 ^ 32) × (result.lines < 2 ^ 32) × (result.marks < 2 ^ 32) }
{
    let text = u8x32::from_array(*octets);
    let first_ones = lanes(text, b'1');
    let second_ones = lanes(text, b'i');
    let lines = lanes(text, b'o') + second_ones;
    ArrivalMarks {
        bits: first_ones + second_ones,
        lines,
        marks: lanes(text, b'0') + first_ones + lines,
    }
}

/// Which of 32 octets are this one.
#[inline(always)]
fn lanes(text: u8x32, mark: u8) -> u64
    requires { length text ≡ 32 }
    ensures value { result ≡ mask_l (map (λ x. x == mark) text) }
    ensures few { result < 2 ^ 32 }
{
    text.simd_eq(u8x32::splat(mark)).to_bitmask()
}
