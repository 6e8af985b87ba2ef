//! Bits of octets as a number.

ghost use Rattle.std.specs.Prelude.{◌≡◌, ◌+◌, ◌-◌, ◌*◌, ◌/◌, ◌%◌, ◌≤◌, ◌<◌, ◌^◌, ℕ, length, min, slice_index};
ghost use Rattle.bus_bits.specs.Octet.{bits_of};
ghost use Rattle.bus_bits.specs.Bits.{bit_at, bits_from};
ghost use Rattle.bus_bits.specs.Word.{IsWordOf};

use std::cmp::min;

/// Some bits, the first lowest.
#[derive(Clone, Copy)]
pub struct Word {
    pub bits: u64,
    pub count: u32,
}

/// A bit of these octets, the lowest of each first.
#[inline(always)]
pub fn bit_at(octets: &[u8], at: usize) -> bool
    requires { at < 8 * length octets.now }
    ensures { result ≡ bit_at octets.now at }
{
    (octets[at / 8] >> (at % 8)) % 2 == 1
}

/// Bits of these octets, the lowest of each first, from bit `at` on: up to 48 of those before bit `end`.
#[inline(always)]
pub fn word_at(octets: &[u8], at: usize, end: usize) -> Word
    requires some { at < end }
    requires within { end ≤ 8 * length octets.now }
    ensures word { IsWordOf result.count result.bits }
    ensures count { result.count ≡ min (end - at) 48 }
    ensures within { at + result.count ≤ end }
    ensures bits { (m : ℕ) → m ≤ result.count → bits_of m result.bits ≡ bits_from octets.now at m }
{
    let count = min(end - at, 48);
    if octets.len() < 8 {
        return cut(few(octets), at, count);
    }
    let from = min(at / 8, octets.len() - 8);
    cut(eight_at(octets, from), at - 8 * from, count)
}

/// The 56 bits of these octets from bit `at` on, the first lowest. The eight bits above them are not told.
#[inline(always)]
pub fn seven_octets_at(octets: &[u8], at: usize) -> u64
    requires { at + 64 ≤ 8 * length octets.now }
    ensures { bits_of 56 result ≡ bits_from octets.now at 56 }
{
    eight_at(octets, at / 8) >> (at % 8)
}

/// The bits of a number after the lowest ones, so many.
#[inline(always)]
fn cut(number: u64, behind: usize, count: usize) -> Word
    requires few { count ≤ 48 }
    requires within { behind + count ≤ 64 }
    requires some { 1 ≤ count }
    ensures bits { result.bits ≡ number / 2 ^ behind % 2 ^ count }
    ensures count { result.count ≡ count }
{
    Word {
        bits: number >> behind & ((1 << count) - 1),
        count: count as u32,
    }
}

/// These octets as a number, the first lowest.
#[inline]
fn few(octets: &[u8]) -> u64
    requires { length octets.now < 8 }
    ensures { bits_of 64 result ≡ bits_from octets.now 0 64 }
{
    if octets.len() == 1 {
        return only(octets);
    }
    eight_at_most(octets)
}

/// One octet alone, as a number.
#[inline(always)]
fn only(octets: &[u8]) -> u64
    requires { length octets.now ≡ 1 }
    ensures { bits_of 64 result ≡ bits_from octets.now 0 64 }
{
    u64::from_le_bytes([octets[0], 0, 0, 0, 0, 0, 0, 0])
}

/// Eight of these octets as a number, the first lowest.
#[inline(always)]
pub fn eight_at(octets: &[u8], from: usize) -> u64
    requires { from + 8 ≤ length octets.now }
    ensures { bits_of 64 result ≡ bits_from octets.now (8 * from) 64 }
{
    u64::from_le_bytes([
        octets[from],
        octets[from + 1],
        octets[from + 2],
        octets[from + 3],
        octets[from + 4],
        octets[from + 5],
        octets[from + 6],
        octets[from + 7],
    ])
}

/// The first eight of these octets as a number, the first lowest, with 0 for those that are not there.
#[inline(always)]
fn eight_at_most(octets: &[u8]) -> u64
    ensures { bits_of 64 result ≡ bits_from octets.now 0 64 }
{
    u64::from_le_bytes([
        octet_or_zero(octets, 0),
        octet_or_zero(octets, 1),
        octet_or_zero(octets, 2),
        octet_or_zero(octets, 3),
        octet_or_zero(octets, 4),
        octet_or_zero(octets, 5),
        octet_or_zero(octets, 6),
        octet_or_zero(octets, 7),
    ])
}

/// Octet `i`, or 0 past the end. Not by `get`: the pointer in its `Option` is misread where `c/targets/build`
/// compiles the 64-bit module of this crate for 32-bit pointers.
#[inline(always)]
fn octet_or_zero(octets: &[u8], i: usize) -> u8
    ensures { result ≡ slice_index octets.now i }
{
    if i < octets.len() { octets[i] } else { 0 }
}
