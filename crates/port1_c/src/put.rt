//! Bits of packed octets, the lowest of each first.

ghost use Rattle.std.specs.Prelude.{◌≡◌, ◌≢◌, ◌+◌, ◌-◌, ◌*◌, ◌≤◌, ◌<◌, ◌^◌, ◌/◌, ◌%◌, ◌==◌, ◌⊎◌};
ghost use Rattle.std.specs.Prelude.{ℕ, cond, false, length};
ghost use Rattle.bus_bits.specs.Bits.{bit_at, bits_from};
ghost use Rattle.port1_c.specs.Bits.{CopiesBits, PutsBits};

use std::cmp::min;

/// The octet with this bit at place `at`, where a 0 is.
#[inline(always)]
fn with_bit(octet: u8, at: u32, bit: bool) -> u8
    requires within { at < 8 }
    requires clear { octet / 2 ^ at % 2 ≡ 0 }
    ensures set { result / 2 ^ at % 2 ≡ cond bit 1 0 }
    ensures kept { (i : ℕ) → i < 8 → i ≢ at → result / 2 ^ i % 2 ≡ octet / 2 ^ i % 2 }
{
    octet | u8::from(bit) << at
}

/// Makes bit `at` of these octets, which is a 0, this one.
#[inline(always)]
pub(crate) fn set_bit(octets: &mut [u8], at: usize, bit: bool)
    requires within { at < 8 * length octets.old }
    requires clear { bit_at octets.old at ≡ false }
    ensures long { length octets.new ≡ length octets.old }
    ensures set { bit_at octets.new at ≡ bit }
    ensures kept { (i : ℕ) → i ≢ at → bit_at octets.new i ≡ bit_at octets.old i }
{
    octets[at / 8] = with_bit(octets[at / 8], (at % 8) as u32, bit);
}

/// The eight bits of these octets from bit `at` on, where an octet begins behind the first of them.
#[inline(always)]
fn eight_at(octets: &[u8], at: usize) -> u8
    requires { at + 8 < 8 * length octets.now }
    ensures { (i : ℕ) → i < 8 → (result / 2 ^ i % 2 == 1) ≡ bit_at octets.now (at + i) }
{
    let two = u16::from_le_bytes([octets[at / 8], octets[at / 8 + 1]]);
    (two >> (at % 8) & 0xff) as u8
}

/// The octet with the lowest bits of another, so many, from its bit `at` on.
#[inline(always)]
fn with_bits(octet: u8, at: u32, count: u32, bits: u8) -> u8
    requires some { 1 ≤ count }
    requires within { at + count ≤ 8 }
    ensures put { (i : ℕ) → i < count → result / 2 ^ (at + i) % 2 ≡ bits / 2 ^ i % 2 }
    ensures kept { (i : ℕ) → i < 8 → (i < at) ⊎ (at + count ≤ i) → result / 2 ^ i % 2 ≡ octet / 2 ^ i % 2 }
{
    let mask: u8 = 0xff << at & 0xff >> (8 - at - count);
    octet & !mask | bits << at & mask
}

/// Puts bits of the source in the place of those of one octet.
#[inline(always)]
fn put_some(octets: &mut [u8], at: usize, source: &[u8], first: usize, count: usize)
    requires one { at % 8 + count ≤ 8 }
    requires within { first + count + 8 ≤ 8 * length source.now }
    requires room { at + count ≤ 8 * length octets.old }
    ensures { CopiesBits octets.old at source.now first count octets.new }
{
    if count == 0 {
        return;
    }
    let bits = eight_at(source, first);
    octets[at / 8] = with_bits(octets[at / 8], (at % 8) as u32, count as u32, bits);
}

/// Puts bits of the source in the place of those of whole octets, so many.
#[inline(always)]
fn put_octets(octets: &mut [u8], at: usize, source: &[u8], first: usize, count: usize)
    requires aligned { 1 ≤ count → at % 8 ≡ 0 }
    requires within { first + 8 * count + 8 ≤ 8 * length source.now }
    requires room { at + 8 * count ≤ 8 * length octets.old }
    requires small { first + 8 * count < 2 ^ 64 }
    ensures { CopiesBits octets.old at source.now first (8 * count) octets.new }
{
    for i in 0..count {
        octets[at / 8 + i] = eight_at(source, first + 8 * i);
    }
}

/// Puts the bits `first` to `end` - 1 of the source in the place of those from bit `at` on. The source has an
/// octet more.
pub(crate) fn put_bits(octets: &mut [u8], at: usize, source: &[u8], first: usize, end: usize)
    requires order { first ≤ end }
    requires within { end + 8 ≤ 8 * length source.now }
    requires room { at + (end - first) ≤ 8 * length octets.old }
    requires small { at + (end - first) < 2 ^ 64 }
    ensures { PutsBits octets.old at (bits_from source.now first (end - first)) octets.new }
{
    let count = end - first;
    let head = min((8 - at % 8) % 8, count);
    let whole = (count - head) / 8;
    let done = head + 8 * whole;
    put_some(octets, at, source, first, head);
    put_octets(octets, at + head, source, first + head, whole);
    put_some(octets, at + done, source, first + done, count - done);
}
