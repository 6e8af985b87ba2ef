//! Whole lists of bits and lists bit by bit: worked lists with their reports, and a second reading of
//! the rules.

mod decoder;
mod encoder;
mod every_list;
mod limits;
mod memory;
mod plain_reading;
mod random_lists;
mod rows;
mod scans;
mod text;

ghost use Rattle.std.specs.Prelude.{◌≤◌};

use bus_bits::bits_number;
use bus_fcs::Check;
use bus_line::{LineDecoder, Piece};
use std::alloc::Global;
use std::process::Abort;

/// The bits of a text of `0` and `1`. All else in it is a space between them.
fn bits_of(rt: &impl Abort, alloc: Global, text: &str) -> Vec<bool> {
    let mut bits = Vec::new(alloc);
    for mark in text.bytes() {
        match mark {
            b'0' => bits.push(false).expect(rt, "memory"),
            b'1' => bits.push(true).expect(rt, "memory"),
            _ => {}
        }
    }
    bits
}

/// The lowest `count` bits of `pattern`, the lowest first, between two given lists.
fn list_of(
    rt: &impl Abort,
    alloc: Global,
    before: &[bool],
    pattern: u32,
    count: u32,
    behind: &[bool],
) -> Vec<bool> {
    let mut bits = Vec::new(alloc);
    bits.extend_from_slice(before).expect(rt, "memory");
    for at in 0..count.min(16) {
        bits.push(pattern >> at & 1 == 1).expect(rt, "memory");
    }
    bits.extend_from_slice(behind).expect(rt, "memory");
    bits
}

/// The first of these bits, `most` or fewer, in octets, the first lowest, and how many these are.
fn octets_of(rt: &impl Abort, bits: &[bool], most: u32) -> ([u8; 8], usize)
    ensures some { 1 ≤ result.1 }
    ensures few { result.1 ≤ 48 }
{
    let (front, _) = bits.split_at(bits.len().min(most as usize));
    assert!(rt; 1 <= front.len() && front.len() <= 48, "1 to 48 bits");
    (bits_number(front).to_le_bytes(), front.len())
}

/// Pushes the first of these bits, or scans up to `size` of them with one call: the bits after them, and the report.
fn take_some<'a, 'd, C: Check>(
    rt: &impl Abort,
    decoder: &'d mut LineDecoder<C>,
    bits: &'a [bool],
    size: u32,
) -> (&'a [bool], Option<Piece<'d>>) {
    let (octets, count) = octets_of(rt, bits, size);
    if size == 1 {
        let behind = &bits[bits.len().min(1)..];
        return (
            behind,
            decoder.push(octets[0] & 1 == 1).expect(rt, "a place"),
        );
    }
    let scanned = decoder.scan(&octets, 0, count).expect(rt, "a place");
    let behind = &bits[bits.len().min(scanned.count)..];
    let octets = decoder.octets();
    (behind, scanned.event.map(|event| event.with_octets(octets)))
}
