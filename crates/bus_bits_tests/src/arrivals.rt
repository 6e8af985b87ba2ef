//! Texts of arrivals, many octets at once.

use crate::expect::{holds, same};
use bus_bits::bit_at;
use bus_formats::TextArrivals;
use std::process::Abort;

/// How often a period of a text is repeated.
const PERIODS: usize = 40;

/// Periods of texts, and what stands behind them.
const TEXTS: [(&str, &str); 6] = [
    ("01oi", ""),
    (
        "0i1i1i0o1i0i1o0i0i1i0i1i0i0i1i1i0i1i0o1o0i1i0i1i0i1i0i1i0i1i0i1i0i1i0i1i0i1i\n",
        "",
    ),
    ("0i\n", ""),
    ("oooo iiii\r\n0000\t1111", "x"),
    ("i1o0i1o0i1o0i1o0i1o0i1o0i1o0i1o\n", "2"),
    ("    0    ", "i"),
];

/// What is packed of a text is what its octets mark, one after the other.
fn check_parted(rt: &impl Abort, text: &[u8], least: usize) {
    let (mut bits, mut lines) = ([0; 64], [0; 64]);
    let block = TextArrivals::part(text, &mut bits, &mut lines);
    let mut reader = TextArrivals::new();
    let mut count: usize = 0;
    for octet in &text[..block.taken.min(text.len())] {
        if let Some((bit, is_second)) = reader.step(*octet).expect(rt, "marks and spaces") {
            holds(rt, count < 512, "there is room");
            same(rt, bit_at(&bits, count.min(511)), bit, "a bit");
            same(rt, bit_at(&lines, count.min(511)), is_second, "a line");
            count = count.saturating_add(1);
        }
    }
    same(rt, block.count, count, "as many");
    holds(rt, block.taken >= least, "enough are taken");
}

/// Texts are taken but for their last octets, or until the blocks are full.
#[test]
fn texts_are_packed(rt: HostRuntime) {
    let alloc = rt.alloc();
    for (period, behind) in &TEXTS {
        let mut text = Vec::new(alloc);
        for _ in 0..PERIODS {
            text.extend_from_slice(period.as_bytes())
                .expect(&rt, "memory");
        }
        text.extend_from_slice(behind.as_bytes())
            .expect(&rt, "memory");
        for from in [0, 1, 2, 3, 5] {
            let (_, rest) = text.split_at(from.min(text.len()));
            let least = rest.len().min(430).saturating_sub(32);
            check_parted(&rt, rest, least);
        }
    }
}
