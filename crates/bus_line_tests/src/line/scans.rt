//! Long lists of random traffic, scanned as octets from every bit of an octet on and cut anywhere, beside the same
//! bit by bit; and worked lists, scanned to their reports.

use super::bits_of;
use super::random_lists::{state_of, traffic};
use super::text::push_report;
use crate::expect::{holds, same};
use bus_bits::bits_octet;
use bus_fcs::OctetCheck;
use bus_line::{Consumed, LineDecoder, PlaceLimit};
use std::alloc::Global;
use std::process::Abort;

/// The longest frames in octets.
const LONGEST: [usize; 6] = [3, 4, 5, 9, 40, 256];

/// How many bits a call gets at most.
const SIZES: [usize; 12] = [1, 7, 8, 9, 48, 55, 56, 63, 64, 65, 120, 100_000];

type Decoder = LineDecoder<OctetCheck>;

/// Scans bits of these octets.
fn scan(
    rt: &impl Abort,
    decoder: &mut Decoder,
    octets: &[u8],
    at: usize,
    end: usize,
) -> Result<Consumed, PlaceLimit> {
    assert!(rt;
        at < end && end / 8 <= octets.len() && octets.len() < 10_000,
        "bits of octets"
    );
    assert!(rt; end <= 8 * octets.len(), "bits of octets");
    decoder.scan(octets, at, end)
}

/// The octets of these bits, the first lowest; the last bits that fill none are left out.
fn octets_of(rt: &impl Abort, alloc: Global, bits: &[bool]) -> Vec<u8> {
    let mut octets = Vec::new(alloc);
    let (whole, _) = bits.as_chunks::<8>();
    for eight in whole {
        octets.push(bits_octet(eight)).expect(rt, "memory");
    }
    octets
}

/// Scans up to `size` of the bits of these octets from bit `at` on, and takes as many one by one. Both answer the same
/// and say the same of themselves. Returns how many it took.
fn scan_some(
    rt: &impl Abort,
    scanned: &mut Decoder,
    taken: &mut Decoder,
    octets: &[u8],
    bits: &[bool],
    at: usize,
    size: usize,
) -> usize {
    let end = at.wrapping_add(size).min(bits.len());
    assert!(rt; at < end, "bits");
    let answer = scan(rt, scanned, octets, at, end).expect(rt, "a place");
    let mut last = None;
    for bit in bits[at..end].iter().take(answer.count) {
        holds(rt, last.is_none(), "a report before the last bit");
        last = taken.advance(*bit).expect(rt, "a place");
    }
    holds(rt, answer.event == last, "another report");
    holds(rt, scanned.octets() == taken.octets(), "other octets");
    holds(rt, scanned.place() == taken.place(), "another place");
    holds(
        rt,
        state_of(scanned) == state_of(taken),
        "another ledger, buffer or open piece",
    );
    answer.count
}

/// Scans all of them, up to `size` at a time, and counts the calls that took more than one bit.
fn scan_all(
    rt: &impl Abort,
    octets: &[u8],
    bits: &[bool],
    from: usize,
    longest: usize,
    size: usize,
) -> usize {
    let mut scanned = Decoder::new(longest, 3).expect(rt, "a decoder");
    let mut taken = Decoder::new(longest, 3).expect(rt, "a decoder");
    let mut at = from;
    let mut many: usize = 0;
    for _ in bits {
        if at >= bits.len() {
            break;
        }
        let count = scan_some(rt, &mut scanned, &mut taken, octets, bits, at, size);
        if count > 1 {
            many = many.wrapping_add(1);
        }
        at = at.wrapping_add(count);
    }
    holds(rt, at == bits.len(), "all bits");
    many
}

#[test]
fn scans(rt: HostRuntime) {
    let alloc = rt.alloc();
    let mut many: usize = 0;
    for (seed, longest) in LONGEST.iter().enumerate() {
        let all = traffic(&rt, alloc, seed as u64);
        let octets = octets_of(&rt, alloc, &all);
        let bits = &all[..all.len() / 8 * 8];
        for (from, size) in SIZES.iter().enumerate() {
            many = many.wrapping_add(scan_all(&rt, &octets, bits, from, *longest, *size));
        }
    }
    holds(&rt, many > 5000, "calls that take many bits");
}

/// How many of their bits a first call gets, bits and how often they come where it is more than once, and their reports
/// where the longest frame has forty octets.
///
/// First come an idle, a 0, and ones again; then flags, and where the eighth would be an abort, which ends no piece.
/// Then an open piece, and after the cut eight flags. Then the second flag ends 56 bits after the first, or 104; or it
/// stands across the place 112, or across 120. Last comes an inserted 0 six bits before the place 56, or 64, and as
/// many data bits as whole octets have.
const SCANNED: &str = "\
    120: 1*15 0 1*104 => 0 15 idle, 16 31 idle\n\
    136: 01111110*7 11111110 0*64 01111110 =>\n\
    24: 01111110 0*16 01111110*8 0*8 => 8 24 damaged short\n\
    144: 01111110 0*48 01111110 0*72 01111110 => 8 56 damaged fcs, 64 136 damaged fcs\n\
    192: 01111110 0*96 01111110 0*72 01111110 => 8 104 damaged fcs, 112 184 damaged fcs\n\
    248: 01111110 0*100 01111110 0*120 01111110 0*4 => 8 108 damaged unaligned, 116 236 damaged fcs\n\
    256: 01111110 0*108 01111110 0*120 01111110 0*4 => 8 116 damaged unaligned, 124 244 damaged fcs\n\
    192: 01111110 0*37 111110 0*62 01111110 0*71 => 8 113 damaged fcs\n\
    200: 01111110 0*45 111110 0*62 01111110 0*71 => 8 121 damaged fcs";

fn number_of(rt: &impl Abort, word: &str) -> usize {
    word.trim().parse::<usize>().expect(rt, "a number")
}

/// The bits of these words.
fn bits_of_words(rt: &impl Abort, alloc: Global, words: &str) -> Vec<bool> {
    let mut bits = Vec::new(alloc);
    for word in words.split_whitespace() {
        let (some, count) = word.split_once('*').unwrap_or((word, "1"));
        let some = bits_of(rt, alloc, some);
        for _ in 0..number_of(rt, count) {
            bits.extend_from_slice(&some).expect(rt, "memory");
        }
    }
    bits
}

/// Scans the bits from one on and before another to their reports.
fn push_scanned(
    rt: &impl Abort,
    text: &mut String,
    decoder: &mut Decoder,
    octets: &[u8],
    from: usize,
    end: usize,
) {
    let mut at = from;
    for _ in from..end {
        if at >= end {
            break;
        }
        let answer = scan(rt, decoder, octets, at, end).expect(rt, "a place");
        at = at.wrapping_add(answer.count);
        if let Some(event) = answer.event {
            if !text.is_empty() {
                text.push_str(", ").expect(rt, "memory");
            }
            push_report(rt, text, &event.with_octets(decoder.octets()));
        }
    }
    same(rt, at, end, "bits scanned");
}

fn check_reports(rt: &impl Abort, alloc: Global, line: &str) {
    let (first, rest) = line.split_once(':').expect(rt, "a count");
    let (words, want) = rest.split_once("=>").expect(rt, "words");
    let first = number_of(rt, first);
    let bits = bits_of_words(rt, alloc, words);
    let octets = octets_of(rt, alloc, &bits);
    let mut decoder = Decoder::new(40, 0).expect(rt, "a decoder");
    let mut text = String::new(alloc);
    push_scanned(rt, &mut text, &mut decoder, &octets, 0, first);
    push_scanned(rt, &mut text, &mut decoder, &octets, first, bits.len());
    same(rt, text.as_str(), want.trim(), line);
}

#[test]
fn scanned_reports(rt: HostRuntime) {
    for line in SCANNED.lines() {
        check_reports(&rt, rt.alloc(), line);
    }
}

/// It stops in front of a bit whose place would be 2^60, and refuses where that is the first.
#[test]
fn at_the_place_limit(rt: HostRuntime) {
    let far: u64 = 1 << 60;
    for room in [0u64, 1, 7, 8, 47, 48, 63, 64, 65, 127, 128, 129] {
        let mut decoder = Decoder::new(3, far.wrapping_sub(room)).expect(&rt, "a decoder");
        let answer = scan(&rt, &mut decoder, &[0; 16], 0, 128);
        let want = match room {
            0 => Err(PlaceLimit),
            _ => Ok(Consumed {
                count: room.min(128) as usize,
                event: None,
            }),
        };
        let case = format_args!("{room} places");
        same(&rt, answer, want, &case);
        let taken = room.min(128);
        same(
            &rt,
            decoder.place(),
            far.wrapping_sub(room).wrapping_add(taken),
            &case,
        );
    }
}
