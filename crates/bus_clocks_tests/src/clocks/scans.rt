//! Long lists of random traffic on two lines with a clock each, scanned by calls of every kind of size.

use super::{CALLS, bits_of, push_bits, pushed};
use crate::expect::{holds, same};
use bus_clocks::{Arrival, TwoClockAnalyser};
use bus_dictionary::Dictionary;
use bus_fcs::OctetCheck;
use bus_rows::{next_number, octets_of};
use bus_seen::Writing;
use bus_watch::Line;
use std::alloc::Global;
use std::process::Abort;

/// How many arrivals a list has at most.
const ARRIVALS: usize = 3000;

/// What a line's bits are made of.
const PARTS: &str = "\
    flag call flag\n\
    flag reply flag flag\n\
    ones-57 flag reply flag\n\
    flag short short flag\n\
    flag 0110100101110100110010110 flag\n\
    flag call 0 flag 111111111111111111\n\
    flag flag flag flag call flag\n\
    0110100101110100110010110";

/// How many parts these are.
const PART_COUNT: usize = 8;

/// The bits of a part.
fn part_of(rt: &impl Abort, alloc: Global, number: usize) -> Vec<bool> {
    let part = PARTS.lines().nth(number % PART_COUNT).expect(rt, "a part");
    bits_of(rt, alloc, part)
}

/// Parts and beginnings of parts of either line, as their clocks may bring them; the same seed gives the same list.
pub(super) fn traffic(rt: &impl Abort, alloc: Global, seed: u64) -> Vec<Arrival> {
    let mut arrivals = Vec::new(alloc);
    let mut state = seed;
    for _ in 0..ARRIVALS {
        if arrivals.len() >= ARRIVALS {
            break;
        }
        let first = part_of(rt, alloc, next_number(&mut state));
        let second = part_of(rt, alloc, next_number(&mut state));
        let mut first: &[bool] = &first;
        let mut second: &[bool] = &second;
        let (one, other) = (next_number(&mut state) % 4, next_number(&mut state) % 4);
        for _ in 0..next_number(&mut state) % 100 {
            first = push_bits(rt, &mut arrivals, Line::First, first, one);
            second = push_bits(rt, &mut arrivals, Line::Second, second, other);
        }
    }
    arrivals
}

fn analyser(rt: &impl Abort, alloc: Global) -> TwoClockAnalyser<OctetCheck> {
    let dictionary = Dictionary::read(alloc, CALLS).expect(rt, "a dictionary");
    TwoClockAnalyser::new(alloc, dictionary, 5, 3).expect(rt, "an analyser")
}

/// Arrivals as `scan` takes them: their bits, and which of these are of the second line, the first of an octet lowest.
pub(super) fn in_octets(
    rt: &impl Abort,
    alloc: Global,
    arrivals: &[Arrival],
) -> (Vec<u8>, Vec<u8>) {
    let mut bits = Vec::new(alloc);
    let mut seconds = Vec::new(alloc);
    for arrival in arrivals {
        bits.push(arrival.1).expect(rt, "memory");
        seconds.push(arrival.0 == Line::Second).expect(rt, "memory");
    }
    let bits = octets_of(alloc, &bits).expect(rt, "memory");
    (bits, octets_of(alloc, &seconds).expect(rt, "memory"))
}

/// Scans these arrivals with one call, and what is seen at them goes after what the text has; how many are taken.
fn scan_some(
    rt: &impl Abort,
    alloc: Global,
    analyser: &mut TwoClockAnalyser<OctetCheck>,
    some: &[Arrival],
    text: &mut String,
) -> usize {
    let (bits, lines) = in_octets(rt, alloc, some);
    let held = bits.len().min(lines.len()).saturating_mul(8);
    analyser.scan(&bits, &lines, 0, some.len().min(held), &mut Writing, text)
}

/// Both say the same of themselves.
fn check_alike(
    rt: &impl Abort,
    scanned: &TwoClockAnalyser<OctetCheck>,
    one_by_one: &TwoClockAnalyser<OctetCheck>,
    size: usize,
) {
    let case = format_args!("{size} arrivals are scanned with a call");
    same(rt, scanned.usage(), one_by_one.usage(), &case);
    same(rt, scanned.ending(), one_by_one.ending(), &case);
}

/// Calls of `scan` of `size` arrivals see what single arrivals that are pushed do, and leave the same open.
fn check_scanned(rt: &impl Abort, alloc: Global, arrivals: &[Arrival], size: usize) -> String {
    let mut one_by_one = analyser(rt, alloc);
    let mut scanned = analyser(rt, alloc);
    let mut all = String::new(alloc);
    for some in arrivals.chunks(size.max(1)) {
        let want = pushed(rt, alloc, &mut one_by_one, some);
        let mut text = String::new(alloc);
        let taken = scan_some(rt, alloc, &mut scanned, some, &mut text);
        same(rt, taken, some.len(), size);
        same(rt, text.as_str(), want.as_str(), size);
        check_alike(rt, &scanned, &one_by_one, size);
        all.push_str(&want).expect(rt, "memory");
    }
    all
}

/// Calls of every kind of size see what single arrivals show.
#[test]
fn scans_of_every_size(rt: HostRuntime) {
    let alloc = rt.alloc();
    let mut text = String::new(alloc);
    for seed in 1..=6u64 {
        let arrivals = traffic(&rt, alloc, seed);
        for size in [1, 7, 61, 511, 512, 513, 1025, ARRIVALS] {
            let seen = check_scanned(&rt, alloc, &arrivals, size);
            text.push_str(&seen).expect(&rt, "memory");
        }
    }
    for word in ["missing", "stray", "abort", "idle", "answered"] {
        holds(&rt, text.contains(word), word);
    }
}

/// How the lines take turns: a period of arrivals, each of the line of this number.
const TURNS: &str = "1\n2\n12\n21\n12121";

/// The bits of arrivals, of lines that take turns. The last turn is one short, so that the lines change places.
fn in_turns(rt: &impl Abort, alloc: Global, all: &[Arrival], turns: &str) -> Vec<Arrival> {
    let mut arrivals = Vec::new(alloc);
    for some in all.chunks(701) {
        for (arrival, number) in some.iter().zip(turns.bytes().cycle()) {
            let line = if number == b'2' {
                Line::Second
            } else {
                Line::First
            };
            arrivals.push((line, arrival.1)).expect(rt, "memory");
        }
    }
    arrivals
}

/// Calls of every kind of size see what single arrivals show, however the lines take turns.
#[test]
fn scans_of_turns(rt: HostRuntime) {
    let alloc = rt.alloc();
    let all = traffic(&rt, alloc, 7);
    for turns in TURNS.lines() {
        let arrivals = in_turns(&rt, alloc, &all, turns);
        for size in [1, 63, 64, 65, 511, 512, 513, ARRIVALS] {
            let seen = check_scanned(&rt, alloc, &arrivals, size);
            holds(&rt, !seen.is_empty(), "some are seen");
        }
    }
}

/// No more arrivals are taken than there are places.
#[test]
fn scans_to_the_last_place(rt: HostRuntime) {
    let alloc = rt.alloc();
    let dictionary = Dictionary::read(alloc, CALLS).expect(&rt, "a dictionary");
    let origin = (1 << 60) - 100;
    let mut analyser = TwoClockAnalyser::<OctetCheck>::new(alloc, dictionary, 5, origin).expect(
        &rt,
        "an analyser",
    );
    let mut text = String::new(alloc);
    for want in [64, 36, 0] {
        let taken = analyser.scan(&[0; 8], &[0xaa; 8], 0, 64, &mut Writing, &mut text);
        same(&rt, taken, want, "places are left");
    }
}
