//! Bits from samples of four channels.

use crate::expect::same;
use bus_tap::{Sampler, StopRule};
use bus_watch::Line;
use std::alloc::Global;
use std::process::Abort;

/// In how many samples more a level has to stand, samples as hexadecimal digits, and the bits that arrive: `0` and `1`
/// on the first line, `o` and `i` on the second.
///
/// First come bits of either line alone, data that changes with the edge, and both lines in one sample. Then the second
/// clock rises a sample before the first, samples change nothing, a clock falls, and there is no sample. Then come
/// glitches on the clock and on the data, levels that stand for two samples, and data that changes with the edge. Two
/// samples are too few where three are enough, and a sample between begins them anew. Last, data has a glitch as its
/// clock rises.
const SAMPLE_ROWS: &str = "\
    0: 01 => 0\n\
    0: 23 => 1\n\
    0: 04 => o\n\
    0: 8c => i\n\
    0: 03 => 0\n\
    0: 21 => 1\n\
    0: 27 => 1o\n\
    0: 8d => 0i\n\
    0: aef => i1\n\
    0: 1101 => 0\n\
    0: 3210 => 1\n\
    0:  =>\n\
    0: 0010011 => 00\n\
    1: 0010011 => 0\n\
    0: 2203322 => 0\n\
    1: 2203322 => 1\n\
    1: 0033220011 => 00\n\
    1: 22330033 => 10\n\
    2: 00011000111 => 0\n\
    2: 01011 =>\n\
    1: aaa4eeff => i1";

/// Adds a bit, if there is one.
fn push_mark(rt: &impl Abort, text: &mut String, bit: Option<bool>, one: &str, zero: &str) {
    match bit {
        Some(true) => text.push_str(one).expect(rt, "text"),
        Some(false) => text.push_str(zero).expect(rt, "text"),
        None => {}
    }
}

/// The number of a hexadecimal digit.
fn sample_of(digit: u8) -> u8 {
    match digit {
        b'0'..=b'9' => digit - b'0',
        b'a'..=b'f' => digit - b'a' + 10,
        _ => 0,
    }
}

/// The bits that samples bring. Those that the sampler tells are no bits where there is none.
fn sampled(rt: &impl Abort, alloc: Global, hold: u32, samples: &str) -> String {
    let mut text = String::new(alloc);
    let mut samples = samples.bytes();
    let Some(first) = samples.next() else {
        return text;
    };
    let mut sampler = Sampler::new(hold, sample_of(first));
    for digit in samples {
        let edges = sampler.sample(sample_of(digit));
        let before = text.len();
        push_mark(rt, &mut text, edges.first, "1", "0");
        push_mark(rt, &mut text, edges.second, "i", "o");
        same(rt, edges.is_none(), text.len() == before, "no bit");
    }
    text
}

fn check_samples(rt: &impl Abort, alloc: Global, line: &str) {
    let (hold, rest) = line.split_once(':').expect(rt, "a hold");
    let (samples, want) = rest.split_once("=>").expect(rt, "samples");
    let hold = hold.parse::<u32>().expect(rt, "a number");
    let text = sampled(rt, alloc, hold, samples.trim());
    same(rt, text.as_str(), want.trim(), line);
}

#[test]
fn rows_of_samples(rt: HostRuntime) {
    for line in SAMPLE_ROWS.lines() {
        check_samples(&rt, rt.alloc(), line);
    }
}

/// The longest distance of two bits of a line without a stop, the line and the sample of each bit, and a `+` for each
/// that comes behind a stop. First bits come behind none, however late.
const STOP_ROWS: &str = "\
    0: 1@0 1@900 => --\n\
    3: 1@900 2@905 => --\n\
    3: 1@0 1@3 1@7 1@10 => --+-\n\
    3: 1@0 2@1 1@3 2@5 2@8 => ---+-\n\
    3: 1@5 2@5 1@9 2@9 => --++\n\
    18446744073709551615: 2@0 2@1152921504606846975 => --";

fn check_stops(rt: &impl Abort, line: &str) {
    let (most, rest) = line.split_once(':').expect(rt, "a distance");
    let (bits, want) = rest.split_once("=>").expect(rt, "bits");
    let mut rule = StopRule::new(most.parse::<u64>().expect(rt, "a number"));
    let mut wanted = want.trim().bytes();
    for bit in bits.trim().split(' ') {
        let (number, sample) = bit.split_once('@').expect(rt, "a bit");
        let of = if number == "1" {
            Line::First
        } else {
            Line::Second
        };
        let stops = rule.push(of, sample.parse::<u64>().expect(rt, "a sample"));
        same(
            rt,
            Some(if stops { b'+' } else { b'-' }),
            wanted.next(),
            line,
        );
    }
    same(rt, wanted.next(), None, line);
}

#[test]
fn stops(rt: HostRuntime) {
    for line in STOP_ROWS.lines() {
        check_stops(&rt, line);
    }
}
