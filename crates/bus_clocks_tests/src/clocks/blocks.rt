//! Samples by 64, beside the same by one.

use crate::expect::{holds, same};
use bus_rows::next_number;
use bus_tap::{ByLanes, ByWords, Edges, Gather, Tap, Wire, Wires};
use std::alloc::Global;
use std::process::Abort;

/// How many samples a recording has.
const SAMPLES: usize = 200;

/// Clock and data of the first line and of the second: the number of each wire, behind `!` where it is inverted, or `-`
/// where there is none. The third has one clock for both lines, and a bit that an octet does not have.
const WIRES: &str = "\
    0 1 2 3\n\
    !7 !2 !0 5\n\
    1 4 1 !8\n\
    6 !6 - -";

/// A wire of a row.
fn wire(rt: &impl Abort, word: Option<&str>) -> Option<Wire> {
    let word = word.expect(rt, "a wire");
    if word == "-" {
        return None;
    }
    let number = word.trim_start_matches('!');
    Some(Wire {
        number: number.parse::<u8>().expect(rt, "a number"),
        is_inverted: number.len() < word.len(),
    })
}

/// The wires of a row.
fn wires_of(rt: &impl Abort, row: &str) -> Wires {
    let mut words = row.split_whitespace();
    Wires {
        first_clock: wire(rt, words.next()),
        first_data: wire(rt, words.next()),
        second_clock: wire(rt, words.next()),
        second_data: wire(rt, words.next()),
    }
}

/// For at most how many samples the wires stand: with 2 there are glitches most of the time.
const STAND: [usize; 3] = [2, 6, 50];

/// Octets of which one bit changes after at most so many.
fn recording(rt: &impl Abort, alloc: Global, stand: usize) -> Vec<u8> {
    let mut samples = Vec::new(alloc);
    let mut state = 7;
    let mut levels: u8 = 0;
    let mut left: usize = 0;
    for _ in 0..SAMPLES {
        if left == 0 {
            levels ^= 1 << (next_number(&mut state) % 8);
            left = 1 + next_number(&mut state) % stand.max(1);
        }
        left = left.saturating_sub(1);
        samples.push(levels).expect(rt, "memory");
    }
    samples
}

/// A tap, and the bits that it found: `0` and `1` on the first line, `o` and `i` on the second.
#[derive(Drop)]
struct Taken {
    tap: Tap,
    text: String,
}

impl Taken {
    fn new(alloc: Global, hold: u32) -> Self {
        Taken {
            tap: Tap::new(hold, 2),
            text: String::new(alloc),
        }
    }

    fn mark(&mut self, rt: &impl Abort, edges: Edges) {
        if let Some(bit) = edges.first {
            self.text
                .push_str(if bit { "1" } else { "0" })
                .expect(rt, "text");
        }
        if let Some(bit) = edges.second {
            self.text
                .push_str(if bit { "i" } else { "o" })
                .expect(rt, "text");
        }
    }

    /// Takes samples by one.
    fn take(&mut self, rt: &impl Abort, wires: &Wires, samples: &[u8]) {
        for sample in samples {
            let levels = wires.channels(u64::from(*sample));
            let taken = self.tap.consume(levels, 1).expect(rt, "few samples");
            self.mark(rt, taken.edges);
        }
    }

    /// Takes samples by 64, and those behind by one.
    fn take_blocks<G: Gather>(&mut self, rt: &impl Abort, wires: &Wires, samples: &[u8]) {
        let mut rest = samples;
        for _ in 0..SAMPLES {
            let Some(block) = rest.first_chunk::<64>() else {
                break;
            };
            assert!(rt; self.tap.takes_blocks());
            let edges = self.tap.consume_block(&wires.block::<G>(block));
            for sample in 0..64u32 {
                self.mark(rt, edges.at(sample));
            }
            rest = &rest[64..];
        }
        self.take(rt, wires, rest);
    }
}

/// However a recording is cut, blocks bring the bits and the facts of its samples.
fn check_cuts<G: Gather>(rt: &impl Abort, alloc: Global, wires: &Wires, samples: &[u8], hold: u32) {
    let mut want = Taken::new(alloc, hold);
    want.take(rt, wires, samples);
    for cut in 1..=64usize {
        let case = format_args!("hold {hold}, {} samples cut at {cut}", samples.len());
        let mut taken = Taken::new(alloc, hold);
        let (front, rest) = samples.split_at_checked(cut).expect(rt, "samples");
        taken.take(rt, wires, front);
        taken.take_blocks::<G>(rt, wires, rest);
        same(rt, taken.text.as_str(), want.text.as_str(), &case);
        same(rt, taken.tap.facts(), want.tap.facts(), &case);
    }
}

#[test]
fn blocks_of_samples(rt: HostRuntime) {
    let alloc = rt.alloc();
    for stand in STAND {
        let samples = recording(&rt, alloc, stand);
        for row in WIRES.lines() {
            let wires = wires_of(&rt, row);
            for hold in 0..2u32 {
                check_cuts::<ByLanes>(&rt, alloc, &wires, &samples, hold);
                check_cuts::<ByWords>(&rt, alloc, &wires, &samples, hold);
            }
        }
    }
}

/// Blocks are for taps with a sample, whose levels count after one sample more or at once.
#[test]
fn taps_that_take_blocks(rt: HostRuntime) {
    for hold in 0..4u32 {
        let mut tap = Tap::new(hold, 2);
        holds(&rt, !tap.takes_blocks(), "no sample");
        tap.consume(0, 1).expect(&rt, "few samples");
        same(&rt, tap.takes_blocks(), hold < 2, "a sample");
    }
}

/// A run is taken whole where it brings no bit, and else up to the sample that brings one.
#[test]
fn runs_of_samples(rt: HostRuntime) {
    for hold in 0..4u32 {
        let mut tap = Tap::new(hold, 2);
        let low = tap.consume(0, 9).expect(&rt, "few samples");
        same(&rt, low.samples, 9, "no bit");
        let high = tap.consume(1, 9).expect(&rt, "few samples");
        same(&rt, high.samples, u64::from(hold) + 1, "a clock that rises");
        holds(&rt, !high.edges.is_none(), "its bit");
    }
}
