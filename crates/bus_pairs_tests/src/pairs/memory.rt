//! An analyser of two lines asks for memory once, for its history. `tests/memory` runs these tests with each request
//! refused in turn, and counts the requests.

use crate::expect::{holds, same};
use bus_dictionary::Dictionary;
use bus_fcs::{BitCheck, Check, OctetCheck};
use bus_line::Span;
use bus_rows::{DAMAGED, ROUND_BITS, ROUNDS, round_octets, round_of, round_pairs};
use bus_seen::{Counting, calls_if_memory};
use bus_watch::{Counts, Line, NewFault, PairAnalyser, PairEnding, PairSink, Seen, SinkRefused};
use std::alloc::Global;
use std::process::Abort;

/// A sink that counts what it takes, in no memory.
#[derive(Drop)]
struct Counter {
    first: u64,
    second: u64,
    refusals: u64,
}

impl PairSink for Counter {
    ghost use Rattle.std.specs.Prelude.{None};

    ghost sink = { record { taken = λ s. None; room = λ s. None; refusals = λ s. s.refusals } };

    fn refused(&self) -> u64 {
        self.refusals
    }

    fn take(&mut self, line: Line, _seen: &Seen<'_>) -> Result<(), SinkRefused> {
        match line {
            Line::First => self.first = self.first.saturating_add(1),
            Line::Second => self.second = self.second.saturating_add(1),
        }
        Ok(())
    }
}

impl Counter {
    fn new() -> Self {
        Counter {
            first: 0,
            second: 0,
            refusals: 0,
        }
    }
}

/// Each call that takes pairs.
fn take_pairs<C: Check>(rt: &impl Abort, analyser: &mut PairAnalyser<C>) {
    let mut sink = Counter::new();
    for bit in DAMAGED {
        let _ = analyser.push(bit, bit).expect(rt, "a place");
    }
    for bit in DAMAGED {
        assert!(rt; sink.refused() < u64::MAX - 1);
        analyser.feed(&[(bit, bit)], &mut sink).expect(rt, "room");
    }
    same(rt, sink.first, 1, "the reports of the first line");
    same(rt, sink.second, 1, "the reports of the second line");
    let mut observed = 0;
    let taken = analyser.scan(&[0, 0], &[0, 0], 9, &mut Counting, &mut observed);
    same(rt, (taken, observed), (9, 0), "the pairs of zeros scanned");
}

/// Each call that asks what stands after them.
fn ask<C: Check>(rt: &impl Abort, analyser: &PairAnalyser<C>) {
    same(rt, analyser.history_len(), 0, "how many frames are kept");
    holds(rt, analyser.history(0).is_none(), "no frame is kept");
    same(
        rt,
        analyser.tally(16).spoilt,
        0,
        "the spoilt answers of station 16",
    );
    let begun = Some(Span {
        first: 48,
        past: 57,
    });
    let want = PairEnding {
        first: begun,
        second: begun,
        pending: None,
    };
    same(rt, analyser.ending(), want, "the pieces begun");
    let usage = analyser.usage();
    let first = analyser.buffered(Line::First);
    same(
        rt,
        usage.first_buffered,
        first,
        "the octets of the first line",
    );
    let second = analyser.buffered(Line::Second);
    same(
        rt,
        usage.second_buffered,
        second,
        "the octets of the second line",
    );
    same(rt, usage.spent, analyser.spent(), "the steps in the usage");
    same(rt, analyser.spent().shifted, 114, "the bits of both lines");
}

fn check_memory<C: Check>(rt: &impl Abort, alloc: Global, dictionary: Dictionary, depth: usize) {
    match PairAnalyser::<C>::new(alloc, dictionary, depth, 0) {
        Ok(mut analyser) => {
            take_pairs(rt, &mut analyser);
            ask(rt, &analyser);
        }
        Err(fault) => same(rt, fault, NewFault::Memory, "why there is no analyser"),
    }
}

/// An empty dictionary takes no memory, and no call after `new` asks for any.
#[test]
fn one_request(rt: HostRuntime) {
    let alloc = rt.alloc();
    for depth in [1, 2, 1024] {
        check_memory::<BitCheck>(&rt, alloc, Dictionary::empty(alloc), depth);
        check_memory::<OctetCheck>(&rt, alloc, Dictionary::empty(alloc), depth);
    }
}

/// Where a request of the dictionary is refused, there is none; where that of the analyser is, no analyser.
#[test]
fn refused_memory(rt: HostRuntime) {
    let alloc = rt.alloc();
    if let Some(dictionary) = calls_if_memory(alloc).expect(&rt, "a dictionary") {
        check_memory::<OctetCheck>(&rt, alloc, dictionary, 16);
    }
}

/// An analyser of the example, unless memory is refused.
fn analyser_of(rt: &impl Abort, alloc: Global) -> Option<PairAnalyser<OctetCheck>> {
    let dictionary = calls_if_memory(alloc).expect(rt, "a dictionary")?;
    match PairAnalyser::new(alloc, dictionary, 1, 0) {
        Ok(analyser) => Some(analyser),
        Err(NewFault::Memory) => None,
        Err(_) => panic!(rt; "no analyser"),
    }
}

/// The same. Where memory is refused to the first attempt, the second makes it.
fn analyser_at_last(rt: &impl Abort, alloc: Global) -> PairAnalyser<OctetCheck> {
    match analyser_of(rt, alloc) {
        Some(analyser) => analyser,
        None => analyser_of(rt, alloc).expect(rt, "memory"),
    }
}

/// A call that is answered on the second line, one without an answer, one with a spoilt answer, an overlong piece, an
/// abort, idle lines, and damage on the second line.
const FIRST: &str =
    "flag call flag ones-57 flag call flag call flag short flag short short flag 0000";

const SECOND: &str = "ones-57 flag reply flag short flag";

/// The bits of both lines in a round, and their pairs.
#[derive(Drop)]
struct Round {
    first: [bool; ROUND_BITS],
    second: [bool; ROUND_BITS],
    pairs: [(bool, bool); ROUND_BITS],
}

/// The round of these words.
fn round_of_two(rt: &impl Abort, first: &str, second: &str) -> Round {
    let first = round_of(first).expect(rt, "a round");
    let second = round_of(second).expect(rt, "a round");
    let pairs = round_pairs(&first, &second);
    Round {
        first,
        second,
        pairs,
    }
}

fn push_round(rt: &impl Abort, analyser: &mut PairAnalyser<OctetCheck>, round: &Round) {
    for pair in &round.pairs {
        let _ = analyser.push(pair.0, pair.1).expect(rt, "a place");
    }
}

/// Each call that takes many pairs, over as many rounds; each is to see all reports of each.
fn take_rounds(rt: &impl Abort, analyser: &mut PairAnalyser<OctetCheck>) {
    let round = round_of_two(rt, FIRST, SECOND);
    let first = round_octets(&round.first);
    let second = round_octets(&round.second);
    let mut sink = Counter::new();
    let mut observed = 0;
    for _ in 0..ROUNDS {
        push_round(rt, analyser, &round);
        assert!(rt; sink.refused() == 0);
        analyser.feed(&round.pairs, &mut sink).expect(rt, "room");
        let count = analyser.scan(&first, &second, ROUND_BITS, &mut Counting, &mut observed);
        same(rt, count, ROUND_BITS, "how many pairs are scanned");
    }
    let told = sink.first.saturating_add(sink.second);
    same(
        rt,
        (told, observed),
        (11 * ROUNDS, 11 * ROUNDS),
        "the reports told and observed",
    );
    let want = Counts {
        answered: 3 * ROUNDS,
        missing: 3 * ROUNDS,
        spoilt: 3 * ROUNDS,
        late: 0,
    };
    same(rt, analyser.tally(16), want, "the tally of station 16");
}

/// The requests of the dictionary and of an analyser.
#[test]
fn made(rt: HostRuntime) {
    let analyser = analyser_at_last(&rt, rt.alloc());
    same(&rt, analyser.history_len(), 0, "how many frames are kept");
}

/// They are as many where each call that takes pairs takes 10^5 of them.
#[test]
fn many_pairs(rt: HostRuntime) {
    let mut analyser = analyser_at_last(&rt, rt.alloc());
    take_rounds(&rt, &mut analyser);
}
