//! An analyser asks for memory once, for its history. `tests/memory` runs these tests with each request refused in
//! turn, and counts the requests.

use super::limits::analyser_of;
use crate::expect::{holds, same};
use bus_dictionary::Dictionary;
use bus_fcs::{BitCheck, Check, OctetCheck};
use bus_line::Span;
use bus_rows::{CALLS, DAMAGED, ROUND_BITS, ROUND_OCTETS, ROUNDS, round_octets, round_of};
use bus_seen::{Counting, calls_if_memory};
use bus_watch::{Analyser, Counts, NewFault, ReportSink, Seen, SinkRefused};
use std::alloc::Global;
use std::process::Abort;

/// A sink that counts what it takes, in no memory.
#[derive(Drop)]
struct Counter {
    count: u64,
    refusals: u64,
}

impl Counter {
    fn new() -> Self {
        Counter {
            count: 0,
            refusals: 0,
        }
    }
}

impl ReportSink for Counter {
    ghost use Rattle.std.specs.Prelude.{None};

    ghost sink = { record { taken = λ s. None; room = λ s. None; refusals = λ s. s.refusals } };

    fn refused(&self) -> u64 {
        self.refusals
    }

    fn take(&mut self, _seen: &Seen<'_>) -> Result<(), SinkRefused> {
        self.count = self.count.saturating_add(1);
        Ok(())
    }
}

/// Each call that takes bits.
fn take_bits<C: Check>(rt: &impl Abort, analyser: &mut Analyser<C>) {
    let mut sink = Counter::new();
    for bit in DAMAGED {
        let _ = analyser.push(bit).expect(rt, "a place");
    }
    assert!(rt; sink.refused() == 0);
    analyser.feed(&DAMAGED, &mut sink).expect(rt, "room");
    assert!(rt; sink.refused() == 0);
    analyser
        .feed_all(&[&DAMAGED, &[], &DAMAGED], &mut sink)
        .expect(rt, "room");
    same(rt, sink.count, 3, "the reports of damage");
    let mut count = 0;
    let taken = analyser.scan(&[0, 0], 0, 9, &mut Counting, &mut count);
    same(rt, (taken, count), (9, 0), "the zeros scanned");
}

/// Each call that asks what stands after them.
fn ask<C: Check>(rt: &impl Abort, analyser: &Analyser<C>) {
    same(rt, analyser.history_len(), 0, "how many frames are kept");
    holds(rt, analyser.history(0).is_none(), "no frame is kept");
    same(
        rt,
        analyser.tally(16).spoilt,
        0,
        "the spoilt answers of station 16",
    );
    let begun = Span {
        first: 96,
        past: 105,
    };
    same(rt, analyser.ending().begun, Some(begun), "the piece begun");
    same(
        rt,
        analyser.dictionary().longest(),
        256,
        "the longest frame without a dictionary",
    );
    same(
        rt,
        analyser.usage().spent,
        analyser.spent(),
        "the steps in the usage",
    );
    same(
        rt,
        analyser.usage().buffered,
        analyser.buffered(),
        "the octets in the usage",
    );
}

fn check_memory<C: Check>(rt: &impl Abort, alloc: Global) {
    match Analyser::<C>::new(alloc, Dictionary::empty(alloc), 1024, 0) {
        Ok(mut analyser) => {
            take_bits(rt, &mut analyser);
            ask(rt, &analyser);
        }
        Err(NewFault::Memory) => {}
        Err(_) => panic!(rt; "no analyser"),
    }
}

/// An empty dictionary takes no memory, and no call after `new` asks for any.
#[test]
fn one_request(rt: HostRuntime) {
    check_memory::<BitCheck>(&rt, rt.alloc());
    check_memory::<OctetCheck>(&rt, rt.alloc());
}

/// An analyser of the example. Where memory is refused to the first attempt, the second makes it.
fn analyser_at_last(rt: &impl Abort, alloc: Global) -> Analyser<OctetCheck> {
    match analyser_of(rt, alloc) {
        Some(analyser) => analyser,
        None => analyser_of(rt, alloc).expect(rt, "memory"),
    }
}

/// A call that is answered, one without an answer, one with a spoilt answer, an overlong piece, an abort and an idle
/// line.
const ROUND: &str =
    "flag call flag reply flag call flag call flag short flag short short flag 0000";

fn push_round(rt: &impl Abort, analyser: &mut Analyser<OctetCheck>, bits: &[bool; ROUND_BITS]) {
    for bit in bits {
        let _ = analyser.push(*bit).expect(rt, "a place");
    }
}

fn scan_round(
    rt: &impl Abort,
    analyser: &mut Analyser<OctetCheck>,
    octets: &[u8; ROUND_OCTETS],
    count: &mut u64,
) {
    let taken = analyser.scan(octets, 0, ROUND_BITS, &mut Counting, count);
    same(rt, taken, ROUND_BITS, "the bits that were scanned");
}

/// Each call that takes many bits, over as many rounds; each is to see all reports of each.
fn take_rounds(rt: &impl Abort, analyser: &mut Analyser<OctetCheck>) {
    let bits = round_of(ROUND).expect(rt, "a round");
    let octets = round_octets(&bits);
    let mut sink = Counter::new();
    let mut scanned = 0;
    for _ in 0..ROUNDS {
        push_round(rt, analyser, &bits);
        assert!(rt; sink.refused() == 0);
        analyser.feed(&bits, &mut sink).expect(rt, "room");
        scan_round(rt, analyser, &octets, &mut scanned);
    }
    same(
        rt,
        sink.count,
        8 * ROUNDS,
        "the reports of the rounds that were fed",
    );
    same(
        rt,
        scanned,
        8 * ROUNDS,
        "the reports of the rounds that were scanned",
    );
    let want = Counts {
        answered: 3 * ROUNDS,
        missing: 3 * ROUNDS,
        spoilt: 3 * ROUNDS,
        late: 0,
    };
    same(rt, analyser.tally(16), want, "the tally of station 16");
}

/// The requests of the dictionary alone. Where memory is refused to the first attempt, the second reads it.
#[test]
fn read(rt: HostRuntime) {
    let dictionary = match calls_if_memory(rt.alloc()).expect(&rt, "a dictionary") {
        Some(dictionary) => dictionary,
        None => Dictionary::read(rt.alloc(), CALLS).expect(&rt, "memory"),
    };
    same(&rt, dictionary.longest(), 3, "the longest frame");
}

/// Those of the dictionary and of an analyser.
#[test]
fn made(rt: HostRuntime) {
    let analyser = analyser_at_last(&rt, rt.alloc());
    same(&rt, analyser.history_len(), 0, "how many frames are kept");
}

/// They are as many where each call that takes bits takes 10^5 of them.
#[test]
fn many_bits(rt: HostRuntime) {
    let mut analyser = analyser_at_last(&rt, rt.alloc());
    take_rounds(&rt, &mut analyser);
}
