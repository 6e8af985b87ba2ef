//! Long lists of random traffic on two lines by calls of every kind and size.

use super::every_list::{differing_place, reports, side_of, tells};
use super::{PairCollector, TwoLines, feed, new_analyser, pairs_of, read, scan_some, two_lines};
use crate::expect::{holds, same};
use bus_fcs::OctetCheck;
use bus_rows::{CALLS, number_after};
use bus_seen::push_seen_on;
use bus_watch::{Line, PairAnalyser, PairEnding, PairUsage};
use std::alloc::Global;
use std::process::Abort;

/// How many pairs a list has.
const PAIRS: usize = 1500;

/// What traffic is made of: words of two lines at once.
const PARTS: &str = "\
    flag flag flag flag flag call flag flag flag | 0 flag flag flag flag flag flag reply flag flag\n\
    flag call flag | ones-57 flag reply flag\n\
    flag call flag | flag reply flag\n\
    flag call flag | 0 flag reply flag reply flag\n\
    0 flag call flag | flag reply flag\n\
    flag call flag notice flag | short 0110100101110100110010110 short flag reply flag\n\
    flag call flag short short flag | flag untyped flag 0 flag\n\
    flag call 0 flag | flag short short flag\n\
    idle | 0110100101110100110010110\n\
    0110100101110100110010110 | ones-57\n\
    flag 0 | flag 111110111110";

/// How many parts these are.
const PART_COUNT: usize = 11;

/// What an analyser says of itself.
#[derive(Clone, Copy, PartialEq, Eq)]
struct State {
    usage: PairUsage,
    ending: PairEnding,
}

fn state_of(analyser: &PairAnalyser<OctetCheck>) -> State {
    State {
        usage: analyser.usage(),
        ending: analyser.ending(),
    }
}

/// An analyser of the example dictionary of calls, with a history of five frames.
fn analyser(rt: &impl Abort, alloc: Global) -> PairAnalyser<OctetCheck> {
    new_analyser(rt, alloc, read(rt, alloc, CALLS), 5)
}

/// Appends the first `count` of these bits, or all where they are fewer.
fn push_some(rt: &impl Abort, all: &mut Vec<bool>, bits: &[bool], count: usize) {
    let some = bits.get(..count).unwrap_or(bits);
    all.extend_from_slice(some).expect(rt, "memory");
}

/// The bits of a part, the shorter line going on with one bit value.
fn part_of(rt: &impl Abort, alloc: Global, number: usize, rest: bool) -> TwoLines {
    let part = PARTS.lines().nth(number % PART_COUNT).expect(rt, "a part");
    let (first, second) = part.split_once('|').expect(rt, "two lines");
    two_lines(rt, alloc, first, second, rest)
}

/// Parts and beginnings of parts, one after the other; the same seed gives the same lists.
fn traffic(rt: &impl Abort, alloc: Global, seed: u64) -> TwoLines {
    let mut first = Vec::new(alloc);
    let mut second = Vec::new(alloc);
    let mut state = seed;
    for _ in 0..PAIRS {
        let room = PAIRS.saturating_sub(first.len());
        if room == 0 {
            break;
        }
        state = number_after(state);
        let part = part_of(rt, alloc, (state >> 48) as usize, (state >> 45) % 2 == 1);
        let count = room.min((state >> 33) as usize % 256);
        push_some(rt, &mut first, &part.first, count);
        push_some(rt, &mut second, &part.second, count);
    }
    let pairs = pairs_of(rt, alloc, &first, &second);
    TwoLines {
        first,
        second,
        pairs,
    }
}

/// The frames of the history, with their lines.
fn history_of(rt: &impl Abort, alloc: Global, analyser: &PairAnalyser<OctetCheck>) -> String {
    let mut text = String::new(alloc);
    for i in 0..analyser.history_len() {
        let frame = analyser.history(i).expect(rt, "a frame");
        let span = frame.kept.span;
        write!(text, "{:?} {} {}", frame.line, span.first, span.past).expect(rt, "text");
        for octet in frame.kept.octets.as_slice() {
            write!(text, " {octet:02x}").expect(rt, "text");
        }
    }
    text
}

/// What was seen in one run by calls of one pair, and what the analyser says of itself after each.
#[derive(Drop)]
struct OneRun {
    text: String,
    states: Vec<State>,
    history: String,
}

fn one_run(rt: &impl Abort, alloc: Global, lines: &TwoLines) -> OneRun {
    let mut analyser = analyser(rt, alloc);
    let mut text = String::new(alloc);
    let mut states = Vec::new(alloc);
    for pair in &lines.pairs {
        let seen = analyser.push(pair.0, pair.1).expect(rt, "a place");
        if let Some(first) = &seen.first {
            push_seen_on(&mut text, Line::First, first).expect(rt, "text");
        }
        if let Some(second) = &seen.second {
            push_seen_on(&mut text, Line::Second, second).expect(rt, "text");
        }
        states.push(state_of(&analyser)).expect(rt, "memory");
    }
    OneRun {
        text,
        states,
        history: history_of(rt, alloc, &analyser),
    }
}

/// Whether the analyser says the same of itself as after so many pairs of the one run.
fn stands_at(analyser: &PairAnalyser<OctetCheck>, run: &OneRun, taken: usize) -> bool {
    run.states.get(taken.wrapping_sub(1)) == Some(&state_of(analyser))
}

/// Calls of `scan` of up to `size` pairs see the same, and the analyser stands the same after each.
fn check_scanned(rt: &impl Abort, alloc: Global, lines: &TwoLines, run: &OneRun, size: u32) {
    let mut analyser = analyser(rt, alloc);
    let mut text = String::new(alloc);
    let mut taken: usize = 0;
    let case = format_args!("{size} pairs at most are scanned with a call");
    for _ in &lines.pairs {
        if taken >= lines.pairs.len() {
            break;
        }
        let first = lines.first.get(taken..).expect(rt, "bits");
        let second = lines.second.get(taken..).expect(rt, "bits");
        let count = scan_some(rt, &mut text, &mut analyser, first, second, size);
        taken = taken.saturating_add(count);
        holds(rt, stands_at(&analyser, run, taken), &case);
    }
    same(rt, taken, lines.pairs.len(), &case);
    same(rt, text.as_str(), run.text.as_str(), &case);
    let history = history_of(rt, alloc, &analyser);
    same(rt, history.as_str(), run.history.as_str(), &case);
}

/// The same with calls of `feed` of up to `size` pairs.
fn check_fed(rt: &impl Abort, alloc: Global, lines: &TwoLines, run: &OneRun, size: usize) {
    let mut analyser = analyser(rt, alloc);
    let mut sink = PairCollector::new(alloc, [0, 0]);
    let mut fed: usize = 0;
    let case = format_args!("{size} pairs at most are fed with a call");
    for some in lines.pairs.chunks(size.max(1)) {
        feed(rt, &mut analyser, some, &mut sink).expect(rt, "room");
        fed = fed.saturating_add(some.len());
        holds(rt, stands_at(&analyser, run, fed), &case);
    }
    holds(rt, !sink.lacks, &case);
    same(rt, fed, lines.pairs.len(), &case);
    same(rt, sink.text.as_str(), run.text.as_str(), &case);
    let history = history_of(rt, alloc, &analyser);
    same(rt, history.as_str(), run.history.as_str(), &case);
}

/// Pairs that are pushed, fed and scanned decide the reports of both lists, merged.
fn check_merged(rt: &impl Abort, alloc: Global, seed: u64) {
    let TwoLines { first, second, .. } = traffic(rt, alloc, seed);
    let first = side_of(rt, alloc, first, 3);
    let second = side_of(rt, alloc, second, 3);
    let case = format_args!("seed {seed}");
    let found = differing_place(rt, &mut analyser(rt, alloc), &first, &second);
    same(rt, found, None, &case);
    let is_told = tells(rt, alloc, &mut analyser(rt, alloc), &first, &second);
    holds(rt, is_told, &case);
    let is_observed = reports(rt, alloc, &mut analyser(rt, alloc), &first, &second);
    holds(rt, is_observed, &case);
}

/// The reports are those of both whole lists, merged.
#[test]
fn merged_reports(rt: HostRuntime) {
    for seed in 1..=4 {
        check_merged(&rt, rt.alloc(), seed);
    }
}

/// Calls of every size see what calls of one pair see.
#[test]
fn calls_of_every_size(rt: HostRuntime) {
    let alloc = rt.alloc();
    let mut text = String::new(alloc);
    for seed in 1..=4u64 {
        let lines = traffic(&rt, alloc, seed);
        same(&rt, lines.pairs.len(), PAIRS, "how many pairs a list has");
        let run = one_run(&rt, alloc, &lines);
        text.push_str(&run.text).expect(&rt, "memory");
        for size in 1..=48u32 {
            check_scanned(&rt, alloc, &lines, &run, size);
            check_fed(&rt, alloc, &lines, &run, size as usize);
        }
        check_fed(&rt, alloc, &lines, &run, PAIRS);
    }
    for word in ["answered", "missing", "spoilt", "stray", "overlong", "idle"] {
        holds(&rt, text.contains(word), word);
    }
}
