//! Sinks that refuse reports of either line, or of both at one place, and what they take afterwards.

use super::{PairCollector, TwoLines, analyser, feed, pushed, two_lines};
use crate::expect::{holds, same};
use bus_fcs::{BitCheck, Check, OctetCheck};
use bus_rows::push_part;
use bus_seen::NONE;
use bus_watch::{Counts, FeedFault, PairAnalyser, PairSink};
use std::alloc::Global;
use std::fmt::Display;
use std::process::Abort;

/// What a sink is told of a frame.
fn told_of(word: &str) -> &'static str {
    match word {
        "call" => "8 49 frame 108300fde5 station 16 type 0 on 1",
        "reply" =>
            "8 49 frame 108380f561 station 16 type 128, answered 8 49 station 16 type 0 on 2",
        "stray" => "57 98 frame 108380f561 station 16 type 128, stray on 2",
        "notice" => "57 99 frame ff83095a3b station 255 type 9 on 1",
        _ => "no frame",
    }
}

/// What it is told of these frames.
fn told(rt: &impl Abort, alloc: Global, words: &str) -> String {
    let mut text = String::new(alloc);
    for word in words.split_whitespace() {
        push_part(&mut text, told_of(word)).expect(rt, "text");
    }
    text
}

/// A sink that refuses one or two of four reports, of which the first two are due at one place.
#[derive(Drop)]
struct Refusal<'a> {
    /// The reports that it refuses, counted from 1.
    refuses: [u64; 2],
    /// How many pairs are consumed when it refuses first, and how many when it refuses again.
    consumed: &'a [usize],
    /// How many reports it refused when feeding first stopped.
    refusals: u64,
    /// The frames that it has then.
    told: &'a str,
    /// What it has after all pairs.
    all: &'a str,
}

/// Ends the test where a sink has other than these frames.
fn check_told(
    rt: &impl Abort,
    alloc: Global,
    sink: &PairCollector,
    words: &str,
    case: impl Display + Drop,
) {
    let want = told(rt, alloc, words);
    same(rt, sink.text.as_str(), want.as_str(), case);
}

/// Feeding stops after each place at which a report is refused, and goes on from there.
fn check_refusal<C: Check>(rt: &impl Abort, alloc: Global, lines: &TwoLines, row: &Refusal<'_>) {
    let mut fed = analyser::<C>(rt, alloc);
    let mut sink = PairCollector::new(alloc, row.refuses);
    let mut before = 0;
    for stop in row.consumed {
        let rest = lines.pairs.get(before..).expect(rt, "pairs");
        let fault = feed(rt, &mut fed, rest, &mut sink).err();
        let consumed = stop.wrapping_sub(before);
        let case = format_args!("up to pair {stop}");
        same(rt, fault, Some(FeedFault::Sink { consumed }), &case);
        if before == 0 {
            same(rt, sink.refused(), row.refusals, &case);
            check_told(rt, alloc, &sink, row.told, &case);
        }
        before = *stop;
    }
    let rest = lines.pairs.get(before..).expect(rt, "pairs");
    feed(rt, &mut fed, rest, &mut sink).expect(rt, "room");
    check_told(rt, alloc, &sink, row.all, "what is told of all pairs");
    holds(rt, !sink.lacks, "memory for a text");
    check_unharmed(rt, alloc, &fed, lines);
}

/// What was refused was observed all the same: the analyser stands as after pairs of which all was taken.
fn check_unharmed<C: Check>(
    rt: &impl Abort,
    alloc: Global,
    fed: &PairAnalyser<C>,
    lines: &TwoLines,
) {
    let mut one_by_one = analyser::<C>(rt, alloc);
    pushed(rt, alloc, &mut one_by_one, &lines.pairs);
    same(
        rt,
        fed.usage(),
        one_by_one.usage(),
        "the usage after refusals",
    );
    same(
        rt,
        fed.ending(),
        one_by_one.ending(),
        "the ending after refusals",
    );
    let tally = Counts {
        answered: 1,
        ..NONE
    };
    same(
        rt,
        fed.tally(16),
        tally,
        "the tally of station 16 after refusals",
    );
}

/// With both checks, a sink that refuses these reports, stops there, refused so many then, and has these frames then
/// and after all pairs.
fn check_both(
    rt: &impl Abort,
    alloc: Global,
    refuses: [u64; 2],
    consumed: &[usize],
    refusals: u64,
    told: &str,
    all: &str,
) {
    let first = "flag call flag notice flag";
    let lines = two_lines(rt, alloc, first, "flag reply flag reply flag", false);
    same(rt, lines.pairs.len(), 107, "how many pairs there are");
    let row = Refusal {
        refuses,
        consumed,
        refusals,
        told,
        all,
    };
    check_refusal::<BitCheck>(rt, alloc, &lines, &row);
    check_refusal::<OctetCheck>(rt, alloc, &lines, &row);
}

/// Two reports at one place, where the second is offered also if the first was refused, and one on
/// either line a bit apart.
#[test]
fn refusing_sinks(rt: HostRuntime) {
    let alloc = rt.alloc();
    check_both(&rt, alloc, [1, 0], &[57], 1, "reply", "reply stray notice");
    check_both(&rt, alloc, [2, 0], &[57], 1, "call", "call stray notice");
    check_both(&rt, alloc, [1, 2], &[57], 2, "", "stray notice");
    let (two, three) = ("call reply", "call reply stray");
    check_both(&rt, alloc, [3, 0], &[106], 1, two, "call reply notice");
    check_both(&rt, alloc, [4, 0], &[107], 1, three, three);
    check_both(&rt, alloc, [1, 3], &[57, 106], 1, "reply", "reply notice");
    check_both(&rt, alloc, [2, 4], &[57, 107], 1, "call", "call stray");
    check_both(&rt, alloc, [3, 4], &[106, 107], 1, two, two);
}
