//! Sinks that collect what they take, and refuse where a test wants it.

use super::{bits_of, new_analyser, read};
use crate::expect::{holds, same};
use bus_dictionary::Dictionary;
use bus_fcs::{BitCheck, Check, OctetCheck};
use bus_rows::{CALLS, push_part};
use bus_seen::{NONE, push_seen};
use bus_watch::{
    Analyser, Counts, FeedFault, ReportSink, Run, RunFault, Seen, SinkRefused, run_all,
};
use std::alloc::Global;
use std::fmt::Display;
use std::process::Abort;

/// Collects the texts of what it takes, and refuses report number `refuses`, counted from 1.
#[derive(Drop)]
pub(super) struct Collector {
    pub(super) text: String,
    pub(super) refuses: u64,
    count: u64,
    refusals: u64,
    /// Memory was refused for a text.
    lacks: bool,
}

impl Collector {
    pub(super) fn new(alloc: Global, refuses: u64) -> Self {
        Collector {
            text: String::new(alloc),
            refuses,
            count: 0,
            refusals: 0,
            lacks: false,
        }
    }
}

impl ReportSink for Collector {
    ghost use Rattle.std.specs.Prelude.{None};

    ghost sink = { record { taken = λ s. None; room = λ s. None; refusals = λ s. s.refusals } };

    fn refused(&self) -> u64 {
        self.refusals
    }

    fn take(&mut self, seen: &Seen<'_>) -> Result<(), SinkRefused> {
        self.count = self.count.saturating_add(1);
        if self.count == self.refuses {
            self.refusals += 1;
            return Err(SinkRefused);
        }
        if push_seen(&mut self.text, seen).is_err() {
            self.lacks = true;
        }
        Ok(())
    }
}

/// FeedAfter bits to a sink whose count of refusals has room for one more.
pub(super) fn feed<C: Check>(
    rt: &impl Abort,
    analyser: &mut Analyser<C>,
    bits: &[bool],
    sink: &mut Collector,
) -> Result<(), FeedFault> {
    assert!(rt; sink.refused() < u64::MAX);
    analyser.feed(bits, sink)
}

/// A whole run from place 0 with such a sink, and a history of sixteen frames.
pub(super) fn run<C: Check>(
    rt: &impl Abort,
    alloc: Global,
    dictionary: Dictionary,
    pieces: &[&[bool]],
    sink: &mut Collector,
) -> Result<Run<C>, RunFault> {
    assert!(rt; sink.refused() < u64::MAX);
    run_all(alloc, dictionary, 16, 0, pieces, sink)
}

/// What a sink is told of a frame.
fn told_of(word: &str) -> &'static str {
    match word {
        "call" => "8 49 frame 108300fde5 station 16 type 0",
        "reply" => "57 98 frame 108380f561 station 16 type 128, answered 8 49 station 16 type 0",
        "notice" => "106 148 frame ff83095a3b station 255 type 9",
        _ => "no frame",
    }
}

/// What it is told of these frames.
fn told(rt: &impl Abort, alloc: Global, words: &str) -> String {
    let mut text = String::new(alloc);
    for word in words.split_whitespace() {
        push_part(&mut text, told_of(word)).expect(rt, "text");
    }
    text
}

/// A sink that refuses one of three reports.
#[derive(Drop)]
struct Refusal<'a> {
    /// The report that it refuses, counted from 1.
    refuses: u64,
    /// How many bits are consumed then.
    consumed: usize,
    /// The frames that the sink has then.
    told: &'a str,
    /// How often station 16 answered by then.
    answered: u64,
    /// The frames that it has after the rest of the bits.
    all: &'a str,
}

/// Ends the test where a sink has other than these frames.
fn check_told(
    rt: &impl Abort,
    alloc: Global,
    sink: &Collector,
    words: &str,
    case: impl Display + Drop,
) {
    let want = told(rt, alloc, words);
    same(rt, sink.text.as_str(), want.as_str(), case);
}

fn check_refusal<C: Check>(rt: &impl Abort, alloc: Global, bits: &[bool], row: &Refusal<'_>) {
    let (refuses, consumed) = (row.refuses, row.consumed);
    let mut analyser = new_analyser::<C>(rt, alloc, CALLS, 2, 0);
    let mut sink = Collector::new(alloc, refuses);
    let case = format_args!("report {refuses} is refused");
    let fault = feed(rt, &mut analyser, bits, &mut sink).err();
    same(rt, fault, Some(FeedFault::Sink { consumed }), &case);
    same(rt, sink.refused(), 1, &case);
    check_told(rt, alloc, &sink, row.told, &case);
    let counts = Counts {
        answered: row.answered,
        ..NONE
    };
    same(rt, analyser.tally(16), counts, &case);
    for bit in bits.iter().skip(consumed) {
        feed(rt, &mut analyser, &[*bit], &mut sink).expect(rt, "room");
    }
    check_told(rt, alloc, &sink, row.all, &case);
    holds(rt, !sink.lacks, "memory for a text");
}

/// The same list as a run of two pieces: the bits that are consumed count from the first piece on.
fn check_run<C: Check>(rt: &impl Abort, alloc: Global, bits: &[bool], row: &Refusal<'_>) {
    let (refuses, consumed) = (row.refuses, row.consumed);
    let (front, rest) = bits.split_at_checked(70).expect(rt, "too few bits");
    let mut sink = Collector::new(alloc, refuses);
    let dictionary = read(rt, alloc, CALLS);
    let fault = run::<C>(rt, alloc, dictionary, &[front, rest], &mut sink).err();
    let case = format_args!("report {refuses} of two pieces is refused");
    let want = RunFault::Feed(FeedFault::Sink { consumed });
    same(rt, fault, Some(want), &case);
    check_told(rt, alloc, &sink, row.told, &case);
}

/// With both checks, a sink that refuses this report at this bit has these frames then, and these after all bits.
fn check_both(rt: &impl Abort, alloc: Global, row: &Refusal<'_>) {
    let bits = bits_of(rt, alloc, "flag call flag reply flag notice flag");
    same(rt, bits.len(), 156, "how many bits the frames have");
    check_refusal::<BitCheck>(rt, alloc, &bits, row);
    check_refusal::<OctetCheck>(rt, alloc, &bits, row);
    check_run::<BitCheck>(rt, alloc, &bits, row);
    check_run::<OctetCheck>(rt, alloc, &bits, row);
}

/// Sinks that refuse one report of three frames.
#[test]
fn refusing_sinks(rt: HostRuntime) {
    let first = Refusal {
        refuses: 1,
        consumed: 57,
        told: "",
        answered: 0,
        all: "reply notice",
    };
    check_both(&rt, rt.alloc(), &first);
    let second = Refusal {
        refuses: 2,
        consumed: 106,
        told: "call",
        answered: 1,
        all: "call notice",
    };
    check_both(&rt, rt.alloc(), &second);
    let third = Refusal {
        refuses: 3,
        consumed: 156,
        told: "call reply",
        answered: 1,
        all: "call reply",
    };
    check_both(&rt, rt.alloc(), &third);
}
