//! Worked lists: what is seen, the end and the tally, however the bits are cut.

use super::sinks::{Collector, feed};
use super::table::{WorkedList, pushed, scanned, worked_list};
use super::{bits_of, new_analyser};
use crate::expect::{holds, same};
use bus_fcs::{BitCheck, Check, OctetCheck};
use bus_line::Span;
use bus_rows::{CALLS, DAMAGE, FRAMES, WITHIN};
use bus_seen::{NONE, push_ending};
use bus_watch::{Analyser, Counts};
use std::alloc::Global;
use std::process::Abort;

/// The bits pushed one by one, and scanned: both count the same steps.
fn check_bits<C: Check>(rt: &impl Abort, alloc: Global, row: &WorkedList) {
    let mut analyser = row.analyser::<C>(rt, alloc);
    let text = pushed(rt, alloc, &mut analyser, &row.bits);
    same(rt, text.as_str(), row.want, "pushed one by one");
    for size in [1, 5, 8, 48] {
        let case = format_args!("{size} bits at most a call");
        let mut by_octets = row.analyser::<C>(rt, alloc);
        let text = scanned(rt, alloc, &mut by_octets, &row.bits, size);
        same(rt, text.as_str(), row.want, &case);
        same(rt, by_octets.usage(), analyser.usage(), &case);
    }
}

fn check_bits_of_each(rt: &impl Abort, alloc: Global, table: &str) {
    for line in table.lines() {
        let row = worked_list(rt, alloc, line);
        check_bits::<BitCheck>(rt, alloc, &row);
        check_bits::<OctetCheck>(rt, alloc, &row);
    }
}

#[test]
fn frames(rt: HostRuntime) {
    check_bits_of_each(&rt, rt.alloc(), FRAMES);
}

#[test]
fn damage(rt: HostRuntime) {
    check_bits_of_each(&rt, rt.alloc(), DAMAGE);
}

/// The bits fed in two pieces.
fn check_cut<C: Check>(rt: &impl Abort, alloc: Global, row: &WorkedList, cut: usize) {
    let case = format_args!("cut at {cut}");
    let (front, rest) = row.bits.split_at_checked(cut).expect(rt, "a cut");
    let mut analyser = row.analyser::<C>(rt, alloc);
    let mut sink = Collector::new(alloc, 0);
    same(rt, feed(rt, &mut analyser, front, &mut sink), Ok(()), &case);
    same(rt, feed(rt, &mut analyser, rest, &mut sink), Ok(()), &case);
    push_ending(&mut sink.text, analyser.ending()).expect(rt, "text");
    same(rt, sink.text.as_str(), row.want, &case);
}

fn check_cuts(rt: &impl Abort, alloc: Global, line: &str) {
    let row = worked_list(rt, alloc, line);
    for cut in 0..=row.bits.len() {
        check_cut::<BitCheck>(rt, alloc, &row, cut);
        check_cut::<OctetCheck>(rt, alloc, &row, cut);
    }
}

/// Every list, fed in two pieces that are cut at every place.
#[test]
fn any_cut(rt: HostRuntime) {
    let alloc = rt.alloc();
    for line in FRAMES.lines() {
        check_cuts(&rt, alloc, line);
    }
    for line in DAMAGE.lines() {
        check_cuts(&rt, alloc, line);
    }
}

fn check_tally<C: Check>(
    rt: &impl Abort,
    alloc: Global,
    dictionary: &str,
    words: &str,
    want: Counts,
) {
    let mut analyser = new_analyser::<C>(rt, alloc, dictionary, 2, 0);
    pushed(rt, alloc, &mut analyser, &bits_of(rt, alloc, words));
    same(rt, analyser.tally(16), want, words);
    same(rt, analyser.tally(17), NONE, words);
}

fn check_tallies<C: Check>(rt: &impl Abort, alloc: Global) {
    let answered = Counts {
        answered: 1,
        ..NONE
    };
    check_tally::<C>(
        rt,
        alloc,
        CALLS,
        "flag call flag idle flag reply flag",
        answered,
    );
    let spoilt = Counts { spoilt: 1, ..NONE };
    check_tally::<C>(
        rt,
        alloc,
        CALLS,
        "flag call flag short flag reply flag",
        spoilt,
    );
    let missing = Counts { missing: 1, ..NONE };
    check_tally::<C>(
        rt,
        alloc,
        CALLS,
        "flag call flag control-19 flag reply flag",
        missing,
    );
    let late = Counts { late: 1, ..NONE };
    check_tally::<C>(
        rt,
        alloc,
        WITHIN,
        "flag call flag flag flag reply flag",
        late,
    );
}

/// An answer after an idle, after damage, and after another frame: only an idle may stand between. And one after its
/// window.
#[test]
fn tallies(rt: HostRuntime) {
    check_tallies::<BitCheck>(&rt, rt.alloc());
    check_tallies::<OctetCheck>(&rt, rt.alloc());
}

fn check_kept<C: Check>(
    rt: &impl Abort,
    analyser: &Analyser<C>,
    index: usize,
    span: Span,
    octets: &[u8],
) {
    let kept = analyser.history(index).expect(rt, "a frame");
    same(rt, kept.span, span, "the span of a kept frame");
    same(
        rt,
        kept.octets.as_slice(),
        octets,
        "the octets of a kept frame",
    );
}

const REPLY_SPAN: Span = Span {
    first: 57,
    past: 98,
};

const NOTICE_SPAN: Span = Span {
    first: 106,
    past: 148,
};

fn check_history<C: Check>(rt: &impl Abort, alloc: Global) {
    let mut analyser = new_analyser::<C>(rt, alloc, CALLS, 2, 0);
    let bits = bits_of(rt, alloc, "flag call flag reply flag notice flag");
    pushed(rt, alloc, &mut analyser, &bits);
    same(rt, analyser.history_len(), 2, "how many frames are kept");
    check_kept(
        rt,
        &analyser,
        0,
        REPLY_SPAN,
        &[0x10, 0x83, 0x80, 0xf5, 0x61],
    );
    check_kept(
        rt,
        &analyser,
        1,
        NOTICE_SPAN,
        &[0xff, 0x83, 0x09, 0x5a, 0x3b],
    );
    holds(rt, analyser.history(2).is_none(), "no third frame is kept");
    same(
        rt,
        analyser.dictionary().longest(),
        3,
        "the longest frame of the dictionary",
    );
}

/// The last two of three frames.
#[test]
fn history(rt: HostRuntime) {
    check_history::<BitCheck>(&rt, rt.alloc());
    check_history::<OctetCheck>(&rt, rt.alloc());
}
