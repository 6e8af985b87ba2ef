//! Steps, history and limits of two lines.

use super::{PairCollector, analyser, feed, pushed, read, two_lines};
use crate::expect::{holds, same};
use bus_bits::{Span, Spent};
use bus_fcs::OctetCheck;
use bus_line::PlaceLimit;
use bus_rows::{CALLS, FAR};
use bus_seen::Counting;
use bus_watch::{FeedFault, Line, NewFault, PairAnalyser};
use std::alloc::Global;
use std::process::Abort;

/// The steps with a check that costs one an octet of two lists, the shorter going on with ones.
fn check_steps(rt: &impl Abort, alloc: Global, first: &str, second: &str, want: Spent) {
    let lines = two_lines(rt, alloc, first, second, true);
    let mut analyser = analyser::<OctetCheck>(rt, alloc);
    pushed(rt, alloc, &mut analyser, &lines.pairs);
    same(rt, analyser.spent(), want, second);
}

/// A frame and an idle on either line.
const OF_TWO: Spent = Spent {
    shifted: 228,
    assembled: 80,
    folded: 10,
    stored: 10,
    copied: 10,
    handled: 18,
};

/// An idle on the first, and a frame on the second alone.
const OF_ONE: Spent = Spent {
    shifted: 114,
    assembled: 40,
    folded: 5,
    stored: 5,
    copied: 5,
    handled: 9,
};

#[test]
fn steps_of_two_lines(rt: HostRuntime) {
    let alloc = rt.alloc();
    let reply = "ones-57 flag reply flag";
    check_steps(&rt, alloc, "flag call flag", reply, OF_TWO);
    check_steps(&rt, alloc, "", "flag call flag", OF_ONE);
}

fn check_kept(
    rt: &impl Abort,
    analyser: &PairAnalyser<OctetCheck>,
    index: usize,
    line: Line,
    span: Span,
    octets: &[u8],
) {
    let frame = analyser.history(index).expect(rt, "a frame");
    same(rt, frame.line, line, "the line of a kept frame");
    same(rt, frame.kept.span, span, "the span of a kept frame");
    same(
        rt,
        frame.kept.octets.as_slice(),
        octets,
        "the octets of a kept frame",
    );
}

/// The last two of three frames, with their lines.
#[test]
fn history_of_two_lines(rt: HostRuntime) {
    let alloc = rt.alloc();
    let lines = two_lines(
        &rt,
        alloc,
        "flag call flag notice flag",
        "flag reply flag",
        false,
    );
    let mut analyser = analyser::<OctetCheck>(&rt, alloc);
    pushed(&rt, alloc, &mut analyser, &lines.pairs);
    same(&rt, analyser.history_len(), 2, "how many frames are kept");
    let reply = [0x10, 0x83, 0x80, 0xf5, 0x61];
    let span = Span { first: 8, past: 49 };
    check_kept(&rt, &analyser, 0, Line::Second, span, &reply);
    let notice = [0xff, 0x83, 0x09, 0x5a, 0x3b];
    let span = Span {
        first: 57,
        past: 99,
    };
    check_kept(&rt, &analyser, 1, Line::First, span, &notice);
    holds(&rt, analyser.history(2).is_none(), "no third frame is kept");
    same(
        &rt,
        analyser.dictionary().longest(),
        3,
        "the longest frame of the dictionary",
    );
}

fn new_at(
    rt: &impl Abort,
    alloc: Global,
    depth: usize,
    origin: u64,
) -> Result<PairAnalyser<OctetCheck>, NewFault> {
    PairAnalyser::new(alloc, read(rt, alloc, CALLS), depth, origin)
}

fn check_new(rt: &impl Abort, alloc: Global, depth: usize, origin: u64, want: NewFault) {
    let fault = new_at(rt, alloc, depth, origin).err();
    let case = format_args!("depth {depth} from {origin}");
    same(rt, fault, Some(want), case);
}

/// The depths and origins that are refused, and the last places.
#[test]
fn limits_of_two_lines(rt: HostRuntime) {
    let alloc = rt.alloc();
    check_new(&rt, alloc, 0, 0, NewFault::DepthRange);
    check_new(&rt, alloc, 1025, 0, NewFault::DepthRange);
    check_new(&rt, alloc, 1, (1 << 60) + 1, NewFault::Origin);
    let mut analyser = new_at(&rt, alloc, 1, (1 << 60) - 3).expect(&rt, "an analyser");
    check_last_fed(&rt, alloc, &mut analyser);
    let is_refused = analyser.push(true, true).is_err();
    holds(&rt, is_refused, "a fourth pair is refused");
}

/// Three places before the last, four pairs are refused whole, and three are taken.
fn check_last_fed(rt: &impl Abort, alloc: Global, analyser: &mut PairAnalyser<OctetCheck>) {
    let mut sink = PairCollector::new(alloc, [0, 0]);
    let pairs = [(true, false); 4];
    let fault = feed(rt, analyser, &pairs, &mut sink).err();
    same(rt, fault, Some(FeedFault::PlaceLimit), "four pairs fed");
    same(rt, analyser.spent().shifted, 0, "the bits of four pairs");
    feed(rt, analyser, &pairs[..3], &mut sink).expect(rt, "room");
    same(rt, analyser.spent().shifted, 6, "the bits of three pairs");
}

/// So many pairs are taken, and then none.
fn check_taken(rt: &impl Abort, alloc: Global, room: u64) {
    let origin = FAR.wrapping_sub(room);
    let mut analyser = new_at(rt, alloc, 1, origin).expect(rt, "an analyser");
    let case = format_args!("{room} places to take");
    for _ in 0..room {
        holds(rt, analyser.push(true, false).is_ok(), &case);
    }
    same(rt, analyser.spent().shifted, room.saturating_mul(2), &case);
    let fault = analyser.push(true, false).err();
    same(rt, fault, Some(PlaceLimit), &case);
}

/// Pairs are taken up to the place before 2^60, and no more.
#[test]
fn last_taken_pairs(rt: HostRuntime) {
    for room in [0u64, 1, 3, 48] {
        check_taken(&rt, rt.alloc(), room);
    }
}

/// Scanning stops in front of the place 2^60.
#[test]
fn last_scanned_pairs(rt: HostRuntime) {
    let alloc = rt.alloc();
    for room in [0u64, 1, 3, 7, 8, 9] {
        let origin = FAR.wrapping_sub(room);
        let mut analyser = new_at(&rt, alloc, 1, origin).expect(&rt, "an analyser");
        let mut observed = 0;
        let taken = analyser.scan(&[0xff], &[0xff], 8, &mut Counting, &mut observed);
        let want = room.min(8);
        let case = format_args!("{room} places to scan");
        same(&rt, (taken as u64, observed), (want, 0), &case);
        same(&rt, analyser.spent().shifted, want.saturating_mul(2), &case);
    }
}
