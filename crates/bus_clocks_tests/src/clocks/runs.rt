//! Whole runs over two lines with a clock each, their faults, and sinks that refuse a report.

use super::{
    Arrival, CALL, CALLS, Collector, REPLY, analyser, arrivals_in, arrivals_of, bits_of, feed,
    pushed,
};
use crate::expect::{holds, same};
use bus_bits::Spent;
use bus_clocks::{ClockRun, TwoClockAnalyser, run_clocks};
use bus_dictionary::Dictionary;
use bus_fcs::OctetCheck;
use bus_line::Span;
use bus_rows::FAR;
use bus_watch::{FeedFault, Line, NewFault, PairAnalyser, PairLog, PairSink, RunFault};
use std::alloc::Global;
use std::process::Abort;

/// The dictionary of calls and replies.
fn calls(rt: &impl Abort, alloc: Global) -> Dictionary {
    Dictionary::read(alloc, CALLS).expect(rt, "a dictionary")
}

/// A call, and a reply from place 60 on; the second clock runs while it is sent.
fn gated(rt: &impl Abort, alloc: Global) -> Vec<Arrival> {
    arrivals_in(rt, alloc, CALL, REPLY, "60 0 1, 1 1 57")
}

/// A run over these arrivals into a log with so much room.
fn run(
    rt: &impl Abort,
    alloc: Global,
    depth: usize,
    origin: u64,
    log: &mut PairLog,
) -> Result<ClockRun<OctetCheck>, RunFault> {
    let arrivals = gated(rt, alloc);
    assert!(rt; log.refused() < u64::MAX);
    run_clocks(alloc, calls(rt, alloc), depth, origin, &arrivals, log)
}

/// Three reports are logged, the third on the second line; the history has both frames.
#[test]
fn all_is_logged(rt: HostRuntime) {
    let alloc = rt.alloc();
    let mut log = PairLog::new(alloc, 3).expect(&rt, "a log");
    let done = run(&rt, alloc, 2, 100, &mut log).expect(&rt, "a run");
    let lines = [Line::First, Line::First, Line::Second];
    same(
        &rt,
        log.reports().len(),
        lines.len(),
        "how many reports are logged",
    );
    for (report, line) in log.reports().iter().zip(lines) {
        same(&rt, report.line, line, "the line of a report");
    }
    same(&rt, done.usage.history_len, 2, "how many frames are kept");
}

/// The steps of both lines.
const STEPS: Spent = Spent {
    shifted: 257,
    assembled: 80,
    folded: 10,
    stored: 10,
    copied: 10,
    handled: 15,
};

const REPLY_SPAN: Span = Span {
    first: 168,
    past: 209,
};

fn check_told(rt: &impl Abort, analyser: &TwoClockAnalyser<OctetCheck>) {
    same(rt, analyser.history_len(), 2, "how many frames there are");
    let reply = analyser.history(1).expect(rt, "a frame");
    let told = (reply.line, reply.kept.span);
    same(rt, told, (Line::Second, REPLY_SPAN), "the reply");
    holds(rt, analyser.history(2).is_none(), "no third frame");
    same(rt, analyser.spent(), STEPS, "the steps of both lines");
    same(rt, analyser.dictionary().longest(), 3, "the longest frame");
}

/// An analyser after a run tells both frames, and the steps of both lines.
#[test]
fn all_is_told(rt: HostRuntime) {
    let alloc = rt.alloc();
    let mut log = PairLog::new(alloc, 3).expect(&rt, "a log");
    let done = run(&rt, alloc, 2, 100, &mut log).expect(&rt, "a run");
    let usage = done.analyser.usage();
    same(&rt, usage, done.usage, "the usage of the analyser");
    check_told(&rt, &done.analyser);
}

/// Of the bits of an open piece all but the last eight are settled: of twenty bits one octet.
#[test]
fn buffers_of_open_pieces(rt: HostRuntime) {
    let alloc = rt.alloc();
    let broken = "flag 00001000 11000001 0000";
    let arrivals = arrivals_in(&rt, alloc, CALL, broken, "60 0 1, 1 1 28");
    let mut analyser = analyser::<OctetCheck>(&rt, alloc);
    pushed(&rt, alloc, &mut analyser, &arrivals);
    let buffered = (
        analyser.buffered(Line::First),
        analyser.buffered(Line::Second),
    );
    same(&rt, buffered, (0, 1), "octets in the buffers");
    let usage = analyser.usage();
    let buffered = (usage.first_buffered, usage.second_buffered);
    same(&rt, buffered, (0, 1), "octets by the usage");
}

/// A run into a log with so much room ends early.
fn check_fault(
    rt: &impl Abort,
    alloc: Global,
    room: usize,
    depth: usize,
    origin: u64,
    want: RunFault,
) {
    let mut log = PairLog::new(alloc, room).expect(rt, "a log");
    let ended = run(rt, alloc, depth, origin, &mut log);
    let case = format_args!("room for {room}, depth {depth} from {origin}");
    same(rt, ended.err(), Some(want), &case);
    holds(rt, log.reports().len() <= log.room(), &case);
}

/// Depths and places out of range; the first line has 200 bits.
#[test]
fn faults_of_runs(rt: HostRuntime) {
    let alloc = rt.alloc();
    let depth = RunFault::New(NewFault::DepthRange);
    check_fault(&rt, alloc, 3, 0, 0, depth);
    check_fault(&rt, alloc, 3, 1025, FAR + 1, depth);
    check_fault(&rt, alloc, 3, 1, FAR + 1, RunFault::New(NewFault::Origin));
    let far = RunFault::Feed(FeedFault::PlaceLimit);
    check_fault(&rt, alloc, 3, 1, FAR - 199, far);
    check_room(&rt, alloc, 0, 0, 57);
    check_room(&rt, alloc, 1, FAR - 200, 83);
    check_room(&rt, alloc, 2, 0, 174);
}

/// Too little room: the call is decided by the 57th bit, the idle line by the 84th, the reply by the 117th bit of the
/// first line and the 57th of the second.
fn check_room(rt: &impl Abort, alloc: Global, room: usize, origin: u64, consumed: usize) {
    let full = RunFault::Feed(FeedFault::Sink { consumed });
    check_fault(rt, alloc, room, 1, origin, full);
}

/// A report is refused, the bit that decides it is the last of so many, and these are the others.
fn check_refusal(
    rt: &impl Abort,
    alloc: Global,
    arrivals: &[Arrival],
    refuses: u64,
    stop: usize,
    others: &str,
) {
    let case = format_args!("report {refuses} is refused");
    let mut fed = analyser::<OctetCheck>(rt, alloc);
    let mut sink = Collector::new(alloc, refuses);
    let fault = feed(rt, &mut fed, arrivals, &mut sink).err();
    same(rt, fault, Some(FeedFault::Sink { consumed: stop }), &case);
    let rest = arrivals.get(stop..).expect(rt, "arrivals");
    feed(rt, &mut fed, rest, &mut sink).expect(rt, "room");
    same(rt, sink.text.as_str(), others, &case);
    holds(rt, !sink.lacks, &case);
    check_unharmed(rt, alloc, arrivals, &fed);
}

/// The analyser stands as if all was taken.
fn check_unharmed(
    rt: &impl Abort,
    alloc: Global,
    arrivals: &[Arrival],
    fed: &TwoClockAnalyser<OctetCheck>,
) {
    let mut one_by_one = analyser::<OctetCheck>(rt, alloc);
    pushed(rt, alloc, &mut one_by_one, arrivals);
    same(rt, fed.usage(), one_by_one.usage(), "the usage");
    same(rt, fed.tally(16), one_by_one.tally(16), "the tally");
}

const WITHOUT_THE_CALL: &str = "57 72 idle on 1; \
    68 109 frame 108380f561 station 16 type 128, answered 8 49 station 16 type 0 on 2";

const WITHOUT_THE_IDLE: &str = "8 49 frame 108300fde5 station 16 type 0 on 1; \
    68 109 frame 108380f561 station 16 type 128, answered 8 49 station 16 type 0 on 2";

const WITHOUT_THE_REPLY: &str = "8 49 frame 108300fde5 station 16 type 0 on 1; 57 72 idle on 1";

/// After a refused report feeding goes on behind the bit that decided it.
#[test]
fn refusing_sinks(rt: HostRuntime) {
    let alloc = rt.alloc();
    let arrivals = gated(&rt, alloc);
    check_refusal(&rt, alloc, &arrivals, 1, 57, WITHOUT_THE_CALL);
    check_refusal(&rt, alloc, &arrivals, 2, 83, WITHOUT_THE_IDLE);
    check_refusal(&rt, alloc, &arrivals, 3, 174, WITHOUT_THE_REPLY);
}

const FIRST: Arrival = (Line::First, true);

const SECOND: Arrival = (Line::Second, false);

/// Of the first line the bits up to the place before 2^60 are pushed, and no more; the second line goes on.
#[test]
fn last_places(rt: HostRuntime) {
    let alloc = rt.alloc();
    let made = TwoClockAnalyser::<OctetCheck>::new(alloc, calls(&rt, alloc), 1, FAR - 2);
    let mut analyser = made.expect(&rt, "an analyser");
    let mut sink = Collector::new(alloc, 0);
    let three = [FIRST, SECOND, FIRST, FIRST];
    let fault = feed(&rt, &mut analyser, &three, &mut sink).err();
    let wanted = Some(FeedFault::PlaceLimit);
    same(&rt, fault, wanted, "three bits of the first line");
    same(&rt, analyser.spent().shifted, 0, "bits that were fed");
    let two = [FIRST, SECOND, SECOND, FIRST];
    feed(&rt, &mut analyser, &two, &mut sink).expect(&rt, "room");
    check_last(&rt, &mut analyser);
}

fn check_last(rt: &impl Abort, analyser: &mut TwoClockAnalyser<OctetCheck>) {
    let is_refused = analyser.push(Line::First, true).is_err();
    holds(rt, is_refused, "a third bit");
    let is_taken = analyser.push(Line::Second, true).is_ok();
    holds(rt, is_taken, "the second line goes on");
    same(rt, analyser.spent().shifted, 5, "the bits of both lines");
}

/// The words of two lists of bits, the shorter going on with ones.
const IN_TURN: &str = "\
    flag call flag | flag reply flag\n\
    flag call flag | ones-57 flag reply flag\n\
    flag call flag notice flag | flag short short flag call flag\n\
    flag type-254 flag 0101 | flag control-19 flag 00110 idle 0";

/// The bits of two lines, as pairs and as they arrive in turn.
#[derive(Drop)]
struct InTurn {
    pairs: Vec<(bool, bool)>,
    arrivals: Vec<Arrival>,
}

fn in_turn(rt: &impl Abort, alloc: Global, first: &str, second: &str) -> InTurn {
    let mut first = bits_of(rt, alloc, first);
    let mut second = bits_of(rt, alloc, second);
    let length = first.len().max(second.len());
    first.resize(length, true).expect(rt, "memory");
    second.resize(length, true).expect(rt, "memory");
    InTurn {
        pairs: bus_rows::pairs_of(alloc, &first, &second).expect(rt, "memory"),
        arrivals: arrivals_of(rt, alloc, &first, &second, "1 1 1000"),
    }
}

/// An analyser of two lines with one clock that was fed these pairs.
fn fed_pairs(
    rt: &impl Abort,
    alloc: Global,
    pairs: &[(bool, bool)],
    sink: &mut Collector,
) -> PairAnalyser<OctetCheck> {
    let made = PairAnalyser::new(alloc, calls(rt, alloc), 2, 0);
    let mut analyser = made.expect(rt, "an analyser");
    assert!(rt; sink.refused() < u64::MAX - 1);
    analyser.feed(pairs, sink).expect(rt, "room");
    analyser
}

fn check_in_turn(rt: &impl Abort, alloc: Global, line: &str) {
    let (first, second) = line.split_once('|').expect(rt, "two lines");
    let bits = in_turn(rt, alloc, first, second);
    let mut want = Collector::new(alloc, 0);
    let by_pairs = fed_pairs(rt, alloc, &bits.pairs, &mut want);
    let mut by_arrivals = analyser::<OctetCheck>(rt, alloc);
    let text = pushed(rt, alloc, &mut by_arrivals, &bits.arrivals);
    same(rt, text.as_str(), want.text.as_str(), second);
    same(rt, by_arrivals.ending(), by_pairs.ending(), second);
    same(rt, by_arrivals.usage(), by_pairs.usage(), second);
}

/// Bits that arrive in turn are the pairs of two lines with one clock.
#[test]
fn bits_in_turn(rt: HostRuntime) {
    for line in IN_TURN.lines() {
        check_in_turn(&rt, rt.alloc(), line);
    }
}
