//! Whole runs over two lines, into a log.

use super::{TwoLines, read, two_lines};
use crate::expect::{holds, same};
use bus_bits::Span;
use bus_fcs::OctetCheck;
use bus_rows::{CALLS, FAR};
use bus_watch::{
    FeedFault, Line, LoggedPiece, NewFault, PairLog, PairRun, PairSink, RunFault, run_pairs,
};
use std::alloc::Global;
use std::process::Abort;

/// A call on the first line, and beside it its reply on the second: both are decided by the last of these pairs.
fn call_beside_reply(rt: &impl Abort, alloc: Global) -> TwoLines {
    two_lines(rt, alloc, "flag call flag", "flag reply flag", false)
}

/// A run over these pairs into a log with so much room.
fn run(
    rt: &impl Abort,
    alloc: Global,
    depth: usize,
    origin: u64,
    log: &mut PairLog,
) -> Result<PairRun<OctetCheck>, RunFault> {
    let dictionary = read(rt, alloc, CALLS);
    let pairs = call_beside_reply(rt, alloc).pairs;
    assert!(rt; log.refused() < u64::MAX - 1);
    run_pairs(alloc, dictionary, depth, origin, &pairs, log)
}

/// The span of a logged frame, and how many octets it has.
fn frame_of(piece: &LoggedPiece) -> Option<(Span, usize)> {
    match piece {
        LoggedPiece::Frame { span, octets } => Some((*span, octets.len())),
        _ => None,
    }
}

/// The log has both frames, the first line's first.
#[test]
fn both_are_logged(rt: HostRuntime) {
    let alloc = rt.alloc();
    let mut log = PairLog::new(alloc, 2).expect(&rt, "a log");
    let done = run(&rt, alloc, 2, 100, &mut log).expect(&rt, "a run");
    same(&rt, done.usage.history_len, 2, "how many frames are kept");
    same(
        &rt,
        done.analyser.usage(),
        done.usage,
        "the usage of the analyser",
    );
    let span = Span {
        first: 108,
        past: 149,
    };
    let lines = [Line::First, Line::Second];
    same(
        &rt,
        log.reports().len(),
        lines.len(),
        "how many reports are logged",
    );
    for (report, line) in log.reports().iter().zip(lines) {
        let case = format_args!("the report of line {line:?}");
        same(&rt, report.line, line, &case);
        same(&rt, frame_of(&report.logged.piece), Some((span, 5)), &case);
        same(
            &rt,
            report.logged.verdict.is_some(),
            line == Line::Second,
            &case,
        );
    }
}

/// A run into a log with so much room ends early.
fn check_fault(
    rt: &impl Abort,
    alloc: Global,
    room: usize,
    depth: usize,
    origin: u64,
    want: RunFault,
) {
    let mut log = PairLog::new(alloc, room).expect(rt, "a log");
    let ended = run(rt, alloc, depth, origin, &mut log);
    let case = format_args!("room for {room}, depth {depth} from {origin}");
    same(rt, ended.err(), Some(want), &case);
    holds(rt, log.reports().len() <= log.room(), &case);
}

/// Depths and places out of range; then there is no room for the reports, and then for one of them.
#[test]
fn faults_of_runs(rt: HostRuntime) {
    let alloc = rt.alloc();
    let depth = RunFault::New(NewFault::DepthRange);
    check_fault(&rt, alloc, 2, 0, 0, depth);
    check_fault(&rt, alloc, 2, 1025, FAR + 1, depth);
    check_fault(&rt, alloc, 2, 1, FAR + 1, RunFault::New(NewFault::Origin));
    let far = RunFault::Feed(FeedFault::PlaceLimit);
    check_fault(&rt, alloc, 2, 1, FAR - 56, far);
    let full = RunFault::Feed(FeedFault::Sink { consumed: 57 });
    check_fault(&rt, alloc, 0, 1, 0, full);
    check_fault(&rt, alloc, 1, 1, FAR - 57, full);
}
