//! Logs of reports, and whole runs.

use super::{bits_of, read};
use crate::expect::{holds, same};
use bus_bits::Spent;
use bus_fcs::{BitCheck, Check, OctetCheck};
use bus_line::Span;
use bus_rows::{CALLS, FAR};
use bus_watch::{
    FeedFault, LoggedPiece, NewFault, ReportLog, ReportSink, RunFault, Usage, reports_of, run_all,
};
use std::alloc::Global;
use std::process::Abort;

/// Three frames, each between flags: 156 bits.
const THREE: &str = "flag call flag reply flag notice flag";

fn check_frame(rt: &impl Abort, log: &ReportLog, index: usize, span: Span, octets: &[u8]) {
    let report = log.reports().get(index).expect(rt, "no report");
    let LoggedPiece::Frame {
        span: found,
        octets: copy,
    } = &report.piece
    else {
        panic!(rt; "no frame");
    };
    let case = format_args!("report {index}");
    same(rt, *found, span, &case);
    same(rt, copy.as_slice(), octets, &case);
    holds(rt, !report.stray, &case);
    same(rt, report.verdict.is_some(), index == 1, &case);
}

/// The place `bits` after `origin`.
fn behind(origin: u64, first: u64, past: u64) -> Span {
    Span {
        first: origin.saturating_add(first),
        past: origin.saturating_add(past),
    }
}

/// The three frames of a log, the first bit of whose list has the place `origin`.
fn check_log(rt: &impl Abort, log: &ReportLog, origin: u64) {
    same(rt, log.reports().len(), 3, "how many reports there are");
    let call = behind(origin, 8, 49);
    check_frame(rt, log, 0, call, &[0x10, 0x83, 0x00, 0xfd, 0xe5]);
    let reply = behind(origin, 57, 98);
    check_frame(rt, log, 1, reply, &[0x10, 0x83, 0x80, 0xf5, 0x61]);
    let notice = behind(origin, 106, 148);
    check_frame(rt, log, 2, notice, &[0xff, 0x83, 0x09, 0x5a, 0x3b]);
}

fn check_listed(rt: &impl Abort, alloc: Global, origin: u64, room: usize) {
    let bits = bits_of(rt, alloc, THREE);
    let dictionary = read(rt, alloc, CALLS);
    let log = reports_of(alloc, dictionary, origin, &bits, room).expect(rt, "reports");
    check_log(rt, &log, origin);
    let case = format_args!("room for {room} from {origin}");
    same(rt, log.room(), room, &case);
    same(rt, log.refused(), 0, &case);
}

/// All reports of a list, in a log with just the room for them, with more, and at the last place.
#[test]
fn listed(rt: HostRuntime) {
    check_listed(&rt, rt.alloc(), 0, 3);
    check_listed(&rt, rt.alloc(), 0, 4);
    check_listed(&rt, rt.alloc(), FAR - 156, 3);
}

fn check_unlisted(rt: &impl Abort, alloc: Global, origin: u64, room: usize, want: RunFault) {
    let bits = bits_of(rt, alloc, THREE);
    let dictionary = read(rt, alloc, CALLS);
    let fault = reports_of(alloc, dictionary, origin, &bits, room).err();
    same(
        rt,
        fault,
        Some(want),
        format_args!("room for {room} from {origin}"),
    );
}

/// Each reason why the reports of a list are not given.
#[test]
fn unlisted(rt: HostRuntime) {
    let alloc = rt.alloc();
    let full = RunFault::Feed(FeedFault::Sink { consumed: 156 });
    check_unlisted(&rt, alloc, 0, 2, full);
    let none = RunFault::Feed(FeedFault::Sink { consumed: 57 });
    check_unlisted(&rt, alloc, 0, 0, none);
    let far = RunFault::Feed(FeedFault::PlaceLimit);
    check_unlisted(&rt, alloc, FAR - 155, 0, far);
    check_unlisted(&rt, alloc, FAR + 1, 0, RunFault::New(NewFault::Origin));
}

/// The usage after the three frames, with a history of two.
fn usage_of(folded: u64) -> Usage {
    Usage {
        buffered: 0,
        history_len: 2,
        spent: Spent {
            shifted: 156,
            assembled: 120,
            folded,
            stored: 15,
            copied: 15,
            handled: 18,
        },
    }
}

fn check_run<C: Check>(rt: &impl Abort, alloc: Global, folded: u64) {
    let bits = bits_of(rt, alloc, THREE);
    let (front, rest) = bits.split_at_checked(68).expect(rt, "too few bits");
    let mut log = ReportLog::new(alloc, 3).expect(rt, "a log");
    let dictionary = read(rt, alloc, CALLS);
    let run = run_all::<C, ReportLog>(
        alloc,
        dictionary,
        2,
        0,
        &[front, &[], rest],
        &mut log,
    ).expect(rt, "a run");
    check_log(rt, &log, 0);
    same(rt, run.usage, usage_of(folded), "the usage of the run");
    same(
        rt,
        run.analyser.usage(),
        run.usage,
        "the usage of its analyser",
    );
}

/// The same bits in three pieces, one of them empty.
#[test]
fn whole_runs(rt: HostRuntime) {
    check_run::<BitCheck>(&rt, rt.alloc(), 120);
    check_run::<OctetCheck>(&rt, rt.alloc(), 15);
}

/// A run into a log with room for one report.
fn check_fault(rt: &impl Abort, alloc: Global, depth: usize, origin: u64, want: RunFault) {
    let bits = bits_of(rt, alloc, THREE);
    let mut log = ReportLog::new(alloc, 1).expect(rt, "a log");
    let dictionary = read(rt, alloc, CALLS);
    let run = run_all::<OctetCheck, ReportLog>(
        alloc,
        dictionary,
        depth,
        origin,
        &[&bits],
        &mut log,
    );
    same(
        rt,
        run.err(),
        Some(want),
        format_args!("depth {depth} from {origin}"),
    );
}

/// Each reason why a run ends early.
#[test]
fn run_faults(rt: HostRuntime) {
    let alloc = rt.alloc();
    let depth = RunFault::New(NewFault::DepthRange);
    check_fault(&rt, alloc, 0, 0, depth);
    check_fault(&rt, alloc, 1025, FAR + 1, depth);
    check_fault(&rt, alloc, 1, FAR + 1, RunFault::New(NewFault::Origin));
    let far = RunFault::Feed(FeedFault::PlaceLimit);
    check_fault(&rt, alloc, 1, FAR - 155, far);
    let full = RunFault::Feed(FeedFault::Sink { consumed: 106 });
    check_fault(&rt, alloc, 1024, 0, full);
}
