//! The memory that `reports_whole` asks for, and its answer where that is refused. `tests/memory` runs these tests with
//! each request refused in turn, and counts the requests.

use crate::expect::{holds, same};
use bus_line::{OwnedPiece, reports_whole};
use std::alloc::{AllocError, Global};
use std::process::Abort;

/// A frame, pieces that are damaged in each way, an overlong piece, an abort and an idle line.
const LIST: &str = "\
    01111110 00001000 11000001 00000000 101111101 10100111 \
    01111110 00000000 00000000 00000000 \
    01111110 00000000 00000000 00000000 00000000 0 \
    01111110 00000000 00000000 00000000 00000000 \
    01111110 00011111 \
    01111110 00000000 00000000 00000000 00000000 00000000 00000000 \
    01111110 0000 1111111 11111111";

/// How many bits these are.
const BITS: usize = 261;

/// The places of each report.
const PLACES: [(u64, u64); 8] = [
    (8, 49),
    (57, 81),
    (89, 122),
    (130, 162),
    (170, 178),
    (186, 234),
    (242, 246),
    (246, 261),
];

/// The bits of the list, in no memory.
fn list(rt: &impl Abort) -> [bool; BITS] {
    let mut bits = [false; BITS];
    let mut place: usize = 0;
    for mark in LIST.bytes() {
        if mark == b'0' || mark == b'1' {
            *bits.get_mut(place).expect(rt, "a bit") = mark == b'1';
            place = place.saturating_add(1);
        }
    }
    same(rt, place, BITS, "all bits taken");
    bits
}

/// The reports of a list. Where memory is refused to the first attempt, the second finds them.
fn reports_at_last(rt: &impl Abort, alloc: Global, bits: &[bool]) -> Vec<OwnedPiece> {
    assert!(rt; bits.len() <= 100_000, "a list");
    match reports_whole(alloc, bits, 3) {
        Ok(reports) => reports,
        Err(AllocError) => reports_whole(alloc, bits, 3).expect(rt, "memory"),
    }
}

/// Each kind of report.
#[test]
fn each_report(rt: HostRuntime) {
    let reports = reports_at_last(&rt, rt.alloc(), &list(&rt));
    same(&rt, reports.len(), PLACES.len(), "how many reports");
    for (report, (first, past)) in reports.iter().zip(PLACES) {
        let span = report.as_piece().span();
        same(
            &rt,
            (span.first, span.past),
            (first, past),
            format_args!("{first} to {past}"),
        );
    }
}

/// Of a long list without a report it asks for no memory.
#[test]
fn no_report(rt: HostRuntime) {
    let reports = reports_at_last(&rt, rt.alloc(), &[false; 100_000]);
    holds(&rt, reports.is_empty(), "no report");
}
