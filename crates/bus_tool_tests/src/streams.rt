//! How many reads there are.

ghost use Rattle.std.specs.Prelude.{◌≤◌};

use crate::expect::{holds, same};
use crate::listings::spaced;
use crate::worked::{
    ANSWERED, CALL_AND_REPLY, CALL_AND_REPLY_REPORT, CALL_AND_REPLY_TEXT, joined, of_text, run_over,
};
use bus_rows::CALLS;
use bus_rows::fakes::{Counted, Pieces, Repeated};
use bus_tool::{Options, ToolFault, encode_frames, run};
use std::alloc::Global;
use std::fmt::Display;
use std::process::Abort;

/// The octets of the input that is read.
const OCTETS: usize = 5406;

/// How many octets a read gives at most, how many reads are granted, how many are made, and whether the last of
/// them answers the end.
#[derive(Clone, Copy)]
struct ReadsRow {
    piece: usize,
    reads: u64,
    calls: u64,
    is_enough: bool,
}

impl ReadsRow {
    /// How many octets are read.
    fn octets(&self) -> usize
        ensures { result ≤ 5406 }
    {
        self.piece.saturating_mul(self.calls as usize).min(OCTETS)
    }
}

/// Of an input of 5406 octets; a read after them answers the end.
const GRANTED: [ReadsRow; 8] = [
    ReadsRow {
        piece: 1,
        reads: 0,
        calls: 0,
        is_enough: false,
    },
    ReadsRow {
        piece: 1,
        reads: 1,
        calls: 1,
        is_enough: false,
    },
    ReadsRow {
        piece: 1,
        reads: 4097,
        calls: 4097,
        is_enough: false,
    },
    ReadsRow {
        piece: 1,
        reads: 5406,
        calls: 5406,
        is_enough: false,
    },
    ReadsRow {
        piece: 1,
        reads: 5407,
        calls: 5407,
        is_enough: true,
    },
    ReadsRow {
        piece: 1,
        reads: u64::MAX,
        calls: 5407,
        is_enough: true,
    },
    // 772 reads of seven octets, and one of two
    ReadsRow {
        piece: 7,
        reads: 773,
        calls: 773,
        is_enough: false,
    },
    ReadsRow {
        piece: 7,
        reads: 774,
        calls: 774,
        is_enough: true,
    },
];

/// A reader of so many octets each call.
fn by_pieces(rest: &[u8], piece: usize) -> Pieces<'_> {
    Pieces {
        rest,
        piece,
        calls: 0,
        fails_at: 0,
    }
}

/// Checks or lists a capture of 5406 octets, with as many reads as the row grants.
fn check_capture_reads(
    rt: &impl Abort,
    alloc: Global,
    row: ReadsRow,
    capture: &[u8],
    checks: bool,
    text: &str,
    case: impl Display + Copy + Drop,
) {
    let options = Options {
        reads: row.reads,
        ..of_text(Some(CALLS))
    };
    let mut reader = by_pieces(capture, row.piece);
    let mut out = Vec::new(alloc);
    let ending = run_over(checks, alloc, &options, &mut reader, &mut out);
    let want = if row.is_enough {
        Ok(ANSWERED)
    } else {
        Err(ToolFault::ReadsLimit)
    };
    same(rt, ending, want, case);
    same(rt, reader.calls, row.calls, case);
    if row.is_enough || row.octets() == OCTETS && !checks {
        same(rt, out.as_slice(), text.as_bytes(), case);
    } else if checks {
        holds(rt, out.is_empty(), case);
    }
}

#[test]
fn reads_of_captures(rt: HostRuntime) {
    let alloc = rt.alloc();
    let capture = joined(alloc, &CALL_AND_REPLY).expect(&rt, "memory");
    let wide = spaced(alloc, &capture, 50).expect(&rt, "memory");
    same(&rt, wide.len(), OCTETS, "how many octets the capture has");
    for row in GRANTED {
        let case = format_args!("{} reads of a capture", row.reads);
        check_capture_reads(&rt, alloc, row, &wide, false, CALL_AND_REPLY_TEXT, &case);
        check_capture_reads(&rt, alloc, row, &wide, true, CALL_AND_REPLY_REPORT, &case);
    }
}

/// Encodes lines of 5406 octets, with as many reads as the row grants.
fn check_line_reads(
    rt: &impl Abort,
    row: ReadsRow,
    lines: &[u8],
    case: impl Display + Copy + Drop,
) {
    let mut reader = by_pieces(lines, row.piece);
    let mut writer = Counted::new();
    let ending = encode_frames(row.reads, &mut reader, &mut writer);
    let want = if row.is_enough {
        Ok(())
    } else {
        Err(ToolFault::ReadsLimit)
    };
    same(rt, ending, want, case);
    same(rt, reader.calls, row.calls, case);
    // A line has five octets, with an empty one after it, and its text nine with the LF.
    let texts = (row.octets() as u64 + 1) / 6;
    same(rt, writer.octets, 9 * texts, case);
    same(rt, writer.empty_writes, 0, case);
    same(rt, writer.flushes, u64::from(texts > 0), case);
}

#[test]
fn reads_of_lines(rt: HostRuntime) {
    let mut lines = Vec::new(rt.alloc());
    for _line in 0..901 {
        lines.extend_from_slice(b"flag\n\n").expect(&rt, "memory");
    }
    same(&rt, lines.len(), OCTETS, "how many octets the lines have");
    for row in GRANTED {
        let case = format_args!("{} reads of lines", row.reads);
        check_line_reads(&rt, row, &lines, &case);
    }
}

/// Runs the program over 2^20 empty lines, of which each read gives one.
fn check_many_reads(rt: &impl Abort, alloc: Global, words: &[&str], case: &str) {
    let mut reader = Repeated {
        octets: b"\n",
        left: 1 << 20,
        calls: 0,
    };
    let mut out = Counted::new();
    let mut told = Counted::new();
    let status = run(alloc, words, &mut reader, &mut out, &mut told);
    same(rt, status, 0, case);
    same(rt, reader.calls, (1 << 20) + 1, case);
}

/// More reads than other bounds would let pass.
#[test]
fn many_reads_of_the_program(rt: HostRuntime) {
    check_many_reads(&rt, rt.alloc(), &["list", "--bits"], "list");
    check_many_reads(&rt, rt.alloc(), &["check", "--bits"], "check");
    check_many_reads(&rt, rt.alloc(), &["encode"], "encode");
}
