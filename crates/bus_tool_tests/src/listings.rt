//! Captures by honest and by failing readers and writers.

use crate::expect::{holds, same};
use crate::worked::{
    CALL, CALL_AND_REPLY, CALL_AND_REPLY_TEXT, CALL_TEXT, FLAG, IDLE, MISSING_AND_SPOILT_REPORT,
    NONE, ONE_CALL_TEXT, PACKED, REPLY, joined, of_text, run_over,
};
use bus_dictionary::DictFault;
use bus_rows::CALLS;
use bus_rows::fakes::{Counted, Faltering, Fixed, Narrow, Pieces, Repeated};
use bus_tool::{Lines, Options, Summary, ToolFault, check_capture, list_capture};
use std::alloc::{AllocError, Global};
use std::fmt::Display;
use std::process::Abort;

/// A reader of so many octets a call, which fails at one of them if that is not 0.
fn pieces(rest: &[u8], piece: usize, fails_at: u64) -> Pieces<'_> {
    Pieces {
        rest,
        piece,
        calls: 0,
        fails_at,
    }
}

/// A text capture with so many spaces after each bit.
pub fn spaced(alloc: Global, capture: &[u8], spaces: usize) -> Result<Vec<u8>, AllocError> {
    let mut wide = Vec::new(alloc);
    for mark in capture {
        wide.push(*mark)?;
        for _space in 0..spaces {
            wide.push(b' ')?;
        }
    }
    Ok(wide)
}

fn lines_of(two: bool) -> Lines {
    if two { Lines::Two } else { Lines::One }
}

/// Lists or checks these octets without end: what is written when the reads are used up.
fn check_endless(
    rt: &impl Abort,
    alloc: Global,
    two: bool,
    checks: bool,
    octets: &[u8],
    text: &str,
) {
    let case = format_args!("an endless reader, two: {two}, checks: {checks}");
    let options = Options {
        reads: 20,
        lines: lines_of(two),
        ..of_text(None)
    };
    let mut reader = Repeated {
        octets,
        left: u64::MAX,
        calls: 0,
    };
    let mut out = Vec::new(alloc);
    let ending = run_over(checks, alloc, &options, &mut reader, &mut out);
    same(rt, ending, Err(ToolFault::ReadsLimit), &case);
    same(rt, out.as_slice(), text.as_bytes(), &case);
    same(rt, reader.calls, 20, &case);
}

#[test]
fn endless_reader(rt: HostRuntime) {
    let alloc = rt.alloc();
    check_endless(&rt, alloc, false, false, b"1", "0 15 idle\n");
    check_endless(&rt, alloc, false, true, b"1", "");
    check_endless(&rt, alloc, true, false, b"3", "1 0 15 idle\n2 0 15 idle\n");
    check_endless(&rt, alloc, true, true, b"3", "");
}

/// The fault of a capture whose octet at this place is no mark.
fn bad_mark(at: u128) -> Option<ToolFault> {
    Some(ToolFault::BadMark { at })
}

/// The fault of a writer that failed after so many octets.
fn cut_after(written: u128) -> Option<ToolFault> {
    Some(ToolFault::Write { written })
}

/// Lists a capture of these parts into a writer whose flush may fail: the fault that is wanted, and how many flushes.
fn check_flushes(
    rt: &impl Abort,
    alloc: Global,
    parts: &[&str],
    fails: bool,
    want: Option<ToolFault>,
    flushes: u64,
) {
    let case = format_args!("{parts:?}, fails: {fails}");
    let capture = joined(alloc, parts).expect(rt, "memory");
    let mut writer = Narrow::new(alloc, 1000, fails);
    let mut reader = capture.as_slice();
    let ending = list_capture(alloc, &of_text(Some(CALLS)), &mut reader, &mut writer);
    same(rt, ending.err(), want, &case);
    same(rt, writer.flushes, flushes, &case);
}

/// Once after a text that is not empty, also before a fault, whose place a failing flush takes.
#[test]
fn flushes(rt: HostRuntime) {
    let alloc = rt.alloc();
    check_flushes(&rt, alloc, &[], true, None, 0);
    check_flushes(&rt, alloc, &["2"], true, bad_mark(0), 0);
    check_flushes(&rt, alloc, &[FLAG, CALL, FLAG], false, None, 1);
    check_flushes(&rt, alloc, &CALL_AND_REPLY, true, cut_after(126), 1);
    check_flushes(&rt, alloc, &[IDLE, "2"], false, bad_mark(15), 1);
    check_flushes(&rt, alloc, &[IDLE, "2"], true, cut_after(10), 1);
    // The only line is that of the end.
    check_flushes(&rt, alloc, &[FLAG, "0"], false, None, 1);
    check_flushes(&rt, alloc, &[FLAG, "0"], true, cut_after(9), 1);
    // The error of a reader after a line gives way to that of the flush, too.
    let capture = joined(alloc, &CALL_AND_REPLY).expect(&rt, "memory");
    let mut writer = Narrow::new(alloc, 1000, true);
    let mut reader = pieces(capture.as_slice(), 1, 107);
    let ending = list_capture(alloc, &of_text(Some(CALLS)), &mut reader, &mut writer);
    let case = "a failing read and flush";
    same(&rt, ending.err(), cut_after(126), case);
}

/// What of a call and its reply is listed before this read of one octet fails.
fn listed_before(read: u64) -> &'static str {
    match read {
        0..=57 => "",
        58..=106 => CALL_TEXT,
        _ => CALL_AND_REPLY_TEXT,
    }
}

/// An error of a reader is a fault, and no end of the capture, at whichever read: before a report no line is written,
/// and a check writes none at all.
#[test]
fn failing_reads(rt: HostRuntime) {
    let alloc = rt.alloc();
    let capture = joined(alloc, &CALL_AND_REPLY).expect(&rt, "memory");
    for fails_at in 1..=107u64 {
        for (checks, text) in [(false, listed_before(fails_at)), (true, "")] {
            let case = format_args!("read {fails_at}, checks: {checks}");
            let mut reader = pieces(capture.as_slice(), 1, fails_at);
            let mut out = Vec::new(alloc);
            let ending = run_over(checks, alloc, &of_text(Some(CALLS)), &mut reader, &mut out);
            same(&rt, ending, Err(ToolFault::Read), &case);
            same(&rt, out.as_slice(), text.as_bytes(), &case);
        }
    }
}

/// Lists a capture of these parts into a writer with this room, which is too small for the text.
fn check_narrow(rt: &impl Abort, alloc: Global, parts: &[&str], text: &str, room: usize) {
    let capture = joined(alloc, parts).expect(rt, "memory");
    let mut reader = capture.as_slice();
    let mut writer = Narrow::new(alloc, room, false);
    let ending = list_capture(alloc, &of_text(Some(CALLS)), &mut reader, &mut writer);
    same(rt, ending.err(), cut_after(room as u128), room);
    same(
        rt,
        writer.out.as_slice(),
        &text.as_bytes()[..room.min(text.len())],
        room,
    );
}

/// A writer that is full after so many octets took just these.
#[test]
fn narrow_writers(rt: HostRuntime) {
    let alloc = rt.alloc();
    check_narrow(&rt, alloc, &[FLAG, CALL, FLAG], ONE_CALL_TEXT, 12);
    for room in 0..CALL_AND_REPLY_TEXT.len() {
        check_narrow(&rt, alloc, &CALL_AND_REPLY, CALL_AND_REPLY_TEXT, room);
    }
}

/// A packed capture, by pieces of every size, and cut short at every octet.
#[test]
fn packed_pieces(rt: HostRuntime) {
    let alloc = rt.alloc();
    let options = Options {
        text: false,
        ..of_text(Some(CALLS))
    };
    for size in 1..=PACKED.len() {
        let mut out = Vec::new(alloc);
        let ending = list_capture(alloc, &options, &mut pieces(&PACKED, size, 0), &mut out);
        same(&rt, ending, Ok(Summary { frames: 1, ..NONE }), size);
        same(&rt, out.as_slice(), ONE_CALL_TEXT.as_bytes(), size);
    }
    for size in 0..PACKED.len() {
        let mut out = Vec::new(alloc);
        let mut reader = &PACKED[..size];
        let ending = list_capture(alloc, &options, &mut reader, &mut out);
        let want = if size < 16 {
            ToolFault::ShortHead
        } else {
            ToolFault::ShortBody
        };
        same(&rt, ending, Err(want), size);
        holds(&rt, out.is_empty(), size);
    }
}

/// A call without an answer, and one whose answer may be destroyed: the report, and a summary that is not clean.
#[test]
fn missing_and_spoilt(rt: HostRuntime) {
    let alloc = rt.alloc();
    let parts = [
        FLAG,
        CALL,
        FLAG,
        CALL,
        FLAG,
        "000000000000000000000000",
        FLAG,
    ];
    let capture = joined(alloc, &parts).expect(&rt, "memory");
    let mut reader = capture.as_slice();
    let mut out = Vec::new(alloc);
    let summary = check_capture(alloc, &of_text(Some(CALLS)), &mut reader, &mut out).expect(
        &rt, "a report",
    );
    holds(&rt, !summary.is_clean(), "a summary that is not clean");
    same(
        &rt,
        out.as_slice(),
        MISSING_AND_SPOILT_REPORT.as_bytes(),
        "the report",
    );
}

/// A writer that is full takes nothing of what is left: a fault of the writer, with what it took.
#[test]
fn full_writer(rt: HostRuntime) {
    let parts = [
        FLAG, CALL, FLAG, REPLY, FLAG, CALL, FLAG, REPLY, FLAG, CALL, FLAG, REPLY, FLAG,
    ];
    let capture = joined(rt.alloc(), &parts).expect(&rt, "memory");
    let mut reader = capture.as_slice();
    let mut writer = Fixed::new();
    let ending = list_capture(rt.alloc(), &of_text(Some(CALLS)), &mut reader, &mut writer);
    same(&rt, ending.err(), cut_after(256), "a full writer");
    same(&rt, writer.out.len(), 256, "what a full writer took");
}

/// Lists and checks under options of which one is refused with this fault, before reader and writer are called.
fn check_judged(
    rt: &impl Abort,
    alloc: Global,
    dictionary: Option<&str>,
    depth: usize,
    origin: u64,
    fault: &ToolFault,
) {
    let options = Options {
        depth,
        origin,
        ..of_text(dictionary)
    };
    for checks in [false, true] {
        let case = format_args!("depth {depth}, origin {origin}, checks: {checks}");
        let mut reader = pieces(b"2", 1, 0);
        let mut writer = Narrow::new(alloc, 0, true);
        let ending = run_over(checks, alloc, &options, &mut reader, &mut writer);
        same(rt, ending.as_ref().err(), Some(fault), &case);
        same(rt, reader.calls, 0, &case);
        same(rt, writer.flushes, 0, &case);
    }
}

/// The dictionary is judged first, then the depth, then the origin.
#[test]
fn judged_before(rt: HostRuntime) {
    let alloc = rt.alloc();
    let past = (1 << 60) + 1;
    let not_toml = ToolFault::Dictionary(DictFault::NotToml);
    let version = ToolFault::Dictionary(DictFault::Version);
    let no_frames = ToolFault::Dictionary(DictFault::NoFrames);
    check_judged(&rt, alloc, Some("version"), 0, past, &not_toml);
    check_judged(&rt, alloc, Some(""), 16, 0, &version);
    check_judged(&rt, alloc, Some("version = 1"), 16, 0, &no_frames);
    check_judged(&rt, alloc, None, 0, past, &ToolFault::Depth);
    check_judged(&rt, alloc, Some(CALLS), 1025, 0, &ToolFault::Depth);
    check_judged(&rt, alloc, Some(CALLS), 1024, past, &ToolFault::Origin);
    check_judged(&rt, alloc, None, 1, past, &ToolFault::Origin);
}

/// Both lines of a place are told, and the text is flushed once, also where a mark after it is bad.
#[test]
fn flushes_of_two_lines(rt: HostRuntime) {
    let options = Options {
        lines: Lines::Two,
        ..of_text(None)
    };
    for fails in [false, true] {
        let case = format_args!("two lines, fails: {fails}");
        let mut reader: &[u8] = b"3333333333333334";
        let mut writer = Narrow::new(rt.alloc(), 1000, fails);
        let ending = list_capture(rt.alloc(), &options, &mut reader, &mut writer);
        let want = if fails { cut_after(24) } else { bad_mark(15) };
        same(&rt, ending.err(), want, &case);
        same(&rt, writer.out.len(), 24, &case);
        same(&rt, writer.flushes, 1, &case);
    }
}

/// A listing ends at the first write that fails, though the next one would not. Of two lines that have flags with a 0
/// between each two the lines of one read fill more than a page.
#[test]
fn one_failing_write(rt: HostRuntime) {
    let mut capture = Vec::new(rt.alloc());
    for _piece in 0..499u64 {
        capture
            .extend_from_slice(b"033333300")
            .expect(&rt, "memory");
    }
    capture.extend_from_slice(b"03333330").expect(&rt, "memory");
    let all = Summary {
        damaged: 998,
        ..NONE
    };
    let options = Options {
        lines: Lines::Two,
        ..of_text(None)
    };
    for (fails_at, want) in [(0, Ok(all)), (1, Err(ToolFault::Write { written: 0 }))] {
        let case = format_args!("write {fails_at}");
        let mut reader = capture.as_slice();
        let mut writer = Faltering {
            octets: 0,
            writes: 0,
            fails_at,
        };
        let ending = list_capture(rt.alloc(), &options, &mut reader, &mut writer);
        same(&rt, ending, want, &case);
        same(&rt, writer.octets > 0, fails_at == 0, &case);
        same(&rt, writer.writes == 1, fails_at == 1, &case);
    }
}

/// A call, and the flag after it.
const CALL_AND_FLAG: &[u8] = b"00001000 11000001 00000000 101111101 10100111 01111110";

/// Lists or checks that call 1100 times. Two attempts: a refusal of memory comes before the first read and write.
fn check_attempts(
    rt: &impl Abort,
    alloc: Global,
    checks: bool,
    two: bool,
    case: impl Display + Copy + Drop,
) {
    let options = Options {
        depth: 1024,
        lines: lines_of(two),
        ..of_text(Some(CALLS))
    };
    let want = Summary {
        frames: 1099,
        missing: 1098,
        ..NONE
    };
    let mut is_refused = false;
    for _attempt in 0..2 {
        let mut reader = Repeated {
            octets: CALL_AND_FLAG,
            left: 1100,
            calls: 0,
        };
        let mut writer = Counted::new();
        let ending = run_over(checks, alloc, &options, &mut reader, &mut writer);
        if ending == Err(ToolFault::Memory) {
            holds(rt, !is_refused, case);
            same(rt, reader.calls, 0, case);
            same(rt, writer, Counted::new(), case);
            is_refused = true;
        } else {
            same(rt, ending, Ok(want), case);
            same(rt, [reader.calls, writer.flushes], [1101, 1], case);
        }
    }
}

/// To be run with each request for memory refused in turn. The next attempt succeeds. The first of the calls has no
/// flag before it. As marks of two lines the capture says the same of the first line, and nothing of the second.
#[test]
fn refused_memory(rt: HostRuntime) {
    let alloc = rt.alloc();
    check_attempts(&rt, alloc, false, false, "a line is listed");
    check_attempts(&rt, alloc, true, false, "a line is checked");
    check_attempts(&rt, alloc, false, true, "two lines are listed");
    check_attempts(&rt, alloc, true, true, "two lines are checked");
}
