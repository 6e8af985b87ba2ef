//! The program, by its words.

use crate::expect::{holds, same};
use crate::worked::{
    CALL_ON_FIRST, CALL_TEXT, ONE_CALL_TEXT, PACKED, PACKED_TWO, REPLY_ON_SECOND, TWO_LINES_REPORT,
    TWO_LINES_TEXT, marked,
};
use bus_rows::CALLS;
use bus_rows::fakes::{Fixed, Narrow};
use bus_tool::run;
use std::alloc::Global;
use std::process::Abort;

const IDLE: &[u8] = b"11111111 1111111\n";

/// One call between flags.
const CALL: &[u8] = b"01111110 00001000110000010000000010111110110100111 01111110\n";

/// What is shown of the frame of that call.
const SHOWN_CALL: &str = "frame 108300fde5 good\nstation 16 type 0 call\n";

/// Runs the program over an input: its status, what it writes, and what it tells.
fn see(rt: &impl Abort, alloc: Global, words: &[&str], input: &[u8], want: (u8, &str, &str)) {
    let (status, text, told) = want;
    let case = format_args!("{words:?}");
    let mut reader = input;
    let mut out = Vec::new(alloc);
    let mut err = Vec::new(alloc);
    let got = run(alloc, words, &mut reader, &mut out, &mut err);
    let faults = std::str::from_utf8(err.as_slice()).ok();
    let written = std::str::from_utf8(out.as_slice()).ok();
    same(rt, faults, Some(told), &case);
    same(rt, written, Some(text), &case);
    same(rt, got, status, &case);
}

/// No words at all list a text capture, `encode` writes bits, and `check` tells the place of a bad mark.
#[test]
fn stored_runs(rt: HostRuntime) {
    see(
        &rt,
        rt.alloc(),
        &[],
        CALL,
        (0, "8 49 frame 108300fde5\n", ""),
    );
    see(
        &rt,
        rt.alloc(),
        &["encode"],
        b"idle\n",
        (0, "111111111111111\n", ""),
    );
    let told = "port1: capture: octet 2 is no bit\n";
    see(&rt, rt.alloc(), &["check", "--bits"], b"1 2", (2, "", told));
}

/// A capture of two lines, listed and checked.
#[test]
fn two_lines(rt: HostRuntime) {
    let capture = marked(rt.alloc(), &CALL_ON_FIRST, &REPLY_ON_SECOND).expect(&rt, "memory");
    for (command, text) in [("list", TWO_LINES_TEXT), ("check", TWO_LINES_REPORT)] {
        let words = [command, "--two", "--bits", "--dict", CALLS];
        see(&rt, rt.alloc(), &words, capture.as_slice(), (0, text, ""));
    }
    let text = "1 8 49 frame 108300fde5\n";
    let words = ["list", "--two", "--kind", "frame"];
    see(&rt, rt.alloc(), &words, &PACKED_TWO, (0, text, ""));
    let told = "port1: capture: wrong magic\n";
    see(&rt, rt.alloc(), &["list", "--two"], &PACKED, (2, "", told));
    see(&rt, rt.alloc(), &["check"], &PACKED_TWO, (2, "", told));
}

/// Runs the program over an input into a writer that soon is full, and into one that fails to flush.
fn check_writers(rt: &impl Abort, alloc: Global, words: &[&str], input: &[u8]) {
    for (room, fails_flush) in [(5, false), (10000, true)] {
        let case = format_args!("{words:?}, room for {room}");
        let mut writer = Narrow::new(alloc, room, fails_flush);
        let mut reader = input;
        let mut err = Vec::new(alloc);
        let got = run(alloc, words, &mut reader, &mut writer, &mut err);
        same(rt, got, 2, &case);
        same(rt, err.as_slice(), b"port1: write failed\n", &case);
        same(rt, writer.flushes, u64::from(fails_flush), &case);
    }
}

/// A write that fails is not followed by a flush, and a text that was written by just one.
#[test]
fn writers_fail(rt: HostRuntime) {
    let alloc = rt.alloc();
    check_writers(&rt, alloc, &["--help"], IDLE);
    check_writers(&rt, alloc, &["--version"], IDLE);
    check_writers(&rt, alloc, &["list", "--bits"], IDLE);
    check_writers(&rt, alloc, &["check", "--bits"], IDLE);
    check_writers(&rt, alloc, &["list", "--bits", "--two"], IDLE);
    check_writers(&rt, alloc, &["check", "--bits", "--two"], IDLE);
    check_writers(&rt, alloc, &["show", "108300fde5"], IDLE);
    check_writers(&rt, alloc, &["encode"], b"idle\n");
}

/// Runs the program where nobody takes its faults: what it writes in spite of them.
fn check_deaf(rt: &impl Abort, alloc: Global, words: &[&str], text: &str) {
    let case = format_args!("{words:?}");
    let mut deaf = Narrow::new(alloc, 0, true);
    let mut reader: &[u8] = b"01111110 00001000110000010000000010111110110100111 01111110 x";
    let mut out = Vec::new(alloc);
    let got = run(alloc, words, &mut reader, &mut out, &mut deaf);
    same(rt, got, 2, &case);
    same(rt, out.as_slice(), text.as_bytes(), &case);
}

/// That faults can't be told changes neither the status nor the lines before them.
#[test]
fn deaf_faults(rt: HostRuntime) {
    let listed = ["list", "--bits", "--dict", CALLS];
    check_deaf(&rt, rt.alloc(), &listed, CALL_TEXT);
    check_deaf(&rt, rt.alloc(), &["nonsense"], "");
    check_deaf(&rt, rt.alloc(), &["list", "--kind", "nonsense"], "");
}

/// Runs the program twice, of which one attempt may be refused memory: nothing is read or written then.
fn check_attempts(rt: &impl Abort, alloc: Global, words: &[&str], capture: &[u8], text: &str) {
    let case = format_args!("{words:?}");
    let mut is_refused = false;
    for _attempt in 0..2 {
        let mut reader = capture;
        let mut writer = Fixed::new();
        let mut told = Fixed::new();
        let status = run(alloc, words, &mut reader, &mut writer, &mut told);
        if status == 2 {
            holds(rt, !is_refused, &case);
            same(rt, reader.len(), capture.len(), &case);
            holds(rt, writer.out.is_empty(), &case);
            same(rt, told.out.as_slice(), b"port1: no memory\n", &case);
            is_refused = true;
        } else {
            same(rt, status, 0, &case);
            same(rt, writer.out.as_slice(), text.as_bytes(), &case);
            holds(rt, told.out.is_empty(), &case);
        }
    }
}

/// To be run with each request for memory refused in turn. The next attempt succeeds.
#[test]
fn refused_memory(rt: HostRuntime) {
    let alloc = rt.alloc();
    let listed = ["list", "--dict", CALLS, "--origin", "0"];
    let pending = ["list", "--two", "--dict", CALLS, "--kind", "pending"];
    let pending_text = "1 8 49 pending station 16 type 0\n";
    let shown = ["show", "--dict", CALLS, "108300fde5"];
    check_attempts(&rt, alloc, &listed, &PACKED, ONE_CALL_TEXT);
    check_attempts(&rt, alloc, &pending, &PACKED_TWO, pending_text);
    check_attempts(&rt, alloc, &shown, &PACKED, SHOWN_CALL);
}
