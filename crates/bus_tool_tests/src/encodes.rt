//! Lines that are encoded.

use crate::expect::{holds, same};
use bus_rows::fakes::{Fixed, Narrow, Pieces, Repeated};
use bus_tool::{ToolFault, encode_frames};
use std::alloc::Global;
use std::process::Abort;

/// Three calls: two frames, and an idle between them.
const THREE: &[u8] = b"frame 108300\nidle\nframe 1083fe\n";

/// What the lines give in all: a flag, the octets and their check with inserted 0s, and a flag.
const THREE_TEXT: &str = "011111100000100011000001000000001011111011010011101111110\n\
    111111111111111\n\
    0111111000001000110000010111110110011000011011111001111110\n";

#[test]
fn endless_reader(rt: HostRuntime) {
    let mut reader = Repeated {
        octets: b"\n",
        left: u64::MAX,
        calls: 0,
    };
    let mut out = Vec::new(rt.alloc());
    let ending = encode_frames(20, &mut reader, &mut out);
    same(&rt, ending, Err(ToolFault::ReadsLimit), "an endless reader");
    holds(&rt, out.is_empty(), "nothing is written");
    same(&rt, reader.calls, 20, "the reads of an endless reader");
}

/// What the lines before the refused one give.
#[test]
fn refused_lines(rt: HostRuntime) {
    for (lines, want, text) in [
        ("frame 10", ToolFault::FrameLength(1), ""),
        ("flag\nframes 1083", ToolFault::BadLine(2), "01111110\n"),
    ] {
        let mut reader = lines.as_bytes();
        let mut writer = Fixed::new();
        same(
            &rt,
            encode_frames(100, &mut reader, &mut writer),
            Err(want),
            lines,
        );
        same(&rt, writer.out.as_slice(), text.as_bytes(), lines);
    }
}

/// An error of a reader is a fault, and no end of a line, at whichever read of one octet.
#[test]
fn failing_reads(rt: HostRuntime) {
    for fails_at in 1..=32u64 {
        let mut reader = Pieces {
            rest: THREE,
            piece: 1,
            calls: 0,
            fails_at,
        };
        let mut writer = Fixed::new();
        let length = match fails_at {
            0..=13 => 0,
            14..=18 => 58,
            19..=31 => 74,
            _ => THREE_TEXT.len(),
        };
        same(
            &rt,
            encode_frames(100, &mut reader, &mut writer),
            Err(ToolFault::Read),
            fails_at,
        );
        same(
            &rt,
            writer.out.as_slice(),
            &THREE_TEXT.as_bytes()[..length.min(THREE_TEXT.len())],
            fails_at,
        );
    }
}

/// Encodes lines into a writer whose flush may fail: how it is to end, and how many flushes are wanted.
fn check_flushes(
    rt: &impl Abort,
    alloc: Global,
    octets: &[u8],
    fails: bool,
    want: Result<(), ToolFault>,
    flushes: u64,
) {
    let case = format_args!("{octets:?}, fails: {fails}");
    let mut writer = Narrow::new(alloc, 1000, fails);
    let mut reader = octets;
    let ending = encode_frames(100, &mut reader, &mut writer);
    same(rt, ending, want, &case);
    same(rt, writer.flushes, flushes, &case);
}

/// Once after the text, also before a fault of a line, whose place a failing flush takes.
#[test]
fn flushes(rt: HostRuntime) {
    let alloc = rt.alloc();
    let written = Err(ToolFault::Write { written: 9 });
    check_flushes(&rt, alloc, b"", true, Ok(()), 0);
    check_flushes(&rt, alloc, b"\n", true, Ok(()), 0);
    check_flushes(&rt, alloc, b"x", true, Err(ToolFault::BadLine(1)), 0);
    check_flushes(&rt, alloc, THREE, false, Ok(()), 1);
    check_flushes(&rt, alloc, b"flag\nx", false, Err(ToolFault::BadLine(2)), 1);
    check_flushes(&rt, alloc, b"flag\nx", true, written, 1);
}

/// To be run with each request for memory refused in turn: there is none.
#[test]
fn takes_no_memory(rt: HostRuntime) {
    let mut reader = THREE;
    let mut writer = Fixed::new();
    let ending = encode_frames(100, &mut reader, &mut writer);
    let text = writer.out.as_slice();
    same(&rt, ending, Ok(()), "three lines");
    same(&rt, text, THREE_TEXT.as_bytes(), "the text of three lines");
}
