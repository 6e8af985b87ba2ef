//! Captures, dictionaries and texts of worked examples.

use bus_tool::{Lines, Options, Summary, ToolFault, check_capture, list_capture};
use std::alloc::{AllocError, Global};
use std::io::{Read, Write};

/// A flag. What follows stands between flags, in the order sent; a group of nine has one inserted 0.
pub const FLAG: &str = "01111110";

/// `10 83 00 fd e5`: to station 16, of type 0.
pub const CALL: &str = "00001000 11000001 00000000 101111101 10100111";

/// `10 83 80 f5 61`: from station 16, of type 128.
pub const REPLY: &str = "00001000 11000001 00000001 10101111 100000110";

/// A silent line.
pub const IDLE: &str = "111111111111111";

/// A call and its reply, 106 bits.
pub const CALL_AND_REPLY: [&str; 5] = [FLAG, CALL, FLAG, REPLY, FLAG];

pub const CALL_AND_REPLY_TEXT: &str = "\
8 49 frame 108300fde5 station 16 type 0 call
57 98 frame 108380f561 station 16 type 128 reply
8 49 answered station 16 type 0
";

/// The first of these lines.
pub const CALL_TEXT: &str = "8 49 frame 108300fde5 station 16 type 0 call\n";

/// One call, and nothing after its last flag.
pub const ONE_CALL_TEXT: &str = "\
8 49 frame 108300fde5 station 16 type 0 call
8 49 pending station 16 type 0
";

pub const CALL_AND_REPLY_REPORT: &str = "\
frames 2
damaged 0
overlong 0
aborts 0
idles 0
strays 0
answered 1
missing 0
spoilt 0
late 0
station 16 answered 1 missing 0 spoilt 0 late 0
last 8 49 108300fde5
last 57 98 108380f561
";

pub const MISSING_AND_SPOILT_REPORT: &str = "\
frames 2
damaged 1
overlong 0
aborts 0
idles 0
strays 0
answered 0
missing 1
spoilt 1
late 0
station 16 answered 0 missing 1 spoilt 1 late 0
last 8 49 108300fde5
last 57 98 108300fde5
";

/// Fifty-seven ones, as many bits as a call and its flags have.
pub const REST: &str = "111111111111111 111111111111111 111111111111111 111111111111";

/// A call on the first of two lines, and after it the reply on the second, 114 places.
pub const CALL_ON_FIRST: [&str; 4] = [FLAG, CALL, FLAG, REST];

pub const REPLY_ON_SECOND: [&str; 4] = [REST, FLAG, REPLY, FLAG];

pub const TWO_LINES_TEXT: &str = "\
2 0 15 idle
1 8 49 frame 108300fde5 station 16 type 0 call
1 57 72 idle
2 65 106 frame 108380f561 station 16 type 128 reply
1 8 49 answered station 16 type 0
";

pub const TWO_LINES_REPORT: &str = "\
frames 2
damaged 0
overlong 0
aborts 0
idles 2
strays 0
answered 1
missing 0
spoilt 0
late 0
station 16 answered 1 missing 0 spoilt 0 late 0
last 1 8 49 108300fde5
last 2 65 106 108380f561
";

/// A packed capture of one call: 57 bits, a flag, the frame and a flag.
pub const PACKED: [u8; 24] = [
    0x54, 0x53, 0x32, 0x42, 0x49, 0x54, 0x53, 0x31, 57, 0, 0, 0, 0, 0, 0, 0, 0x7e, 0x10, 0x83,
    0x00, 0x7d, 0xcb, 0xfd, 0x00,
];

/// A packed capture of two lines: the call on the first, and the second 0 all the time.
pub const PACKED_TWO: [u8; 31] = [
    0x54, 0x53, 0x32, 0x42, 0x49, 0x54, 0x53, 0x32, 57, 0, 0, 0, 0, 0, 0, 0, 0x54, 0x15, 0x00,
    0x01, 0x05, 0x40, 0x00, 0x00, 0x51, 0x15, 0x45, 0x50, 0x51, 0x55, 0x00,
];

/// A text capture by its parts, of which spaces are left out.
pub fn joined(alloc: Global, parts: &[&str]) -> Result<Vec<u8>, AllocError> {
    let mut capture = Vec::new(alloc);
    for part in parts {
        for mark in part.bytes() {
            if mark != b' ' {
                capture.push(mark)?;
            }
        }
    }
    Ok(capture)
}

/// A text capture of two lines by the parts of each, of which spaces are left out. They have as many
/// bits.
pub fn marked(alloc: Global, first: &[&str], second: &[&str]) -> Result<Vec<u8>, AllocError> {
    let first = joined(alloc, first)?;
    let second = joined(alloc, second)?;
    let mut capture = Vec::new(alloc);
    for (bit, other) in first.iter().zip(second.iter()) {
        capture.push(match (*bit, *other) {
            (b'0', b'0') => b'0',
            (_, b'0') => b'1',
            (b'0', _) => b'2',
            _ => b'3',
        })?;
    }
    Ok(capture)
}

/// A text capture from place 0 on, of which everything is listed, and all frames are kept.
pub fn of_text(dictionary: Option<&str>) -> Options<'_> {
    Options {
        dictionary,
        text: true,
        lines: Lines::One,
        rest: 0,
        origin: 0,
        depth: 16,
        station: None,
        ftype: None,
        kind: None,
        reads: 1000000,
    }
}

/// Nothing was seen.
pub const NONE: Summary = Summary {
    frames: 0,
    damaged: 0,
    overlong: 0,
    aborts: 0,
    idles: 0,
    strays: 0,
    answered: 0,
    missing: 0,
    spoilt: 0,
    late: 0,
};

/// What is counted in a call and its reply.
pub const ANSWERED: Summary = Summary {
    frames: 2,
    answered: 1,
    ..NONE
};

/// Checks a capture, or else lists it.
pub fn run_over<R: Read, W: Write>(
    checks: bool,
    alloc: Global,
    options: &Options<'_>,
    r: &mut R,
    w: &mut W,
) -> Result<Summary, ToolFault> {
    if checks {
        check_capture(alloc, options, r, w)
    } else {
        list_capture(alloc, options, r, w)
    }
}
