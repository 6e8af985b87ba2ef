//! The program `port1-sample`, by its words.

use crate::expect::same;
use bus_rows::fakes::{Narrow, Pieces};
use bus_sample_tool::{CountedReader, FaultOutput, run};
use std::alloc::Global;
use std::process::Abort;

/// What the program is given, its status, and what it writes to its output and about faults and facts.
#[derive(Clone, Copy)]
struct Run<'a> {
    words: &'a [&'a str],
    input: &'a [u8],
    status: u8,
    text: &'a str,
    faults: &'a str,
}

/// Samples as digits: the first line's clock is bit 0 and its data bit 1, the second line's are bits 2 and 3.
const SAMPLES: &[u8] = b"00112233001133220044ccdd8899";

const TEXT: &str = "010o0o0\n";

/// Levels 0 to 3, each in four samples.
const RUNS: [u8; 32] = [
    0, 4, 0, 0, 0, 0, 0, 0, 1, 4, 0, 0, 0, 0, 0, 0, 2, 4, 0, 0, 0, 0, 0, 0, 3, 4, 0, 0, 0, 0, 0, 0,
];

/// Two runs, which together have more samples than 2^60 by far if they are taken as they stand sixteen times.
const LONG_RUN: [u8; 8] = [1, 255, 255, 255, 255, 255, 255, 255];

/// Four bits, each of eight samples with a low clock and eight with a high one; data changes where the clock falls.
const BITS: &[u8] = b"2222222233333333000000001111111122222222333333332222222233333333";

const FACTS: &str =
    "samples 64\ntxc-level 1\ntxd-level 1\nrxc-level 0\nrxd-level 0\ntxc-changes 7 9 57\n\
txd-changes 2 17 33\nrxc-changes 0 0 0\nrxd-changes 0 0 0\nfirst-bits 4 9 57\nsecond-bits 0 0 0\nfirst-gap 16 9\n\
second-gap 0 0\ntxd-high 0 0 0\nrxd-high 0 0 0\nfirst-jumps 0 0 0\nsecond-jumps 0 0 0\n";

/// The facts of the first half of them.
const HALF: &str =
    "samples 32\ntxc-level 1\ntxd-level 0\nrxc-level 0\nrxd-level 0\ntxc-changes 3 9 25\n\
txd-changes 1 17 17\nrxc-changes 0 0 0\nrxd-changes 0 0 0\nfirst-bits 2 9 25\nsecond-bits 0 0 0\nfirst-gap 16 9\n\
second-gap 0 0\ntxd-high 0 0 0\nrxd-high 0 0 0\nfirst-jumps 0 0 0\nsecond-jumps 0 0 0\n";

/// What asks for facts after each read.
const LIVE: [&str; 4] = ["0", "1", "--facts", "--live"];

const FINE: [Run<'static>; 11] = [
    Run {
        words: &["0", "1", "2", "3", "--hold", "0"],
        input: SAMPLES,
        status: 0,
        text: TEXT,
        faults: "",
    },
    Run {
        words: &["0", "1"],
        input: b"2222322223333",
        status: 0,
        text: "1\n",
        faults: "",
    },
    Run {
        words: &["0", "1", "--hold=0"],
        input: b"2222322223333",
        status: 0,
        text: "11\n",
        faults: "",
    },
    Run {
        words: &["0", "1", "--falling"],
        input: b"3333222233332222",
        status: 0,
        text: "11\n",
        faults: "",
    },
    Run {
        words: &["0", "1", "--falling", "--invert-txd"],
        input: b"3333222233332222",
        status: 0,
        text: "00\n",
        faults: "",
    },
    // One clock for both lines: the first line's bit comes first.
    Run {
        words: &["0", "1", "0", "2", "--hold", "0"],
        input: b"001144552233",
        status: 0,
        text: "0o0i1o\n",
        faults: "",
    },
    Run {
        words: &["8", "9", "--octets", "2"],
        input: b"x0x0x1x1",
        status: 0,
        text: "0\n",
        faults: "",
    },
    Run {
        words: &["0", "1", "--runs"],
        input: &RUNS,
        status: 0,
        text: "01\n",
        faults: "",
    },
    Run {
        words: &["0", "1"],
        input: b"",
        status: 0,
        text: "",
        faults: "",
    },
    Run {
        words: &["0", "1", "--facts"],
        input: BITS,
        status: 0,
        text: "1011\n",
        faults: FACTS,
    },
    // The clock is the data.
    Run {
        words: &["1", "1", "--hold", "0"],
        input: b"0020",
        status: 0,
        text: "0\n",
        faults: "",
    },
];

const REFUSED: [Run<'static>; 3] = [
    Run {
        words: &["8", "9", "--octets", "2"],
        input: b"x0x0x1x1x",
        status: 2,
        text: "0",
        faults: "port1-sample: octet 8: sample is cut off\n",
    },
    Run {
        words: &["0", "9"],
        input: b"0011",
        status: 2,
        text: "",
        faults: "port1-sample: a sample has no bit 9\n",
    },
    Run {
        words: &["0", "8", "--runs"],
        input: b"",
        status: 2,
        text: "",
        faults: "port1-sample: a sample has no bit 8\n",
    },
];

/// Runs the program, whose reads give so many octets each, and fail at call number `fails_at`, from 1.
fn see(rt: &impl Abort, alloc: Global, row: &Run, piece: usize, fails_at: u64) {
    let mut reader = CountedReader::new(Pieces {
        rest: row.input,
        piece,
        calls: 0,
        fails_at,
    });
    let mut out = Vec::new(alloc);
    let mut err = FaultOutput::new(Vec::new(alloc));
    let status = run(alloc, row.words, &mut reader, &mut out, &mut err);
    let case = format_args!("{:?} by {piece}", row.words);
    same(
        rt,
        std::str::from_utf8(out.as_slice()).ok(),
        Some(row.text),
        &case,
    );
    same(
        rt,
        std::str::from_utf8(err.writer.as_slice()).ok(),
        Some(row.faults),
        &case,
    );
    same(rt, status, row.status, &case);
}

/// However reads cut the octets, the text is the same, and a fault comes at the same octet.
#[test]
fn reads_of_samples(rt: HostRuntime) {
    for piece in [1, 2, 3, 7, 4096] {
        for row in &FINE {
            see(&rt, rt.alloc(), row, piece, 0);
        }
        for row in &REFUSED {
            see(&rt, rt.alloc(), row, piece, 0);
        }
    }
}

/// A read that fails ends the run behind the bits so far.
#[test]
fn failing_reads_of_samples(rt: HostRuntime) {
    for (fails_at, text) in [(1, ""), (2, "0"), (3, "01"), (5, "010"), (8, "010o0o0")] {
        let row = Run {
            words: &["0", "1", "2", "3", "--hold", "0"],
            input: SAMPLES,
            status: 2,
            text,
            faults: "port1-sample: read failed\n",
        };
        see(&rt, rt.alloc(), &row, 4, fails_at);
    }
}

/// Facts are told after each read, and at the end.
#[test]
fn looks_at_samples(rt: HostRuntime) {
    let mut reader = CountedReader::new(Pieces {
        rest: BITS,
        piece: 32,
        calls: 0,
        fails_at: 0,
    });
    let mut out = Vec::new(rt.alloc());
    let mut err = FaultOutput::new(Narrow::new(rt.alloc(), 4096, false));
    let status = run(rt.alloc(), &LIVE, &mut reader, &mut out, &mut err);
    let case = format_args!("live");
    let mut wanted = Vec::new(rt.alloc());
    for facts in [HALF, FACTS, FACTS] {
        wanted
            .extend_from_slice(facts.as_bytes())
            .expect(&rt, "memory");
    }
    same(&rt, err.writer.out.as_slice(), wanted.as_slice(), &case);
    same(&rt, status, 0, &case);
}

/// Where facts find no room, the bits so far are written, and the status says so.
#[test]
fn looks_without_room(rt: HostRuntime) {
    for (room, text) in [(0, "10"), (HALF.len() - 1, "10"), (HALF.len(), "1011")] {
        let mut reader = CountedReader::new(Pieces {
            rest: BITS,
            piece: 32,
            calls: 0,
            fails_at: 0,
        });
        let mut out = Vec::new(rt.alloc());
        let mut err = FaultOutput::new(Narrow::new(rt.alloc(), room, false));
        let status = run(rt.alloc(), &LIVE, &mut reader, &mut out, &mut err);
        let case = format_args!("room for {room}");
        same(&rt, out.as_slice(), text.as_bytes(), &case);
        same(
            &rt,
            Some(err.writer.out.as_slice()),
            HALF.as_bytes().get(..room),
            &case,
        );
        same(&rt, err.has_failed, true, &case);
        same(&rt, status, 2, &case);
    }
}

/// More samples than 2^60 are refused at the run that has them.
#[test]
fn too_many_samples(rt: HostRuntime) {
    let mut input = Vec::new(rt.alloc());
    for _run in 0..17 {
        input.extend_from_slice(&LONG_RUN).expect(&rt, "memory");
    }
    let row = Run {
        words: &["0", "1", "--runs"],
        input: input.as_slice(),
        status: 2,
        text: "",
        faults: "port1-sample: too many samples\n",
    };
    see(&rt, rt.alloc(), &row, 5, 0);
}

/// A writer that takes so many octets has these, and the status says so.
#[test]
fn narrow_writers_of_samples(rt: HostRuntime) {
    for room in 0..8 {
        let mut reader = CountedReader::new(SAMPLES);
        let mut writer = Narrow::new(rt.alloc(), room, false);
        let mut err = FaultOutput::new(Vec::new(rt.alloc()));
        let words = ["0", "1", "2", "3", "--hold", "0"];
        let status = run(rt.alloc(), &words, &mut reader, &mut writer, &mut err);
        let case = format_args!("room for {room}");
        same(&rt, writer.out.as_slice(), &TEXT.as_bytes()[..room], &case);
        same(
            &rt,
            err.writer.as_slice(),
            b"port1-sample: write failed\n".as_slice(),
            &case,
        );
        same(&rt, status, 2, &case);
    }
}

/// Help that finds no room is a fault, which is reported.
#[test]
fn help_without_room(rt: HostRuntime) {
    let mut reader = CountedReader::new(SAMPLES);
    let mut writer = Narrow::new(rt.alloc(), 9, false);
    let mut err = FaultOutput::new(Vec::new(rt.alloc()));
    let status = run(rt.alloc(), &["--help"], &mut reader, &mut writer, &mut err);
    let case = format_args!("help");
    same(&rt, writer.out.as_slice(), b"Takes the".as_slice(), &case);
    same(
        &rt,
        err.writer.as_slice(),
        b"port1-sample: write failed\n".as_slice(),
        &case,
    );
    same(&rt, err.has_failed, false, &case);
    same(&rt, status, 2, &case);
}
