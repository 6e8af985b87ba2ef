//! The examples, on a call, its reply and a notice.

use crate::expect::{holds, same};
use arrayvec::ArrayVec;
use bus_dictionary::Dictionary;
use bus_examples::{
    PairFault, Received, WatchFault, asks_for_answer, closes_frame_of, count_frames, frame_bits,
    pair_reports, unanswered, watch,
};
use bus_fcs::{BitCheck, Check, OctetCheck};
use bus_line::{Cause, EncodeFault, Event, EventKind, LineDecoder, Span};
use bus_pairing::{Conversation, Line};
use bus_watch::{Analyser, FeedFault, LoggedPiece};
use std::alloc::Global;
use std::process::Abort;

/// Example types only: their numbers and names are made up and stand for no real frame type.
const CALLS: &str = r#"version = 1
[[frame]]
type = 0
name = "call"
length = 0
answered = true
[[frame]]
type = 128
name = "reply"
length = 0
[[frame]]
type = 9
name = "notice"
length = 0
"#;

const FLAG: &str = "01111110";

/// A call between flags: 10 83 00 fd e5, as it is sent.
const CALL: &str = "01111110 00001000 11000001 00000000 101111101 10100111 01111110";

/// A call, its reply and a notice to all stations, with a flag between each two.
const THREE: &str = "01111110 00001000 11000001 00000000 101111101 10100111
    01111110 00001000 11000001 00000001 10101111 100000110
    01111110 111110111 110000001 10010000 01011010 11011100 01111110";

/// The same call twice.
const TWICE: &str = "01111110 00001000 11000001 00000000 101111101 10100111
    01111110 00001000 11000001 00000000 101111101 10100111 01111110";

/// The bits of a text of `0` and `1`. All else in it is space.
fn bits_of(rt: &impl Abort, alloc: Global, text: &str) -> Vec<bool> {
    let mut bits = Vec::new(alloc);
    for character in text.bytes() {
        if character == b'0' || character == b'1' {
            bits.push(character == b'1').expect(rt, "memory");
        }
    }
    bits
}

fn calls(rt: &impl Abort, alloc: Global) -> Dictionary {
    Dictionary::read(alloc, CALLS).expect(rt, "a dictionary")
}

#[test]
fn frames_of_a_buffer(rt: HostRuntime) {
    let three = bits_of(&rt, rt.alloc(), THREE);
    let call = bits_of(&rt, rt.alloc(), CALL);
    let counts = [
        count_frames::<OctetCheck>(&three),
        count_frames::<BitCheck>(&call),
        count_frames::<OctetCheck>(&[]),
    ];
    same(&rt, counts, [Ok(3), Ok(1), Ok(0)], "three, one and none");
}

/// Frames of so many octets, all 0, of which the longest has 256: their checks as they are sent, and how many are
/// counted.
const ZEROS: [(usize, &str, usize); 3] = [
    (255, "00011001 00100011", 1),
    (256, "101111100 00010111", 1),
    (257, "01001111 00011010", 0),
];

#[test]
fn longest_frames(rt: HostRuntime) {
    for (octets, check, want) in ZEROS {
        let mut bits = bits_of(&rt, rt.alloc(), FLAG);
        for _bit in 0..octets.saturating_mul(8) {
            bits.push(false).expect(&rt, "memory");
        }
        for text in [check, FLAG] {
            bits.extend_from_slice(&bits_of(&rt, rt.alloc(), text))
                .expect(&rt, "memory");
        }
        let count = count_frames::<OctetCheck>(&bits);
        same(&rt, count, Ok(want), format_args!("{octets} octets"));
    }
}

/// The last place at which a frame of a station ends, and how many there are.
fn frames_of<C: Check>(rt: &impl Abort, bits: &[bool], station: u8) -> (usize, u8) {
    let mut decoder = LineDecoder::<C>::new(256, 0).expect(rt, "a decoder");
    let mut found = (0, 0u8);
    for (place, bit) in bits.iter().enumerate() {
        if closes_frame_of(&mut decoder, station, *bit).expect(rt, "a place") {
            found = (place, found.1.saturating_add(1));
        }
    }
    found
}

/// A frame ends with the last bit of its closing flag.
#[test]
fn frame_of_a_station(rt: HostRuntime) {
    let three = bits_of(&rt, rt.alloc(), THREE);
    let found = [
        frames_of::<OctetCheck>(&rt, &three, 16),
        frames_of::<BitCheck>(&rt, &three, 255),
        frames_of::<OctetCheck>(&rt, &three, 17),
    ];
    let want = [(105, 2), (155, 1), (0, 0)];
    same(&rt, found, want, "stations 16, 255 and 17");
}

/// The station that a list shows to have no answer, and at which place.
fn silent(rt: &impl Abort, alloc: Global, text: &str) -> Option<(usize, u8)> {
    let dictionary = calls(rt, alloc);
    let mut analyser = Analyser::<OctetCheck>::new(alloc, dictionary, 16, 0).expect(rt, "memory");
    let bits = bits_of(rt, alloc, text);
    let mut found = None;
    for (place, bit) in bits.iter().enumerate() {
        if let Some(station) = unanswered(&mut analyser, *bit).expect(rt, "a place") {
            found = Some((place, station));
        }
    }
    found
}

#[test]
fn station_without_answer(rt: HostRuntime) {
    let found = [
        silent(&rt, rt.alloc(), THREE),
        silent(&rt, rt.alloc(), CALL),
        silent(&rt, rt.alloc(), TWICE),
    ];
    let want = [None, None, Some((105, 16))];
    same(&rt, found, want, "an answer, one call and two calls");
}

/// All reports in a log with room for them; with less, the first that it refuses ends the run.
#[test]
fn all_that_is_seen(rt: HostRuntime) {
    let three = bits_of(&rt, rt.alloc(), THREE);
    let log = watch(rt.alloc(), calls(&rt, rt.alloc()), &three, 3).expect(&rt, "a log");
    same(&rt, log.reports().len(), 3, "how many reports are logged");
    let reply = log.reports().get(1).expect(&rt, "a report");
    holds(&rt, reply.verdict.is_some(), "the reply has a verdict");
    let is_frame = matches!(reply.piece, LoggedPiece::Frame { .. });
    holds(&rt, is_frame, "the reply is a frame");
    let fault = watch(rt.alloc(), calls(&rt, rt.alloc()), &three, 2).err();
    let want = WatchFault::Feed(FeedFault::Sink { consumed: 156 });
    same(&rt, fault, Some(want), "a log of two reports");
}

/// A report of a controller's line or of the stations', from a place on.
fn received(line: Line, kind: EventKind, first: u64, octets: &[u8]) -> Received {
    let mut received = Received {
        line: Some(line),
        event: Event {
            span: Span {
                first,
                past: first.saturating_add(8 * 5),
            },
            kind,
        },
        octets: ArrayVec::new(),
    };
    let _ = received.octets.try_extend_from_slice(octets);
    received
}

const CALL_OCTETS: &[u8] = &[0x10, 0x83, 0x00, 0xfd, 0xe5];

const REPLY_OCTETS: &[u8] = &[0x10, 0x83, 0x80, 0xf5, 0x61];

/// A call with its reply, one that damage spoils, and one that waits. Of a frame with too few octets on, none is taken.
#[test]
fn reports_of_another_decoder(rt: HostRuntime) {
    let reports = [
        received(Line::First, EventKind::Frame, 8, CALL_OCTETS),
        received(Line::Second, EventKind::Idle, 40, &[]),
        received(Line::Second, EventKind::Frame, 70, REPLY_OCTETS),
        received(Line::First, EventKind::Frame, 200, CALL_OCTETS),
        received(Line::Second, EventKind::Damaged(Cause::Fcs), 260, &[]),
        received(Line::First, EventKind::Frame, 400, CALL_OCTETS),
        received(Line::Second, EventKind::Frame, 460, &[0x10, 0x83, 0x80]),
        received(Line::Second, EventKind::Frame, 500, REPLY_OCTETS),
    ];
    let dictionary = calls(&rt, rt.alloc());
    let mut conversation = Conversation::new(rt.alloc(), dictionary, 16).expect(&rt, "memory");
    let ending = pair_reports(&mut conversation, &reports);
    let want = Err(PairFault::ShortFrame { taken: 6 });
    same(&rt, ending, want, "a frame of three octets");
    let counts = conversation.counts(16);
    same(
        &rt,
        [counts.answered, counts.spoilt],
        [1, 1],
        "the verdicts",
    );
    let waits = conversation.pending().map(|command| command.span.first);
    same(&rt, waits, Some(400), "the call that waits");
    let reply = [received(Line::Second, EventKind::Frame, 500, REPLY_OCTETS)];
    let ending = pair_reports(&mut conversation, &reply);
    same(&rt, ending, Ok(()), "its reply");
    same(&rt, conversation.counts(16).answered, 2, "both replies");
    same(&rt, conversation.kept_len(), 5, "the frames");
}

#[test]
fn bits_of_a_frame(rt: HostRuntime) {
    let sent = frame_bits(&[0x10, 0x83, 0x00]).expect(&rt, "bits");
    let call = bits_of(&rt, rt.alloc(), CALL);
    let are_same = sent.bits.as_slice() == call.as_slice();
    holds(&rt, are_same, "the bits of a call");
    let faults = [frame_bits(&[0x10]).err(), frame_bits(&[0; 257]).err()];
    let refused = Some(EncodeFault::LengthRange);
    same(&rt, faults, [refused; 2], "too short and too long");
}

#[test]
fn types_that_ask(rt: HostRuntime) {
    let dictionary = calls(&rt, rt.alloc());
    let asks = [
        asks_for_answer(&dictionary, 0),
        asks_for_answer(&dictionary, 128),
        asks_for_answer(&dictionary, 7),
    ];
    same(&rt, asks, [true, false, false], "types 0, 128 and 7");
}

/// What RATTLE says of memory, in octets.
#[test]
fn sizes(rt: HostRuntime) {
    assert_eq!(rt; size_of::<LineDecoder<OctetCheck>>(), 360);
    assert_eq!(rt; size_of::<Analyser<OctetCheck>>(), 10824);
}
