//! The decoder, by calls of several sizes, with both frame checks.

use super::rows::{WORKED, row_of};
use super::text::push_report;
use super::{bits_of, take_some};
use crate::expect::{holds, same};
use bus_bits::Spent;
use bus_fcs::{BitCheck, Check, OctetCheck};
use bus_line::{LineDecoder, Piece};
use std::alloc::Global;
use std::process::Abort;

/// What a decoder answered to a list of bits.
#[derive(Drop)]
struct Decoded {
    /// The reports as one text, a comma and a space between each two.
    reports: String,
    /// The places of the bits that decided them, likewise.
    places: String,
    /// The most octets that stood in the buffer after a bit.
    most: usize,
    spent: Spent,
}

impl Decoded {
    /// A report at the bit of this place.
    fn add(&mut self, rt: &impl Abort, place: u64, piece: &Piece) {
        if !self.reports.is_empty() {
            self.reports.push_str(", ").expect(rt, "memory");
            self.places.push_str(", ").expect(rt, "memory");
        }
        push_report(rt, &mut self.reports, piece);
        write!(self.places, "{place}").expect(rt, "memory");
    }
}

/// Takes the bits, up to `size` of them with each call.
fn decode<C: Check>(
    rt: &impl Abort,
    alloc: Global,
    bits: &[bool],
    longest: usize,
    origin: u64,
    size: u32,
) -> Decoded {
    let mut decoder = LineDecoder::<C>::new(longest, origin).expect(rt, "a decoder");
    let mut decoded = Decoded {
        reports: String::new(alloc),
        places: String::new(alloc),
        most: 0,
        spent: decoder.spent(),
    };
    let mut rest = bits;
    for _ in bits {
        if rest.is_empty() {
            break;
        }
        let (behind, piece) = take_some(rt, &mut decoder, rest, size);
        if let Some(piece) = piece {
            let taken = bits.len().wrapping_sub(behind.len()) as u64;
            let last = origin.wrapping_add(taken).wrapping_sub(1);
            decoded.add(rt, last, &piece);
        }
        rest = behind;
        decoded.most = decoded.most.max(decoder.buffered());
    }
    decoded.spent = decoder.spent();
    decoded
}

/// The reports of a list, as both checks give them, by calls of several sizes.
fn decoded_alike(
    rt: &impl Abort,
    alloc: Global,
    bits: &[bool],
    longest: usize,
    origin: u64,
) -> Decoded {
    let by_bits = decode::<BitCheck>(rt, alloc, bits, longest, origin, 1);
    let single = decode::<OctetCheck>(rt, alloc, bits, longest, origin, 1);
    let room = longest.saturating_add(2);
    for size in [1, 7, 8, 48] {
        let by_words = decode::<OctetCheck>(rt, alloc, bits, longest, origin, size);
        same(
            rt,
            by_bits.reports.as_str(),
            by_words.reports.as_str(),
            size,
        );
        same(rt, by_bits.places.as_str(), by_words.places.as_str(), size);
        same(rt, single.spent, by_words.spent, size);
        holds(rt, by_words.most <= room, size);
    }
    holds(rt, by_bits.most <= room, "octets in the buffer");
    by_bits
}

/// The reports of the whole lists, each at the bit that decides it.
#[test]
fn worked_lists_bit_by_bit(rt: HostRuntime) {
    for line in WORKED.lines() {
        let row = row_of(&rt, line);
        let bits = bits_of(&rt, rt.alloc(), row.bits);
        let decoded = decoded_alike(&rt, rt.alloc(), &bits, 3, 0);
        same(&rt, decoded.reports.as_str(), row.reports, row.case);
        same(&rt, decoded.places.as_str(), row.places, row.case);
    }
}

/// Each case with its origin, the bits between two flags, and the report.
const FRAMES: &str = "\
    a frame from the place 100 on: 100: \
        00001000 11000001 00000000 101111101 10100111 => 108 149 frame 108300fde5\n\
    to all stations, two inserted 0s: 0: \
        111110111 110000001 10010000 01011010 11011100 => 8 50 frame ff83095a3b\n\
    to all stations, a command: 0: \
        111110111 110000001 00000000 11011001 01100101 => 8 50 frame ff83009ba6\n\
    an address and a control octet alone: 0: \
        00001000 11000001 10100010 00110100 => 8 40 frame 1083452c\n\
    another control octet: 0: \
        00001000 11001000 00110011 00011101 => 8 40 frame 1013ccb8\n\
    three octets and their check: 0: \
        00001000 11000001 10000000 00101110 00101111 => 8 48 frame 10830174f4\n\
    five octets and their check, two inserted 0s: 0: \
        00001000 11000001 10000000 101111100 10100100 11011010 111110000 => 8 66 frame 1083017d255b1f\n\
    five 1 bits before the closing flag: 0: \
        00011111 => 8 16 damaged unstuffed";

/// A case, a number of it, bits, and what is wanted.
#[derive(Drop)]
struct NumberedRow<'a> {
    case: &'a str,
    number: u64,
    bits: &'a str,
    want: &'a str,
}

fn numbered_row<'a>(rt: &impl Abort, line: &'a str) -> NumberedRow<'a> {
    let (case, rest) = line.split_once(':').expect(rt, "a case");
    let (number, rest) = rest.split_once(':').expect(rt, "a number");
    let (bits, want) = rest.split_once("=>").expect(rt, "bits");
    NumberedRow {
        case,
        number: number.trim().parse::<u64>().expect(rt, "a number"),
        bits,
        want: want.trim(),
    }
}

fn check_frame(rt: &impl Abort, alloc: Global, line: &str) {
    let row = numbered_row(rt, line);
    let mut bits = bits_of(rt, alloc, FLAG);
    bits.extend_from_slice(&bits_of(rt, alloc, row.bits))
        .expect(rt, "memory");
    bits.extend_from_slice(&bits_of(rt, alloc, FLAG))
        .expect(rt, "memory");
    let decoded = decoded_alike(rt, alloc, &bits, 5, row.number);
    same(rt, decoded.reports.as_str(), row.want, row.case);
}

const FLAG: &str = "01111110";

/// Frames of both addresses, of two octets and more, where the longest has five; and the places
/// count from the origin.
#[test]
fn worked_frames(rt: HostRuntime) {
    for line in FRAMES.lines() {
        check_frame(&rt, rt.alloc(), line);
    }
}

/// The octets of a frame are lent with its report, and stand in the decoder once its flag has closed it.
#[test]
fn octets_of_a_frame(rt: HostRuntime) {
    let text = "01111110 00001000 11000001 00000000 101111101 10100111 01111110";
    let bits = bits_of(&rt, rt.alloc(), text);
    let mut decoder = LineDecoder::<OctetCheck>::new(3, 0).expect(&rt, "a decoder");
    let mut told = String::new(rt.alloc());
    for bit in &bits {
        if let Some(piece) = decoder.push(*bit).expect(&rt, "a place") {
            push_report(&rt, &mut told, &piece);
        }
    }
    same(&rt, told.as_str(), "8 49 frame 108300fde5", "the report");
    same(
        &rt,
        decoder.octets(),
        [0x10, 0x83, 0x00, 0xfd, 0xe5].as_slice(),
        "the octets of the frame",
    );
}

/// Each case with the octets that stand in the buffer after the last of its bits, and these: eight later bits settle a
/// bit, and an abort leaves no piece open.
const BUFFERED: &str = "\
    a flag, an octet and seven zeros: 0: 01111110 00000000 0000000 =>\n\
    a flag and 24 zeros: 2: 01111110 00000000 00000000 00000000 =>\n\
    a flag, 24 zeros and six ones: 2: 01111110 00000000 00000000 00000000 111111 =>\n\
    a flag, 24 zeros and an abort: 0: 01111110 00000000 00000000 00000000 1111111 =>\n\
    a flag and 32 zeros: 3: 01111110 00000000 00000000 00000000 00000000 =>";

fn check_buffered(rt: &impl Abort, alloc: Global, line: &str) {
    let row = numbered_row(rt, line);
    let mut decoder = LineDecoder::<OctetCheck>::new(3, 0).expect(rt, "a decoder");
    for bit in &bits_of(rt, alloc, row.bits) {
        decoder.push(*bit).expect(rt, "a place");
    }
    same(rt, decoder.buffered() as u64, row.number, row.case);
}

#[test]
fn octets_in_the_buffer(rt: HostRuntime) {
    for line in BUFFERED.lines() {
        check_buffered(&rt, rt.alloc(), line);
    }
}

/// Each case with its bits: how many are taken, how many are data, the work of the check by bits and
/// by octets, and the octets that are stored.
const STEPS: [(&str, &str, [u64; 5]); 6] = [
    ("an empty list", "", [0, 0, 0, 0, 0]),
    ("a flag", "01111110", [8, 0, 0, 0, 0]),
    (
        "two flags that share a 0",
        "011111101111110",
        [15, 0, 0, 0, 0],
    ),
    (
        "two frames, each with an inserted 0, and one flag between them",
        "01111110 00001000 11000001 00000000 101111101 10100111 01111110
            00001000 11000001 00000001 10101111 100000110 01111110",
        [106, 80, 80, 10, 10],
    ),
    (
        "an octet and an abort",
        "01111110 00001000 1111111",
        [23, 7, 0, 0, 0],
    ),
    (
        "an octet, an abort and an idle line",
        "01111110 00001000 1111111 11111111",
        [31, 7, 0, 0, 0],
    ),
];

/// The steps of each kind, and none of copying or handling.
fn steps_of([shifted, assembled, folded, stored]: [u64; 4]) -> Spent {
    Spent {
        shifted,
        assembled,
        folded,
        stored,
        copied: 0,
        handled: 0,
    }
}

#[test]
fn steps(rt: HostRuntime) {
    for (case, bits, [shifted, assembled, by_bits, by_octets, stored]) in STEPS {
        let bits = bits_of(&rt, rt.alloc(), bits);
        let slow = decode::<BitCheck>(&rt, rt.alloc(), &bits, 3, 0, 1);
        same(
            &rt,
            slow.spent,
            steps_of([shifted, assembled, by_bits, stored]),
            case,
        );
        let fast = decode::<OctetCheck>(&rt, rt.alloc(), &bits, 3, 0, 48);
        same(
            &rt,
            fast.spent,
            steps_of([shifted, assembled, by_octets, stored]),
            case,
        );
    }
}

/// Decoded only from a later bit on, inside the first flag or the first frame, the line gives the
/// frames from the next flag on, at the places that they have in the whole.
#[test]
fn heard_from_later_on(rt: HostRuntime) {
    let text = "01111110 00001000 11000001 00000000 101111101 10100111
        01111110 00001000 11000001 00000001 10101111 100000110
        01111110 111110111 110000001 10010000 01011010 11011100 01111110";
    let bits = bits_of(&rt, rt.alloc(), text);
    for missing in 1..=49usize {
        let decoded_bits = bits.get(missing..).unwrap_or_default();
        let decoded = decoded_alike(&rt, rt.alloc(), decoded_bits, 3, missing as u64);
        let want = "57 98 frame 108380f561, 106 148 frame ff83095a3b";
        same(
            &rt,
            decoded.reports.as_str(),
            want,
            format_args!("without {missing} bits"),
        );
    }
}
