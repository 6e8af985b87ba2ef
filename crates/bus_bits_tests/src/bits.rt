//! Captures, octet by octet.

use crate::expect::{holds, same};
use bus_bits::{Spent, Word, bits_octet, octet_bits, seven_octets_at, word_at};
use bus_formats::{
    BadMark, EightBits, HeadFault, PackedBits, PackedFault, PackedHead, TextBits, TextBlock,
};
use std::process::Abort;

const HEAD: [u8; 16] = *b"TS2BITS1\x39\0\0\0\0\0\0\0";

const BITS: &[u8] = b"011111100000100011000001000000001011111011010011101111110";

#[test]
fn text_stops_at_a_bad_mark(rt: HostRuntime) {
    let mut text = TextBits::new();
    let mut given = b"01111110".iter();
    for octet in b"01111110 " {
        let bit = text.step(*octet).expect(&rt, "no bad mark");
        let want = if *octet == b' ' { None } else { given.next() };
        same(
            &rt,
            bit,
            want.map(|octet| *octet == b'1'),
            format_args!("octet {octet}"),
        );
    }
    same(&rt, given.len(), 0, "bits left over");
    same(&rt, text.step(b'2'), Err(BadMark), "a bad mark");
    same(&rt, text.step(b'\t'), Ok(None), "a tab");
}

fn check_eight(rt: &impl Abort, octets: &[u8], want: Option<EightBits>) {
    same(
        rt,
        TextBits::eight(octets),
        want,
        format_args!("{octets:?}"),
    );
}

#[test]
fn eight_bits_are_an_octet(rt: HostRuntime) {
    let octet = 0x64;
    let at_once = Some(EightBits { octet, taken: 8 });
    check_eight(&rt, b"0010011011", at_once);
    check_eight(&rt, b"00100110\n", at_once);
    let around_one = Some(EightBits { octet, taken: 9 });
    check_eight(&rt, b"\n00100110", around_one);
    check_eight(&rt, b"0010 01101", around_one);
    check_eight(&rt, b"0010011\r0", around_one);
    check_eight(&rt, b"0010 011 0", None);
    check_eight(&rt, b"0010 011", None);
    check_eight(&rt, b"0010 0112", None);
    check_eight(&rt, b"001020110", None);
    check_eight(&rt, b"0010011", None);
    check_eight(&rt, b"00100112", None);
}

#[test]
fn octets_are_eight_bits(rt: HostRuntime) {
    same(&rt, TextBits::of_eight(b"00100110"), Some(0x64), "00100110");
    for text in [
        b"00100112",
        b"0010011 ",
        b"0010011/",
        b"0010011p",
        b"0010011\xb0",
        b"x0100110",
    ] {
        same(
            &rt,
            TextBits::of_eight(text),
            None,
            format_args!("{text:?}"),
        );
    }
}

/// An octet, and its bits, the least significant first.
struct OctetRow {
    octet: u8,
    bits: [bool; 8],
}

const OCTETS: [OctetRow; 3] = [
    OctetRow {
        octet: 0x55,
        bits: [true, false, true, false, true, false, true, false],
    },
    OctetRow {
        octet: 0x33,
        bits: [true, true, false, false, true, true, false, false],
    },
    OctetRow {
        octet: 0x0f,
        bits: [true, true, true, true, false, false, false, false],
    },
];

#[test]
fn octets_are_their_bits(rt: HostRuntime) {
    for row in &OCTETS {
        let case = format_args!("octet {}", row.octet);
        same(&rt, octet_bits(row.octet), row.bits, &case);
        same(&rt, bits_octet(&row.bits), row.octet, &case);
    }
}

/// The bits of octets from one on and before another, as a number.
struct WordRow {
    octets: &'static [u8],
    at: usize,
    end: usize,
    word: Word,
}

const SEVEN: &[u8] = &[0x01, 0x02, 0x04, 0x08, 0x10, 0x20, 0x40];

/// One octet more than a number of 64 bits has.
const NINE: &[u8] = &[0x01, 0x02, 0x04, 0x08, 0x10, 0x20, 0x40, 0x80, 0xb4];

const WORDS: [WordRow; 6] = [
    WordRow {
        octets: SEVEN,
        at: 0,
        end: 56,
        word: Word {
            bits: 0x2010_0804_0201,
            count: 48,
        },
    },
    WordRow {
        octets: SEVEN,
        at: 8,
        end: 56,
        word: Word {
            bits: 0x4020_1008_0402,
            count: 48,
        },
    },
    WordRow {
        octets: SEVEN,
        at: 53,
        end: 55,
        word: Word { bits: 2, count: 2 },
    },
    WordRow {
        octets: &[0xb4],
        at: 2,
        end: 7,
        word: Word {
            bits: 0x0d,
            count: 5,
        },
    },
    WordRow {
        octets: NINE,
        at: 66,
        end: 71,
        word: Word {
            bits: 0x0d,
            count: 5,
        },
    },
    WordRow {
        octets: NINE,
        at: 12,
        end: 72,
        word: Word {
            bits: 0x0402_0100_8040,
            count: 48,
        },
    },
];

#[test]
fn words_are_cut_out(rt: HostRuntime) {
    for row in &WORDS {
        let case = format_args!("bits {} to {}", row.at, row.end);
        assert!(rt;
            row.at < row.end && row.end <= 8 * row.octets.len(),
            "bits of octets"
        );
        let Word { bits, count } = word_at(row.octets, row.at, row.end);
        same(&rt, (bits, count), (row.word.bits, row.word.count), &case);
    }
}

/// The 56 bits of nine octets from one on.
const SEVENS: [(usize, u64); 3] = [
    (0, 0x40_2010_0804_0201),
    (3, 0x08_0402_0100_8040),
    (8, 0x80_4020_1008_0402),
];

#[test]
fn seven_octets_are_cut_out(rt: HostRuntime) {
    for (at, want) in SEVENS {
        assert!(rt; NINE.len() == 9 && at <= 8, "nine octets");
        same(
            &rt,
            seven_octets_at(NINE, at) % (1 << 56),
            want,
            format_args!("from {at}"),
        );
    }
}

#[test]
fn steps_are_added(rt: HostRuntime) {
    let spent = Spent {
        shifted: 1,
        assembled: 2,
        folded: 4,
        stored: 8,
        copied: 16,
        handled: 32,
    };
    same(&rt, spent.total(), 63, "the sum of the steps");
}

/// A text in front of an octet that is no bit, and its bits in a block.
struct PackRow {
    text: &'static str,
    bits: usize,
    block: &'static [u8],
}

const PACKED: [PackRow; 8] = [
    PackRow {
        text: "",
        bits: 0,
        block: &[],
    },
    PackRow {
        text: "1",
        bits: 1,
        block: &[0x01],
    },
    PackRow {
        text: " \t\r\n01111110\n",
        bits: 8,
        block: &[0x7e],
    },
    PackRow {
        text: "0111111000001",
        bits: 13,
        block: &[0x7e, 0x10],
    },
    // sixteen octets at once
    PackRow {
        text: "0111111000001000",
        bits: 16,
        block: &[0x7e, 0x10],
    },
    // a space within them, and the bits after it in the octet that is not full
    PackRow {
        text: "01111110 00001000 1",
        bits: 17,
        block: &[0x7e, 0x10, 0x01],
    },
    // 64 octets at once, and one more
    PackRow {
        text: "01111110000010001100000100000000101111101101001110111111000000001",
        bits: 65,
        block: &[0x7e, 0x10, 0x83, 0x00, 0x7d, 0xcb, 0xfd, 0x00, 0x01],
    },
    // a bit, and 64 octets at once after it
    PackRow {
        text: "1\n0111111000001000110000010000000010111110110100111011111100000000\n",
        bits: 65,
        block: &[0xfd, 0x20, 0x06, 0x01, 0xfa, 0x96, 0xfb, 0x01, 0x00],
    },
];

/// The first octets of a text of 128 octets, which end as the row's text does, and then others, which are no bits.
fn before_others(rt: &impl Abort, text: &str, other: u8) -> [u8; 128] {
    let mut octets = [other; 128];
    octets
        .get_mut(..text.len())
        .expect(rt, "a short text")
        .copy_from_slice(text.as_bytes());
    octets
}

fn check_block(rt: &impl Abort, row: &PackRow, other: u8) {
    let octets = before_others(rt, row.text, other);
    let mut block = [0xff; 32];
    let TextBlock { count, taken } = TextBits::pack(&octets, &mut block);
    same(rt, count, row.bits, row.text);
    same(rt, taken, row.text.len(), row.text);
    same(rt, block.get(..row.block.len()), Some(row.block), row.text);
}

#[test]
fn texts_are_packed(rt: HostRuntime) {
    for row in &PACKED {
        for other in [b'x', b'2', b'/', 0x0b, 0x00, 0xb0] {
            check_block(&rt, row, other);
        }
    }
}

fn check_head(rt: &impl Abort, head: &[u8; 16], want: Result<u64, HeadFault>) {
    let bits = PackedHead::read(head).map(|head| head.bits);
    same(rt, bits, want, format_args!("{head:?}"));
}

#[test]
fn heads_are_read(rt: HostRuntime) {
    check_head(&rt, &HEAD, Ok(57));
    check_head(&rt, b"TS2BITS1\0\0\0\0\0\0\0\x10", Ok(1152921504606846976));
    check_head(
        &rt,
        b"TS2BITS1\x01\0\0\0\0\0\0\x10",
        Err(HeadFault::TooMany),
    );
    check_head(&rt, b"US2BITS1\x01\0\0\0\0\0\0\x10", Err(HeadFault::Magic));
}

#[test]
fn packed_bits_are_given(rt: HostRuntime) {
    let front = [0x7e, 0x10, 0x83, 0x00, 0x7d, 0xcb, 0xfd];
    let mut packed = PackedBits::new(PackedHead { bits: 57 });
    let mut given = BITS.iter();
    for octet in front {
        for bit in packed.step(octet).expect(&rt, "bits").as_slice() {
            same(
                &rt,
                given.next().copied(),
                Some(if *bit { b'1' } else { b'0' }),
                format_args!("octet {octet}"),
            );
        }
    }
    same(&rt, packed.left(), 1, "bits left");
    same(
        &rt,
        packed.finish(),
        Err(PackedFault::ShortBody),
        "the end where a bit is left",
    );
    same(
        &rt,
        packed.step(0x02).err(),
        Some(PackedFault::PadBits),
        "an unused one",
    );
    same(&rt, packed.left(), 1, "bits left");
    same(
        &rt,
        packed.step(0x00).expect(&rt, "a bit").as_slice(),
        &[false][..],
        "the last bit",
    );
    same(&rt, packed.finish(), Ok(()), "the end");
    same(
        &rt,
        packed.step(0x00).err(),
        Some(PackedFault::Trailing),
        "an octet too many",
    );
}

#[test]
fn whole_octets_are_taken(rt: HostRuntime) {
    let mut packed = PackedBits::new(PackedHead { bits: 57 });
    same(&rt, packed.whole(3), 3, "whole octets in three");
    same(&rt, packed.whole(8), 7, "whole octets in eight");
    assert!(rt; packed.left() >= 56, "seven octets");
    packed.consume_octets(&[0x7e, 0x10, 0x83, 0x00, 0x7d, 0xcb, 0xfd]);
    same(&rt, packed.left(), 1, "bits left");
    same(&rt, packed.whole(1), 0, "whole octets in one");
    same(
        &rt,
        packed.step(0x02).err(),
        Some(PackedFault::PadBits),
        "an unused one",
    );
}
