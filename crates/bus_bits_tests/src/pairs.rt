//! Captures of two lines, octet by octet.

use crate::expect::{holds, same};
use bus_formats::{
    BadMark, EightPairs, HeadFault, PackedFault, PackedHead, PackedPairs, PairHead, PartedText,
    TextPairs,
};
use std::process::Abort;

/// What an octet of a text of two lines gives.
struct MarkRow {
    octet: u8,
    want: Result<Option<(bool, bool)>, BadMark>,
}

const MARKS: [MarkRow; 11] = [
    MarkRow {
        octet: b'0',
        want: Ok(Some((false, false))),
    },
    MarkRow {
        octet: b'1',
        want: Ok(Some((true, false))),
    },
    MarkRow {
        octet: b'2',
        want: Ok(Some((false, true))),
    },
    MarkRow {
        octet: b'3',
        want: Ok(Some((true, true))),
    },
    MarkRow {
        octet: b' ',
        want: Ok(None),
    },
    MarkRow {
        octet: b'\t',
        want: Ok(None),
    },
    MarkRow {
        octet: b'\r',
        want: Ok(None),
    },
    MarkRow {
        octet: b'\n',
        want: Ok(None),
    },
    MarkRow {
        octet: b'4',
        want: Err(BadMark),
    },
    MarkRow {
        octet: b'/',
        want: Err(BadMark),
    },
    MarkRow {
        octet: 0x0b,
        want: Err(BadMark),
    },
];

#[test]
fn marks_are_pairs(rt: HostRuntime) {
    let mut text = TextPairs::new();
    for row in &MARKS {
        same(
            &rt,
            text.step(row.octet),
            row.want,
            format_args!("octet {}", row.octet),
        );
    }
}

fn check_eight(rt: &impl Abort, octets: &[u8], want: Option<EightPairs>) {
    same(
        rt,
        TextPairs::eight(octets),
        want,
        format_args!("{octets:?}"),
    );
}

#[test]
fn eight_pairs_are_two_octets(rt: HostRuntime) {
    // The marks 0 1 2 3 3 0 0 1: the first line 0 1 0 1 1 0 0 1, the second 0 0 1 1 1 0 0 0.
    let (first, second) = (0x9a, 0x1c);
    let at_once = Some(EightPairs {
        first,
        second,
        taken: 8,
    });
    check_eight(&rt, b"0123300112", at_once);
    check_eight(&rt, b"01233001\n", at_once);
    let around_one = Some(EightPairs {
        first,
        second,
        taken: 9,
    });
    check_eight(&rt, b"\n01233001", around_one);
    check_eight(&rt, b"0123 3001", around_one);
    check_eight(&rt, b"0123300\r1", around_one);
    check_eight(&rt, b"0123 300 1", None);
    check_eight(&rt, b"0123 300", None);
    check_eight(&rt, b"0123 3004", None);
    check_eight(&rt, b"012343001", None);
    check_eight(&rt, b"0123300", None);
}

/// A text of pairs, and what is parted of it into blocks of three octets.
struct PartRow {
    text: &'static str,
    filled: usize,
    taken: usize,
    first: [u8; 3],
    second: [u8; 3],
}

/// The marks 0 1 2 3 3 0 0 1 and 2 2 2 2 1 1 1 1, alone and in a row.
const PARTED: [PartRow; 6] = [
    PartRow {
        text: "0123300",
        filled: 0,
        taken: 0,
        first: [0; 3],
        second: [0; 3],
    },
    PartRow {
        text: "01233001",
        filled: 1,
        taken: 8,
        first: [0x9a, 0, 0],
        second: [0x1c, 0, 0],
    },
    PartRow {
        text: "0123300122221111x",
        filled: 2,
        taken: 16,
        first: [0x9a, 0xf0, 0],
        second: [0x1c, 0x0f, 0],
    },
    // a space in each nine octets
    PartRow {
        text: "0123300 1\n22221111",
        filled: 2,
        taken: 18,
        first: [0x9a, 0xf0, 0],
        second: [0x1c, 0x0f, 0],
    },
    // two in a row
    PartRow {
        text: "01233001 \n22221111",
        filled: 1,
        taken: 8,
        first: [0x9a, 0, 0],
        second: [0x1c, 0, 0],
    },
    // more than the blocks have room for
    PartRow {
        text: "01233001222211110123300122221111",
        filled: 3,
        taken: 24,
        first: [0x9a, 0xf0, 0x9a],
        second: [0x1c, 0x0f, 0x1c],
    },
];

#[test]
fn texts_are_parted(rt: HostRuntime) {
    for row in &PARTED {
        let mut first = [0; 3];
        let mut second = [0; 3];
        let PartedText { filled, taken } = TextPairs::part(
            row.text.as_bytes(),
            &mut first,
            &mut second,
        );
        same(&rt, (filled, taken), (row.filled, row.taken), row.text);
        same(&rt, first, row.first, row.text);
        same(&rt, second, row.second, row.text);
    }
}

/// What sixteen octets are as the head of two lines.
struct HeadRow {
    head: &'static [u8; 16],
    want: Result<u64, HeadFault>,
}

const HEADS: [HeadRow; 4] = [
    HeadRow {
        head: b"TS2BITS2\x0f\0\0\0\0\0\0\0",
        want: Ok(15),
    },
    HeadRow {
        head: b"TS2BITS2\0\0\0\0\0\0\0\x10",
        want: Ok(1152921504606846976),
    },
    HeadRow {
        head: b"TS2BITS2\x01\0\0\0\0\0\0\x10",
        want: Err(HeadFault::TooMany),
    },
    HeadRow {
        head: b"TS2BITS1\x01\0\0\0\0\0\0\x10",
        want: Err(HeadFault::Magic),
    },
];

#[test]
fn heads_of_pairs_are_read(rt: HostRuntime) {
    for row in &HEADS {
        same(
            &rt,
            PairHead::read(row.head).map(|head| head.pairs),
            row.want,
            format_args!("{:?}", row.head),
        );
    }
    let other = PackedHead::read(b"TS2BITS2\x0f\0\0\0\0\0\0\0");
    same(&rt, other.err(), Some(HeadFault::Magic), "another head");
}

#[test]
fn packed_pairs_are_given(rt: HostRuntime) {
    // The octet e4 has 0, 1, 2 and 3 in its two bits each, from the lowest on.
    let each = [(false, false), (true, false), (false, true), (true, true)];
    let mut packed = PackedPairs::new(PairHead { pairs: 7 });
    same(
        &rt,
        packed.step(0xe4).expect(&rt, "four pairs").as_slice(),
        &each[..],
        "four pairs",
    );
    same(&rt, packed.left(), 3, "pairs left");
    same(
        &rt,
        packed.step(0x24).expect(&rt, "three pairs").as_slice(),
        &each[..3],
        "the last three pairs",
    );
    same(&rt, packed.finish(), Ok(()), "the end");
}

#[test]
fn wrong_octets_of_pairs_are_refused(rt: HostRuntime) {
    let mut packed = PackedPairs::new(PairHead { pairs: 3 });
    same(
        &rt,
        packed.finish(),
        Err(PackedFault::ShortBody),
        "the end where pairs are left",
    );
    same(
        &rt,
        packed.step(0xbf).err(),
        Some(PackedFault::PadBits),
        "octet bf",
    );
    same(
        &rt,
        packed.step(0x7f).err(),
        Some(PackedFault::PadBits),
        "octet 7f",
    );
    same(&rt, packed.left(), 3, "pairs left");
    holds(&rt, packed.step(0x24).is_ok(), "the last three pairs");
    same(
        &rt,
        packed.step(0).err(),
        Some(PackedFault::Trailing),
        "an octet too many",
    );
}

/// An octet of a packed capture of two lines, and its pairs.
struct PairRow {
    octet: u8,
    pairs: [(bool, bool); 4],
}

const NEITHER: (bool, bool) = (false, false);

const FIRST: (bool, bool) = (true, false);

const SECOND: (bool, bool) = (false, true);

const PAIRS: [PairRow; 4] = [
    PairRow {
        octet: 0x01,
        pairs: [FIRST, NEITHER, NEITHER, NEITHER],
    },
    PairRow {
        octet: 0x08,
        pairs: [NEITHER, SECOND, NEITHER, NEITHER],
    },
    PairRow {
        octet: 0x99,
        pairs: [FIRST, SECOND, FIRST, SECOND],
    },
    PairRow {
        octet: 0x46,
        pairs: [SECOND, FIRST, NEITHER, FIRST],
    },
];

#[test]
fn octets_are_four_pairs(rt: HostRuntime) {
    let mut packed = PackedPairs::new(PairHead { pairs: 17 });
    for row in &PAIRS {
        let pairs = packed.step(row.octet).expect(&rt, "four pairs");
        same(
            &rt,
            pairs.as_slice(),
            &row.pairs[..],
            format_args!("octet {}", row.octet),
        );
    }
    same(&rt, packed.left(), 1, "pairs left");
    same(
        &rt,
        packed.finish(),
        Err(PackedFault::ShortBody),
        "the end where pairs are left",
    );
}

#[test]
fn sixteen_octets_are_parted(rt: HostRuntime) {
    // Bits 0 1 0 1 of the first line in each e4, and 0 0 1 1 of the second. In 55 the first line
    // alone has four ones, in aa the second alone.
    let octets = [
        0xe4, 0x55, 0xaa, 0, 0xe4, 0, 0, 0x55, 0x01, 0x02, 0x40, 0x80, 0xe4, 0xe4, 0, 0,
    ];
    let mut packed = PackedPairs::new(PairHead { pairs: 65 });
    let mut first = [0xff; 9];
    let mut second = [0xff; 9];
    same(&rt, packed.whole(15), 0, "whole octets in 15");
    same(&rt, packed.whole(40), 16, "whole octets in 40");
    if packed.left() >= 64 {
        packed.unpack_octets(&octets, &mut first, &mut second);
    }
    same(
        &rt,
        first,
        [0xfa, 0, 0x0a, 0xf0, 0x01, 0x08, 0xaa, 0, 0xff],
        "the first line",
    );
    same(
        &rt,
        second,
        [0x0c, 0x0f, 0x0c, 0, 0x10, 0x80, 0xcc, 0, 0xff],
        "the second line",
    );
    same(&rt, packed.left(), 1, "pairs left");
}
