//! Values from outside, by both checks.

use crate::expect::{holds, same};
use bus_bits::Spent;
use bus_fcs::{BitCheck, Check, OctetCheck, fcs_is_good};

/// `10 83 00` and its frame checking sequence.
const FRAME: [u8; 5] = [0x10, 0x83, 0x00, 0xfd, 0xe5];

fn folded<C: Check>(octets: &[u8]) -> C {
    let mut check = C::fresh();
    for octet in octets {
        let mut spent = Spent::zero();
        check.fold(*octet, &mut spent);
    }
    check
}

/// The register after these octets, bit by bit, as the rules have it (ISO/IEC 13239, 16-bit frame checking sequence).
fn register_of(octets: &[u8]) -> u16 {
    let mut register: u16 = 0xffff;
    for octet in octets {
        for place in 0..8u32 {
            let adds = register % 2 != u16::from(*octet) >> place & 1;
            register /= 2;
            if adds {
                register ^= 0x8408;
            }
        }
    }
    register
}

/// The published check value of this CRC (`123456789`), and values worked out outside this code, as sent.
#[test]
fn trailers(rt: HostRuntime) {
    let cases: [(&[u8], [u8; 2]); 9] = [
        (b"123456789", [0x6e, 0x90]),
        (&[0x10, 0x83, 0x00], [0xfd, 0xe5]),
        (&[0x10, 0x83, 0x80], [0xf5, 0x61]),
        (&[0xff, 0x83, 0x09], [0x5a, 0x3b]),
        (&[0xff, 0x83, 0x00], [0x9b, 0xa6]),
        (&[0x10, 0x83, 0xfe], [0x0c, 0xfb]),
        (&[0x10, 0x13], [0xcc, 0xb8]),
        (&[0x10, 0x83, 0x01], [0x74, 0xf4]),
        (&[0x10, 0x83, 0x81, 0x01, 0x02], [0x6e, 0x1f]),
    ];
    for (octets, want) in cases {
        let case = format_args!("{octets:?}");
        same(&rt, folded::<BitCheck>(octets).trailer(), want, &case);
        same(&rt, folded::<OctetCheck>(octets).trailer(), want, &case);
    }
}

/// The register after each octet of a frame: the check value is its inverse.
#[test]
fn registers(rt: HostRuntime) {
    let cases: [(usize, u16); 5] = [
        (0, 0xffff),
        (1, 0x1f06),
        (2, 0xd3ba),
        (3, 0x1a02),
        (5, 0xf0b8),
    ];
    for (count, register) in cases {
        let want = (!register).to_le_bytes();
        let octets = &FRAME[..count.min(FRAME.len())];
        let case = format_args!("{count} octets");
        same(&rt, folded::<BitCheck>(octets).trailer(), want, &case);
        same(&rt, folded::<OctetCheck>(octets).trailer(), want, &case);
    }
}

/// Eight octets folded at once.
fn folded_at_once<C: Check>(octets: &[u8; 8]) -> C {
    let mut check = C::fresh();
    let mut spent = Spent::zero();
    check.fold_eight(octets, &mut spent);
    check
}

/// Eight octets folded by fours.
fn folded_by_fours<C: Check>(octets: &[u8; 8]) -> C {
    let [a, b, c, d, e, f, g, h] = *octets;
    let mut check = C::fresh();
    let mut spent = Spent::zero();
    check.fold_four(&[a, b, c, d], &mut spent);
    let mut spent = Spent::zero();
    check.fold_four(&[e, f, g, h], &mut spent);
    check
}

/// Every octet at each of eight places, folded one by one, by fours and all at once.
#[test]
fn each_octet_at_each_place(rt: HostRuntime) {
    for place in 0..8usize {
        for octet in 0..=255u8 {
            let mut octets = [0x10; 8];
            octets[place] = octet;
            let want = (!register_of(&octets)).to_le_bytes();
            let case = format_args!("{octet} at {place}");
            same(&rt, folded::<BitCheck>(&octets).trailer(), want, &case);
            same(&rt, folded::<OctetCheck>(&octets).trailer(), want, &case);
            same(
                &rt,
                folded_by_fours::<OctetCheck>(&octets).trailer(),
                want,
                &case,
            );
            same(
                &rt,
                folded_at_once::<BitCheck>(&octets).trailer(),
                want,
                &case,
            );
            same(
                &rt,
                folded_at_once::<OctetCheck>(&octets).trailer(),
                want,
                &case,
            );
        }
    }
}

/// The work of folding so many octets.
fn cost_of<C: Check>(count: usize) -> u64 {
    let mut check = C::fresh();
    let mut sum: u64 = 0;
    for octet in [0x55; 8].iter().take(count) {
        let mut spent = Spent::zero();
        check.fold(*octet, &mut spent);
        sum = sum.saturating_add(spent.folded);
    }
    sum
}

/// The work of folding eight octets at once.
fn cost_of_eight<C: Check>() -> u64 {
    let mut check = C::fresh();
    let mut spent = Spent::zero();
    check.fold_eight(&[0x55; 8], &mut spent);
    spent.folded
}

/// An octet costs eight units of work by bits, and one by tables.
#[test]
fn costs(rt: HostRuntime) {
    for (count, by_bits, by_octets) in [(0, 0, 0), (1, 8, 1), (7, 56, 7)] {
        same(&rt, cost_of::<BitCheck>(count), by_bits, "units by bits");
        same(
            &rt,
            cost_of::<OctetCheck>(count),
            by_octets,
            "units by octets",
        );
    }
    same(&rt, cost_of_eight::<BitCheck>(), 64, "units by bits");
    same(&rt, cost_of_eight::<OctetCheck>(), 8, "units by octets");
    let mut four = Spent::zero();
    OctetCheck::fresh().fold_four(&[0x55; 4], &mut four);
    same(&rt, four.folded, 4, "units by octets");
}

/// A frame is good, and with the octets of its check exchanged it is not.
#[test]
fn good_and_exchanged(rt: HostRuntime) {
    for (octets, want) in [(FRAME, true), ([0x10, 0x83, 0x00, 0xe5, 0xfd], false)] {
        let case = format_args!("{octets:?}");
        same(&rt, folded::<BitCheck>(&octets).is_good(), want, &case);
        same(&rt, folded::<OctetCheck>(&octets).is_good(), want, &case);
        same(&rt, fcs_is_good::<BitCheck>(&octets), want, &case);
        same(&rt, fcs_is_good::<OctetCheck>(&octets), want, &case);
    }
}

/// Each change of a frame within sixteen bits is seen: its first changed bit is one of 25, and any
/// of the fifteen bits after it may change too.
#[test]
fn changes_within_sixteen_bits(rt: HostRuntime) {
    let frame = u64::from_le_bytes([0x10, 0x83, 0x00, 0xfd, 0xe5, 0, 0, 0]);
    for place in 0..25u32 {
        for rest in 0..32768u64 {
            let octets = (frame ^ ((2 * rest + 1) << place)).to_le_bytes();
            let case = format_args!("{octets:?}");
            holds(&rt, !folded::<BitCheck>(&octets[..5]).is_good(), &case);
            holds(&rt, !folded::<OctetCheck>(&octets[..5]).is_good(), &case);
        }
    }
}
