//! Long lists of random traffic by calls of every size.

use super::{bits_of, take_some};
use crate::expect::holds;
use bus_bits::Spent;
use bus_fcs::OctetCheck;
use bus_line::{LineDecoder, OwnedPiece, reports_whole};
use bus_rows::number_after;
use std::alloc::Global;
use std::process::Abort;

/// How many bits a list has at least.
const BITS: usize = 5000;

/// The longest frame in octets.
const LONGEST: usize = 5;

/// What traffic is made of: a flag, flags one after the other and with one 0 between them, a good frame
/// and one with a wrong octet, runs of 1s and of 0s, noise.
const PARTS: &str = "\
    01111110\n\
    01111110 01111110 01111110 01111110 01111110 01111110 01111110 01111110\n\
    011111101111110 01111110 01111110\n\
    01111110 00001000 11000001 00000000 101111101 10100111 01111110\n\
    01111110 00001000 11000001 00000001 101111101 10100111 01111110\n\
    111111111111111111111\n\
    111110111110111110\n\
    0110100101110100110010110\n\
    000000000000000000000000000000000000000000000000000000000000000000\n\
    0111110110";

/// How many parts these are.
const PART_COUNT: usize = 10;

/// What a decoder says of itself.
#[derive(Clone, Copy, PartialEq, Eq)]
pub(super) struct State {
    spent: Spent,
    buffered: usize,
    begun: Option<u64>,
}

pub(super) fn state_of(decoder: &LineDecoder<OctetCheck>) -> State {
    State {
        spent: decoder.spent(),
        buffered: decoder.buffered(),
        begun: decoder.begun(),
    }
}

fn part_of(rt: &impl Abort, number: usize) -> &'static str {
    PARTS.lines().nth(number % PART_COUNT).expect(rt, "a part")
}

/// Parts and beginnings of parts, one after the other; the same seed gives the same list.
pub(super) fn traffic(rt: &impl Abort, alloc: Global, seed: u64) -> Vec<bool> {
    let mut bits = Vec::new(alloc);
    let mut state = seed;
    for _ in 0..BITS {
        if bits.len() >= BITS {
            break;
        }
        state = number_after(state);
        let part = part_of(rt, (state >> 60) as usize);
        let most = (state >> 40) as usize % 80;
        for bit in bits_of(rt, alloc, part).iter().take(most) {
            bits.push(*bit).expect(rt, "memory");
        }
    }
    bits
}

/// What the decoder says of itself after each bit, by calls of one bit.
fn states_of(rt: &impl Abort, alloc: Global, bits: &[bool]) -> Vec<State> {
    let mut decoder = LineDecoder::<OctetCheck>::new(LONGEST, 0).expect(rt, "a decoder");
    let mut states = Vec::new(alloc);
    for bit in bits {
        decoder.push(*bit).expect(rt, "a place");
        states.push(state_of(&decoder)).expect(rt, "memory");
    }
    states
}

/// Whether calls of up to `size` bits answer these reports in order and no others, and the decoder
/// then says the same of itself as after as many calls of one bit.
fn agrees(
    rt: &impl Abort,
    bits: &[bool],
    reports: &[OwnedPiece],
    states: &[State],
    size: u32,
) -> bool {
    let mut decoder = LineDecoder::<OctetCheck>::new(LONGEST, 0).expect(rt, "a decoder");
    let mut wanted = reports.iter().map(|owned| owned.as_piece());
    let mut rest = bits;
    for _ in bits {
        if rest.is_empty() {
            break;
        }
        let (behind, piece) = take_some(rt, &mut decoder, rest, size);
        if piece.is_some() && piece != wanted.next() {
            return false;
        }
        rest = behind;
        let at = bits.len().wrapping_sub(rest.len()).wrapping_sub(1);
        if states.get(at) != Some(&state_of(&decoder)) {
            return false;
        }
    }
    wanted.next().is_none()
}

/// The reports of the whole list, and the same ledger, buffer and open piece after every call of
/// any size.
#[test]
fn random_lists(rt: HostRuntime) {
    let alloc = rt.alloc();
    for seed in 1..=4u64 {
        let bits = traffic(&rt, alloc, seed);
        assert!(&rt; bits.len() >= BITS && bits.len() <= 6000, "a list");
        let reports = reports_whole(alloc, &bits, LONGEST).expect(&rt, "memory");
        holds(&rt, reports.len() > 50, "reports");
        let states = states_of(&rt, alloc, &bits);
        for size in 1..=48 {
            holds(
                &rt,
                agrees(&rt, &bits, &reports, &states, size),
                format_args!("seed {seed}, {size} bits"),
            );
        }
    }
}
