//! The counted steps of worked lists.

use super::{bits_of, new_analyser};
use crate::expect::same;
use bus_bits::Spent;
use bus_fcs::{BitCheck, Check, OctetCheck};
use bus_line::Span;
use bus_rows::CALLS;
use bus_watch::{Analyser, Counts};
use std::alloc::Global;
use std::process::Abort;

/// No steps.
pub(super) const NONE: Spent = Spent {
    shifted: 0,
    assembled: 0,
    folded: 0,
    stored: 0,
    copied: 0,
    handled: 0,
};

/// The steps of a call and its reply, but those of the check.
const OF_CALL_AND_REPLY: Spent = Spent {
    shifted: 106,
    assembled: 80,
    stored: 10,
    copied: 10,
    handled: 12,
    ..NONE
};

const OF_ABORT: Spent = Spent {
    shifted: 23,
    assembled: 7,
    handled: 3,
    ..NONE
};

const OF_ABORT_AND_IDLE: Spent = Spent {
    shifted: 31,
    assembled: 7,
    handled: 6,
    ..NONE
};

/// Pushes the bits of words.
fn push_words<C: Check>(rt: &impl Abort, alloc: Global, analyser: &mut Analyser<C>, words: &str) {
    for bit in &bits_of(rt, alloc, words) {
        let _ = analyser.push(*bit).expect(rt, "a place");
    }
}

fn counted<C: Check>(rt: &impl Abort, alloc: Global, words: &str) -> Spent {
    let mut analyser = new_analyser::<C>(rt, alloc, CALLS, 2, 0);
    push_words(rt, alloc, &mut analyser, words);
    analyser.spent()
}

/// The steps of a list with either check.
fn check_steps(rt: &impl Abort, alloc: Global, words: &str, by_bits: Spent, by_octets: Spent) {
    same(rt, counted::<BitCheck>(rt, alloc, words), by_bits, words);
    let counted = counted::<OctetCheck>(rt, alloc, words);
    same(rt, counted, by_octets, words);
}

/// And their sums.
fn check_totals(rt: &impl Abort, alloc: Global, words: &str, by_bits: u128, by_octets: u128) {
    let total = counted::<BitCheck>(rt, alloc, words).total();
    same(rt, total, by_bits, words);
    let total = counted::<OctetCheck>(rt, alloc, words).total();
    same(rt, total, by_octets, words);
}

/// The counters of worked lists, by both checks, and the sums of a call and its reply.
#[test]
fn steps(rt: HostRuntime) {
    let alloc = rt.alloc();
    check_steps(&rt, alloc, "", NONE, NONE);
    let flag = Spent { shifted: 8, ..NONE };
    check_steps(&rt, alloc, "flag", flag, flag);
    let answered = "flag call flag reply flag";
    let by_bits = Spent {
        folded: 80,
        ..OF_CALL_AND_REPLY
    };
    let by_octets = Spent {
        folded: 10,
        ..OF_CALL_AND_REPLY
    };
    check_steps(&rt, alloc, answered, by_bits, by_octets);
    check_totals(&rt, alloc, answered, 298, 228);
    let abort = "flag 00001000 1111111";
    check_steps(&rt, alloc, abort, OF_ABORT, OF_ABORT);
    check_totals(&rt, alloc, abort, 33, 33);
    let idle = "flag 00001000 1111111 11111111";
    check_steps(&rt, alloc, idle, OF_ABORT_AND_IDLE, OF_ABORT_AND_IDLE);
    check_totals(&rt, alloc, idle, 44, 44);
}

/// The steps of a command 1025 times.
const OF_MANY_CALLS: Spent = Spent {
    shifted: 50233,
    assembled: 41000,
    folded: 5125,
    stored: 5125,
    copied: 5125,
    handled: 6150,
};

/// The last of these commands.
const LAST_CALL: Span = Span {
    first: 50184,
    past: 50225,
};

fn check_kept(rt: &impl Abort, analyser: &Analyser<OctetCheck>, index: usize, want: Span) {
    let kept = analyser.history(index).expect(rt, "a frame");
    same(rt, kept.span, want, format_args!("frame {index}"));
}

/// The first command that is kept.
const SECOND_CALL: Span = Span {
    first: 57,
    past: 98,
};

const MISSED: Counts = Counts {
    answered: 0,
    missing: 1024,
    spoilt: 0,
    late: 0,
};

fn check_long_run(rt: &impl Abort, analyser: &Analyser<OctetCheck>) {
    same(rt, analyser.history_len(), 1024, "how many frames are kept");
    check_kept(rt, analyser, 0, SECOND_CALL);
    check_kept(rt, analyser, 1023, LAST_CALL);
    same(rt, analyser.tally(16), MISSED, "the tally of station 16");
    let pending = analyser.ending().pending.expect(rt, "a command");
    same(
        rt,
        pending.span,
        LAST_CALL,
        "the span of the pending command",
    );
    same(rt, analyser.spent(), OF_MANY_CALLS, "the steps");
    same(rt, analyser.spent().total(), 112758, "the sum of the steps");
}

/// A command 1025 times, each but the last missed by its answer: the deepest history, which has 1024
/// frames, drops the first.
#[test]
fn long_run(rt: HostRuntime) {
    let alloc = rt.alloc();
    let mut analyser = new_analyser(&rt, alloc, CALLS, 1024, 0);
    push_words(&rt, alloc, &mut analyser, "flag");
    for _ in 0..1025u64 {
        push_words(&rt, alloc, &mut analyser, "call flag");
    }
    check_long_run(&rt, &analyser);
}
