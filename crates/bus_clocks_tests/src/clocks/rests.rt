//! A second line whose clock stops, brought to rest.

use super::scans::{in_octets, traffic};
use super::{Arrival, CALL, analyser, arrivals_in, arrivals_of, bits_of, number_of, push};
use crate::expect::{holds, same};
use bus_fcs::OctetCheck;
use bus_tap::RestRule;
use bus_watch::Line;
use std::alloc::Global;
use std::process::Abort;

/// The name of a row, for how many places the second line's silence lasts, how its bits arrive, its words, and what is
/// seen of a call and of these. The words of the broken reply are its first twenty bits, after a flag.
///
/// Its last bit is at place 87; the 64th after it is at place 151, and the first line has 200 bits: 112 after that bit.
/// Fifteen ones of its own are an idle line that begins at place 88, and lasts up to place 102. Last comes silence that
/// a bit ends in time.
const REST_ROWS: &str = "\
    silence of 64 places # 64 # 60 0 1, 1 1 28 # flag 00001000 11000001 0000 => \
        8 49 frame 108300fde5 station 16 type 0 on 1; 57 72 idle on 1; \
        68 88 abort, spoilt 8 49 station 16 type 0 on 2; 151 152 idle on 2\n\
    silence up to the last place # 112 # 60 0 1, 1 1 28 # flag 00001000 11000001 0000 => \
        8 49 frame 108300fde5 station 16 type 0 on 1; 57 72 idle on 1; \
        68 88 abort, spoilt 8 49 station 16 type 0 on 2; 199 200 idle on 2\n\
    a place too few # 113 # 60 0 1, 1 1 28 # flag 00001000 11000001 0000 => \
        8 49 frame 108300fde5 station 16 type 0 on 1; 57 72 idle on 1\n\
    no rest # 0 # 60 0 1, 1 1 28 # flag 00001000 11000001 0000 => \
        8 49 frame 108300fde5 station 16 type 0 on 1; 57 72 idle on 1\n\
    before the first bit # 64 # 0 0 0 # => \
        8 49 frame 108300fde5 station 16 type 0 on 1; 57 72 idle on 1\n\
    at rest already # 64 # 60 0 1, 1 1 43 # flag 00001000 11000001 0000 idle => \
        8 49 frame 108300fde5 station 16 type 0 on 1; 57 72 idle on 1; \
        68 88 abort, spoilt 8 49 station 16 type 0 on 2; 88 103 idle on 2\n\
    a stop of 63 places # 64 # 50 0 1, 1 1 28, 63 1 1, 1 1 28 # flag reply flag => \
        8 49 frame 108300fde5 station 16 type 0 on 1; 57 72 idle on 1; \
        58 161 frame 108380f561 station 16 type 128, answered 8 49 station 16 type 0 on 2\n\
    sixteen places between octets # 40 # 60 0 1, 1 1 8, 16 0 1, 1 1 8, 16 0 1, 1 1 8, 16 0 1, 1 1 8, 16 0 1, 1 1 8, \
        16 0 1, 1 1 17 # flag reply flag => \
        8 49 frame 108300fde5 station 16 type 0 on 1; 57 72 idle on 1; \
        84 189 frame 108380f561 station 16 type 128, answered 8 49 station 16 type 0 on 2";

/// The name of a row, the silence, and arrivals as in a capture, with `-` where fifteen ones are put in.
const FILLS: &str = "\
    once in a silence # 5 # o00000-0000000\n\
    at rest by what was put in # 5 # o00000-i00000ii0000000\n\
    again behind a 0 # 5 # o00000-i00000o00000-\n\
    a 0 in time # 5 # o0000o0000o00000-\n\
    fourteen ones # 5 # oiiiiiiiiiiiiii00000-\n\
    fifteen ones # 5 # oiiiiiiiiiiiiiii00000\n\
    one put in behind fourteen # 5 # oiiiiiiiiiiiiii00000-o00000-\n\
    before the first 0 # 5 # 00000i00000ii00000\n\
    after each bit of the first line # 1 # o0-0i0i0o1-1\n\
    never # 0 # o0000000000000000000000";

/// What is seen of arrivals with rest put in by a rule that is kept in numbers from one to the next.
fn rested(rt: &impl Abort, alloc: Global, most: u64, arrivals: &[Arrival]) -> String {
    let mut analyser = analyser::<OctetCheck>(rt, alloc);
    let mut rule = RestRule::new(most);
    let mut text = String::new(alloc);
    for arrival in arrivals {
        push(rt, &mut analyser, *arrival, &mut text);
        if rule.push(arrival.0, arrival.1) {
            for _ in 0..15 {
                push(rt, &mut analyser, (Line::Second, true), &mut text);
            }
        }
        match RestRule::resume(most, rule.silent(), rule.ones()) {
            Some(kept) => rule = kept,
            None => holds(rt, false, "a rule is one of its own numbers"),
        }
    }
    text
}

fn check_rest(rt: &impl Abort, alloc: Global, line: &str) {
    let (name, rest) = line.split_once('#').expect(rt, "a name");
    let (most, rest) = rest.split_once('#').expect(rt, "a silence");
    let (turns, rest) = rest.split_once('#').expect(rt, "turns");
    let (second, want) = rest.split_once("=>").expect(rt, "words");
    let most = number_of(rt, Some(most.trim()));
    let arrivals = arrivals_in(rt, alloc, CALL, second, turns);
    let text = rested(rt, alloc, most as u64, &arrivals);
    same(rt, text.as_str(), want.trim(), name);
}

#[test]
fn rows_of_rest(rt: HostRuntime) {
    for line in REST_ROWS.lines() {
        check_rest(&rt, rt.alloc(), line);
    }
}

/// Where the rule puts ones in.
fn check_fills(rt: &impl Abort, alloc: Global, line: &str) {
    let (name, rest) = line.split_once('#').expect(rt, "a name");
    let (most, want) = rest.split_once('#').expect(rt, "a silence");
    let mut rule = RestRule::new(number_of(rt, Some(most.trim())) as u64);
    let mut text = String::new(alloc);
    for mark in want.trim().chars() {
        let line = if mark == 'o' || mark == 'i' {
            Line::Second
        } else {
            Line::First
        };
        if mark != '-' {
            text.push(mark).expect(rt, "text");
            if rule.push(line, mark == '1' || mark == 'i') {
                text.push('-').expect(rt, "text");
            }
        }
    }
    same(rt, text.as_str(), want.trim(), name);
}

#[test]
fn fills(rt: HostRuntime) {
    for line in FILLS.lines() {
        check_fills(&rt, rt.alloc(), line);
    }
}

/// Bits behind a closing flag, after which the second clock stops, do not spoil the next answer.
#[test]
fn bits_behind_an_answer(rt: HostRuntime) {
    let alloc = rt.alloc();
    let words = "flag call flag ones-57 ones-57 111111 flag call flag ones-57 ones-57 111111";
    let first = bits_of(&rt, alloc, words);
    let second = bits_of(&rt, alloc, "flag reply flag 010 flag reply flag 010");
    let turns = "57 0 1, 1 1 60, 117 0 1, 1 1 60";
    let arrivals = arrivals_of(&rt, alloc, &first, &second, turns);
    let text = rested(&rt, alloc, 40, &arrivals);
    let want = "\
        8 49 frame 108300fde5 station 16 type 0 on 1; 57 72 idle on 1; \
        65 106 frame 108380f561 station 16 type 128, answered 8 49 station 16 type 0 on 2; \
        114 117 abort on 2; 156 157 idle on 2; \
        185 226 frame 108300fde5 station 16 type 0 on 1; 234 249 idle on 1; \
        242 283 frame 108380f561 station 16 type 128, answered 185 226 station 16 type 0 on 2; \
        291 294 abort on 2; 333 334 idle on 2";
    same(&rt, text.as_str(), want, "bits behind an answer");
}

/// The silence that suits a cabinet.
#[test]
fn usual_silence(rt: HostRuntime) {
    let mut rule = RestRule::new(RestRule::SILENCE);
    same(
        &rt,
        rule.push(Line::Second, false),
        false,
        "a bit of the second line",
    );
    for place in 1..=100 {
        same(
            &rt,
            rule.push(Line::First, true),
            place == 40,
            format_args!("place {place}"),
        );
    }
}

/// What both rules say of these arrivals, one by one and together, is the same, and rest comes with the last alone.
fn check_pushed(
    rt: &impl Abort,
    one_by_one: &mut RestRule,
    together: &RestRule,
    some: &[Arrival],
    comes: bool,
) {
    for (at, arrival) in some.iter().enumerate() {
        let is_last = at + 1 == some.len();
        same(
            rt,
            one_by_one.push(arrival.0, arrival.1),
            comes && is_last,
            "rest comes",
        );
    }
    same(rt, together.silent(), one_by_one.silent(), "the silence");
    same(rt, together.ones(), one_by_one.ones(), "the ones");
}

/// Arrivals that are pushed together leave the rule as each of them alone does, and bring the same rests.
fn check_together(rt: &impl Abort, alloc: Global, arrivals: &[Arrival], most: u64, size: usize) {
    let mut one_by_one = RestRule::new(most);
    let mut together = RestRule::new(most);
    for some in arrivals.chunks(size.max(1)) {
        let (bits, lines) = in_octets(rt, alloc, some);
        let held = bits.len().min(lines.len()).saturating_mul(8);
        let end = some.len().min(held);
        same(rt, end, some.len(), "all are held");
        let mut from = 0;
        for _ in 0..end {
            if from < end {
                let (count, comes) = together.push_some(&bits, &lines, from, end);
                let past = from + count;
                check_pushed(rt, &mut one_by_one, &together, &some[from..past], comes);
                from = past;
            }
        }
        same(rt, from, end, "all are pushed");
    }
}

/// Silences and sizes of every kind.
#[test]
fn many_together(rt: HostRuntime) {
    let alloc = rt.alloc();
    let arrivals = traffic(&rt, alloc, 11);
    for most in [0, 1, 2, 3, 7, 8, 9, 15, 16, 17, 40, 64, 400] {
        for size in [1, 7, 8, 9, 64, 399, 3000] {
            check_together(&rt, alloc, &arrivals, most, size);
        }
    }
}
