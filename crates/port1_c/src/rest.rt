//! The rule of rest in a caller's memory, and what C calls to follow it.

ghost use Rattle.std.specs.Prelude.{◌≡◌, ◌≢◌, ◌+◌, ◌≤◌, ◌<◌, ◌==◌, ◌↔◌, ◌⊎◌, ◌++◌, ◌∷◌, [], List, length};
ghost use Rattle.bus_tap.specs.Arrival.{Arrival};
ghost use Rattle.bus_tap.specs.Rested.{IsRestAfter, fill, rested};
ghost use Rattle.port1_c.specs.Rest.{IsRest, PutsRested, arrival_told, rest_told};
ghost use Rattle.port1_c.specs.declared.status.TheConstants.{OK, BAD_STATE, BAD_ARGUMENT, NO_ROOM};

use crate::arrival::{Port1Arrival, put_rested};
use crate::status::{BAD_ARGUMENT, BAD_STATE, NO_ROOM, OK};
use bus_tap::RestRule;

/// The rule of rest between two bits. Its layout is that of `c/include/port1.h`.
#[repr(C)]
#[derive(Clone, Copy)]
pub struct Port1Rest {
    /// The silence that brings the second line to rest, in bits of the first line, or 0 where none does.
    pub most: u64,
    /// Bits of the first line since the last of the second, up to `most`.
    pub silent: u64,
    /// 1s at the end of the second line with those put in, up to fifteen.
    pub ones: u64,
}

impl Port1Rest {
    /// The memory that holds this rule.
    fn of(rule: &RestRule, most: u64) -> Self
        requires { rule.now.most ≡ most }
        ensures value { rest_told result ≡ rule.now }
        ensures sound { IsRest result }
    {
        Port1Rest {
            most,
            silent: rule.silent(),
            ones: rule.ones(),
        }
    }
}

/// Makes the rule before the first bit, whatever the memory holds: after `most` bits of the first line without one of
/// the second, this comes to rest; with 0 it never does. Returns OK.
#[unsafe(no_mangle)]
pub extern "C" fn port1_rest_init(rest: &mut Port1Rest, most: u64) -> u32
    ensures status { result ≡ OK }
    ensures sound { IsRest rest.new }
    ensures stands { IsRestAfter (rest_told rest.new) [] }
    ensures given { rest.new.most ≡ most }
{
    *rest = Port1Rest::of(&RestRule::new(most), most);
    OK
}

/// Takes a bit that arrives. `rests` is then 1 where fifteen 1s of the second line arrive right after it, and else 0.
///
/// Returns OK, BAD_ARGUMENT where the bit is of no line, or BAD_STATE where the memory holds no rule; where it is not
/// OK, nothing has changed.
#[unsafe(no_mangle)]
pub extern "C" fn port1_rest_push(
    rest: &mut Port1Rest,
    arrival: &Port1Arrival,
    rests: &mut u8,
) -> u32
    ensures status { (result ≡ OK) ⊎ (result ≡ BAD_STATE) ⊎ (result ≡ BAD_ARGUMENT) }
    ensures argument { result ≡ BAD_ARGUMENT ↔ (arrival.now.line < 1) ⊎ (2 < arrival.now.line) }
    ensures state { IsRest rest.old → result ≢ BAD_STATE }
    ensures refused { result ≡ OK → IsRest rest.old }
    ensures kept { result ≢ OK → (rest.new ≡ rest.old) × (rests.new ≡ rests.old) }
    ensures sound { result ≡ OK → IsRest rest.new }
    ensures given { rest.new.most ≡ rest.old.most }
    ensures flag { result ≡ OK → rests.new ≤ 1 }
    ensures rested { result ≡ OK → (xs : List Arrival) → IsRestAfter (rest_told rest.old) xs →
        rested rest.old.most (xs ++ arrival_told arrival.now ∷ [])
        ≡ rested rest.old.most xs ++ (arrival_told arrival.now ∷ fill (rests.new == 1)) }
    ensures after { result ≡ OK → (xs : List Arrival) → IsRestAfter (rest_told rest.old) xs →
        IsRestAfter (rest_told rest.new) (xs ++ arrival_told arrival.now ∷ []) }
{
    let Some(line) = arrival.line() else {
        return BAD_ARGUMENT;
    };
    let Some(mut rule) = RestRule::resume(rest.most, rest.silent, rest.ones) else {
        return BAD_STATE;
    };
    *rests = u8::from(rule.push(line, arrival.bit != 0));
    *rest = Port1Rest::of(&rule, rest.most);
    OK
}

/// The most bits that are put for one: itself and fifteen 1s.
const MOST_PUT: usize = 16;

/// Takes bits that arrive, from number `at` on, while there is room for sixteen bits more, and puts each, with fifteen
/// 1s of the second line right behind it where that comes to rest. `at` is then the next to take, and `put` how many
/// bits were put.
///
/// Returns OK, or NO_ROOM where there is room for fewer than sixteen bits, with nothing changed. Where it returns
/// BAD_ARGUMENT as the next bit is of no line, or BAD_STATE as the memory holds no rule, those before were put.
#[unsafe(no_mangle)]
pub extern "C" fn port1_rest_feed(
    rest: &mut Port1Rest,
    arrivals: &[Port1Arrival],
    at: &mut usize,
    out: &mut [Port1Arrival],
    put: &mut usize,
) -> u32
    ensures status { (result ≡ OK) ⊎ (result ≡ BAD_STATE) ⊎ (result ≡ BAD_ARGUMENT) ⊎ (result ≡ NO_ROOM) }
    ensures room { result ≡ NO_ROOM ↔ (length out.old < 16) }
    ensures kept { result ≡ NO_ROOM → (rest.new ≡ rest.old) × (at.new ≡ at.old) × (out.new ≡ out.old)
        × (put.new ≡ put.old) }
    ensures state { IsRest rest.old → (result ≢ BAD_STATE) × IsRest rest.new }
    ensures given { rest.new.most ≡ rest.old.most }
    ensures bound { (at.old ≤ at.new) × (at.old ≤ length arrivals.now → at.new ≤ length arrivals.now) }
    ensures all { result ≡ OK → at.new < length arrivals.now → length out.old < put.new + 16 }
    ensures puts { result ≢ NO_ROOM → PutsRested rest.old out.old arrivals.now at.old at.new rest.new out.new put.new }
{
    if out.len() < MOST_PUT {
        return NO_ROOM;
    }
    *put = 0;
    while *at < arrivals.len() && out.len() - *put >= MOST_PUT {
        let arrival = &arrivals[*at];
        let Some(line) = arrival.line() else {
            return BAD_ARGUMENT;
        };
        let mut rests: u8 = 0;
        let status = port1_rest_push(rest, arrival, &mut rests);
        if status != OK {
            return status;
        }
        put_rested(line, arrival.bit != 0, rests == 1, out, put);
        *at += 1;
    }
    OK
}
