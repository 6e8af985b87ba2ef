//! What C calls to decode two lines with a clock each.

ghost use Rattle.std.specs.Prelude.{◌≡◌, ◌≢◌, ◌≤◌, ◌<◌, ◌↔◌, ◌⊎◌, ◌++◌, ◌∷◌, [], List, length};
ghost use Rattle.bus_bits.specs.Limits.{most_places};
ghost use Rattle.bus_tap.specs.Arrival.{Arrival};
ghost use Rattle.port1_c.specs.Clocks.{AreSound, ClocksAfter, arrived_told, decided_told, memory_of, open_on};
ghost use Rattle.port1_c.specs.Clocks.{DecideNone, LastDecides, TakesArrivals, span_told};
ghost use Rattle.port1_c.specs.Line.{IsCoded};
ghost use Rattle.port1_c.specs.Rest.{arrival_told};
ghost use Rattle.port1_c.specs.declared.status.TheConstants.{OK, BAD_LENGTH, PLACE_LIMIT, BAD_STATE, BAD_ARGUMENT};

use crate::arrival::Port1Arrival;
use crate::calls::port1_line_init;
use crate::clocks::Port1Clocks;
use crate::report::{NONE, Port1Report};
use crate::status::{BAD_ARGUMENT, BAD_STATE, OK, PLACE_LIMIT};
use bus_tap::BitPlaces;

/// Makes decoders of two lines with a clock each in the caller's memory, whatever stands there. The first bit of the
/// first line has the place `origin`.
///
/// Returns OK, BAD_LENGTH where `longest` is not 3 to 256, or PLACE_LIMIT where `origin` is past 2^60; where it is not
/// OK, nothing has changed.
#[unsafe(no_mangle)]
pub extern "C" fn port1_clocks_init(clocks: &mut Port1Clocks, longest: u64, origin: u64) -> u32
    ensures longest { (result ≡ BAD_LENGTH) ↔ ((longest < 3) ⊎ (256 < longest)) }
    ensures origin { (result ≡ PLACE_LIMIT) ↔ ((3 ≤ longest) × (longest ≤ 256) × (most_places < origin)) }
    ensures status { result ≤ PLACE_LIMIT }
    ensures sound { result ≡ OK → AreSound clocks.new }
    ensures stands { result ≡ OK → ClocksAfter clocks.new [] }
    ensures given { result ≡ OK → (clocks.new.first.words.longest ≡ longest)
        × (clocks.new.first.words.origin ≡ origin) }
    ensures kept { result ≢ OK → clocks.new ≡ clocks.old }
{
    let status = port1_line_init(&mut clocks.first, longest, origin);
    if status == OK {
        let _made = port1_line_init(&mut clocks.second, longest, 0);
        clocks.places = BitPlaces::new(origin);
    }
    status
}

/// Takes a bit that arrives. The report is what it decided on its line, in places; a frame's octets are in that line.
///
/// Returns OK, PLACE_LIMIT where the line has no place for it, BAD_ARGUMENT where it is of no line, or BAD_STATE where
/// the memory does not hold two decoders; where it is not OK, nothing has changed.
#[unsafe(no_mangle)]
pub extern "C" fn port1_clocks_push(
    clocks: &mut Port1Clocks,
    arrival: &Port1Arrival,
    report: &mut Port1Report,
) -> u32
    ensures status { (result ≡ OK) ⊎ (result ≡ PLACE_LIMIT) ⊎ (result ≡ BAD_STATE) ⊎ (result ≡ BAD_ARGUMENT) }
    ensures argument { result ≡ BAD_ARGUMENT ↔ (arrival.now.line < 1) ⊎ (2 < arrival.now.line) }
    ensures limit { AreSound clocks.old → result ≢ BAD_ARGUMENT → (result ≡ PLACE_LIMIT
        ↔ most_places ≤ (memory_of clocks.old (arrival_told arrival.now).0).words.place) }
    ensures state { AreSound clocks.old → result ≢ BAD_STATE }
    ensures refused { result < BAD_STATE → AreSound clocks.old }
    ensures kept { result ≢ OK → (clocks.new ≡ clocks.old) × (report.new ≡ report.old) }
    ensures sound { result ≡ OK → AreSound clocks.new }
    ensures coded { result ≡ OK → IsCoded report.new }
    ensures given { result ≡ OK → (clocks.new.first.words.longest ≡ clocks.old.first.words.longest)
        × (clocks.new.first.words.origin ≡ clocks.old.first.words.origin) }
    ensures after { result ≡ OK → (xs : List Arrival) → ClocksAfter clocks.old xs →
        ClocksAfter clocks.new (xs ++ arrival_told arrival.now ∷ []) }
    ensures adds { result ≡ OK → (xs : List Arrival) → ClocksAfter clocks.old xs →
        arrived_told clocks.old (xs ++ arrival_told arrival.now ∷ [])
        ≡ arrived_told clocks.old xs ++ decided_told clocks.new (arrival_told arrival.now).0 report.new }
{
    if arrival.line().is_none() {
        return BAD_ARGUMENT;
    }
    if !clocks.is_sound() {
        return BAD_STATE;
    }
    take(clocks, arrival, report)
}

/// Takes a bit that arrives, as [`port1_clocks_push`], where the memory holds two decoders.
#[inline(always)]
fn take(clocks: &mut Port1Clocks, arrival: &Port1Arrival, report: &mut Port1Report) -> u32
    requires sound { AreSound clocks.old }
    ensures status { (result ≡ OK) ⊎ (result ≡ PLACE_LIMIT) ⊎ (result ≡ BAD_ARGUMENT) }
    ensures argument { result ≡ BAD_ARGUMENT ↔ (arrival.now.line < 1) ⊎ (2 < arrival.now.line) }
    ensures limit { result ≢ BAD_ARGUMENT → (result ≡ PLACE_LIMIT
        ↔ most_places ≤ (memory_of clocks.old (arrival_told arrival.now).0).words.place) }
    ensures kept { result ≢ OK → (clocks.new ≡ clocks.old) × (report.new ≡ report.old) }
    ensures sound { AreSound clocks.new }
    ensures coded { result ≡ OK → IsCoded report.new }
    ensures given { (clocks.new.first.words.longest ≡ clocks.old.first.words.longest)
        × (clocks.new.first.words.origin ≡ clocks.old.first.words.origin) }
    ensures after { result ≡ OK → (xs : List Arrival) → ClocksAfter clocks.old xs →
        ClocksAfter clocks.new (xs ++ arrival_told arrival.now ∷ []) }
    ensures adds { result ≡ OK → (xs : List Arrival) → ClocksAfter clocks.old xs →
        arrived_told clocks.old (xs ++ arrival_told arrival.now ∷ [])
        ≡ arrived_told clocks.old xs ++ decided_told clocks.new (arrival_told arrival.now).0 report.new }
{
    let Some(line) = arrival.line() else {
        return BAD_ARGUMENT;
    };
    let Ok(event) = clocks.push(line, arrival.bit != 0) else {
        return PLACE_LIMIT;
    };
    *report = Port1Report::of(event);
    OK
}

/// Takes bits that arrive, from number `at` on, up to the first that decides a report. `at` is then the next to take,
/// and the report what the last one decided on its line, in places; a frame's octets are in that line.
///
/// Returns OK; PLACE_LIMIT where the line of that bit has no place for it, or BAD_ARGUMENT where it is of no line, and
/// the bits before it were taken and decided nothing; or BAD_STATE where the memory does not hold two decoders.
#[unsafe(no_mangle)]
pub extern "C" fn port1_clocks_feed(
    clocks: &mut Port1Clocks,
    arrivals: &[Port1Arrival],
    at: &mut usize,
    report: &mut Port1Report,
) -> u32
    ensures status { (result ≡ OK) ⊎ (result ≡ PLACE_LIMIT) ⊎ (result ≡ BAD_STATE) ⊎ (result ≡ BAD_ARGUMENT) }
    ensures state { AreSound clocks.old → (result ≢ BAD_STATE) × AreSound clocks.new }
    ensures refused { result ≢ BAD_STATE → AreSound clocks.old }
    ensures kept { result ≡ BAD_STATE → (clocks.new ≡ clocks.old) × (at.new ≡ at.old) }
    ensures coded { IsCoded report.new }
    ensures bound { (at.old ≤ at.new) × (at.old ≤ length arrivals.now → at.new ≤ length arrivals.now) }
    ensures all { result ≡ OK → report.new.kind ≡ 0 → length arrivals.now ≤ at.new }
    ensures some { report.new.kind ≢ 0 → (result ≡ OK) × (at.old < at.new) }
    ensures given { (clocks.new.first.words.longest ≡ clocks.old.first.words.longest)
        × (clocks.new.first.words.origin ≡ clocks.old.first.words.origin) }
    ensures after { TakesArrivals clocks.old arrivals.now at.old at.new clocks.new }
    ensures none { report.new.kind ≡ 0 → DecideNone clocks.old arrivals.now at.old at.new }
    ensures decides { report.new.kind ≢ 0 → LastDecides clocks.old arrivals.now at.old at.new report.new clocks.new }
{
    *report = Port1Report::none();
    if !clocks.is_sound() {
        return BAD_STATE;
    }
    while *at < arrivals.len() {
        let status = take(clocks, &arrivals[*at], report);
        if status != OK {
            return status;
        }
        *at += 1;
        if report.kind != NONE {
            return OK;
        }
    }
    OK
}

/// Says whether a piece has begun on line 1 or 2 that nothing has ended yet, and where, in places: `has_begun` is then
/// 1, and else 0, with `first` and `past` as they were.
///
/// Returns OK, BAD_ARGUMENT where there is no such line, or BAD_STATE where the memory does not hold two decoders;
/// where it is not OK, nothing has changed.
#[unsafe(no_mangle)]
pub extern "C" fn port1_clocks_open(
    clocks: &Port1Clocks,
    line: u32,
    has_begun: &mut u8,
    first: &mut u64,
    past: &mut u64,
) -> u32
    ensures status { (result ≡ OK) ⊎ (result ≡ BAD_STATE) ⊎ (result ≡ BAD_ARGUMENT) }
    ensures argument { result ≡ BAD_ARGUMENT ↔ (line < 1) ⊎ (2 < line) }
    ensures state { AreSound clocks.now → result ≢ BAD_STATE }
    ensures refused { result ≡ OK → AreSound clocks.now }
    ensures kept { result ≢ OK → (has_begun.new ≡ has_begun.old) × (first.new ≡ first.old) × (past.new ≡ past.old) }
    ensures flag { result ≡ OK → has_begun.new ≤ 1 }
    ensures untouched { result ≡ OK → has_begun.new ≡ 0 → (first.new ≡ first.old) × (past.new ≡ past.old) }
    ensures begun { result ≡ OK → (xs : List Arrival) → ClocksAfter clocks.now xs →
        span_told has_begun.new first.new past.new ≡ open_on line clocks.now.first.words.origin xs }
{
    if line < 1 || line > 2 {
        return BAD_ARGUMENT;
    }
    if !clocks.is_sound() {
        return BAD_STATE;
    }
    let begun = if line == 1 {
        clocks.open_first()
    } else {
        clocks.open_second()
    };
    match begun {
        Some(span) => {
            *has_begun = 1;
            *first = span.first;
            *past = span.past;
        }
        None => *has_begun = 0,
    }
    OK
}
