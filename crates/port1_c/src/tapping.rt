//! What C calls to sample a recording.

ghost use Rattle.std.specs.Prelude.{◌≡◌, ◌≢◌, ◌+◌, ◌-◌, ◌/◌, ◌≤◌, ◌<◌, ◌↔◌, ◌⊎◌, [], ℕ, length, map, replicate};
ghost use Rattle.std.specs.Prelude.{slice_get, slice_index};
ghost use Rattle.bus_bits.specs.Limits.{most_places};
ghost use Rattle.bus_tap.specs.Stopped.{IsStopAfter};
ghost use Rattle.bus_tap.specs.Tapped.{IsTapAfter, channels};
ghost use Rattle.bus_tap.specs.Words.{tap_told};
ghost use Rattle.port1_c.specs.Tap.{IsTap, Taps, TapsRuns, samples_from, wires_told};
ghost use Rattle.port1_c.specs.declared.status.TheConstants.{OK, PLACE_LIMIT, BAD_STATE, BAD_ARGUMENT, NO_ROOM};

use crate::arrival::Port1Arrival;
use crate::status::{BAD_ARGUMENT, BAD_STATE, NO_ROOM, OK, PLACE_LIMIT};
use crate::tap::{MOST, MOST_ARRIVALS, Port1Tap, take_run, take_runs, take_samples};
use crate::wires::Port1Wires;
use bus_tap::{StopRule, Tap};

/// Makes a tap that took no sample, whatever the memory holds. A level counts once it stood in `hold` + 1 samples in a
/// row; where the distance of two bits differs by more than `jump` samples from the one before, that is a jump. A bit
/// more than `rest` samples behind the last of its line comes behind fifteen 1s, or none does with 0. Returns OK.
#[unsafe(no_mangle)]
pub extern "C" fn port1_tap_init(
    tap: &mut Port1Tap,
    wires: &Port1Wires,
    hold: u32,
    jump: u64,
    rest: u64,
) -> u32
    ensures status { result ≡ OK }
    ensures sound { IsTap tap.new }
    ensures stands { IsTapAfter (tap_told tap.new.words) [] × IsStopAfter tap.new.stops [] }
    ensures given { (tap.new.words.hold ≡ hold) × (tap.new.words.jump ≡ jump) × (tap.new.stops.most ≡ rest)
        × (tap.new.wires ≡ wires.now) }
{
    tap.words = Tap::new(hold, jump).words();
    tap.wires = *wires;
    tap.stops = StopRule::new(rest);
    OK
}

/// Takes `count` samples that are the same, while there is room for 32 bits more, and puts the bits that arrive.
/// `count` is then how many samples are left, and `arrived` how many bits were put.
///
/// Returns OK, NO_ROOM where there is room for fewer than 32 bits, BAD_STATE where the memory holds no tap, or
/// PLACE_LIMIT where there would be more than 2^60 samples; where it is not OK, nothing has changed.
#[unsafe(no_mangle)]
pub extern "C" fn port1_tap_push(
    tap: &mut Port1Tap,
    sample: u64,
    count: &mut u64,
    arrivals: &mut [Port1Arrival],
    arrived: &mut usize,
) -> u32
    ensures status { (result ≡ OK) ⊎ (result ≡ PLACE_LIMIT) ⊎ (result ≡ BAD_STATE) ⊎ (result ≡ NO_ROOM) }
    ensures room { result ≡ NO_ROOM ↔ (length arrivals.old < 32) }
    ensures state { result ≡ BAD_STATE ↔ (32 ≤ length arrivals.old) × (IsTap tap.old → ⊥) }
    ensures limit { result ≡ PLACE_LIMIT ↔ (32 ≤ length arrivals.old) × IsTap tap.old
        × (most_places < tap.old.words.samples + count.old) }
    ensures kept { result ≢ OK → (tap.new ≡ tap.old) × (count.new ≡ count.old) × (arrivals.new ≡ arrivals.old)
        × (arrived.new ≡ arrived.old) }
    ensures sound { result ≡ OK → IsTap tap.new }
    ensures wires { tap.new.wires ≡ tap.old.wires }
    ensures bound { count.new ≤ count.old }
    ensures all { result ≡ OK → 0 < count.new → length arrivals.old < arrived.new + 32 }
    ensures taps { result ≡ OK → Taps tap.old arrivals.old
        (replicate (count.old - count.new) (channels (wires_told tap.old.wires) sample)) tap.new arrivals.new
        arrived.new }
{
    if arrivals.len() < MOST_ARRIVALS {
        return NO_ROOM;
    }
    let Some(mut held) = tap.words.tap() else {
        return BAD_STATE;
    };
    if *count > MOST - tap.words.samples {
        return PLACE_LIMIT;
    }
    *arrived = 0;
    let levels = tap.wires.wires().channels(sample);
    *count = take_run(&mut held, &mut tap.stops, levels, *count, arrivals, arrived);
    tap.words = held.words();
    OK
}

/// Takes samples of `width` octets each, the lowest first, from number `at` on, while there is room for 32 bits more,
/// and puts the bits that arrive. `at` is then the next sample to take, and `arrived` how many bits were put. Octets
/// behind the last whole sample are not read.
///
/// Returns what [`port1_tap_push`] returns, or BAD_ARGUMENT where `width` is not 1 to 8, or `at` is past the samples.
#[unsafe(no_mangle)]
pub extern "C" fn port1_tap_feed(
    tap: &mut Port1Tap,
    octets: &[u8],
    width: u32,
    at: &mut usize,
    arrivals: &mut [Port1Arrival],
    arrived: &mut usize,
) -> u32
    ensures status { (result ≡ OK) ⊎ (result ≡ PLACE_LIMIT) ⊎ (result ≡ BAD_STATE) ⊎ (result ≡ BAD_ARGUMENT)
        ⊎ (result ≡ NO_ROOM) }
    ensures argument { result ≡ BAD_ARGUMENT ↔ (width < 1) ⊎ (8 < width) ⊎ (length octets.now / width < at.old) }
    ensures room { result ≡ NO_ROOM → length arrivals.old < 32 }
    ensures state { result ≡ BAD_STATE → IsTap tap.old → ⊥ }
    ensures limit { result ≡ PLACE_LIMIT →
        most_places < tap.old.words.samples + (length octets.now / width - at.old) }
    ensures refused { result ≡ OK → (32 ≤ length arrivals.old) × IsTap tap.old
        × (tap.old.words.samples + (length octets.now / width - at.old) ≤ most_places) }
    ensures kept { result ≢ OK → (tap.new ≡ tap.old) × (at.new ≡ at.old) × (arrivals.new ≡ arrivals.old)
        × (arrived.new ≡ arrived.old) }
    ensures sound { result ≡ OK → IsTap tap.new }
    ensures wires { tap.new.wires ≡ tap.old.wires }
    ensures bound { result ≡ OK → (at.old ≤ at.new) × (at.new ≤ length octets.now / width) }
    ensures all { result ≡ OK → at.new < length octets.now / width → length arrivals.old < arrived.new + 32 }
    ensures taps { result ≡ OK → Taps tap.old arrivals.old
        (map (channels (wires_told tap.old.wires)) (samples_from width octets.now at.old (at.new - at.old))) tap.new
        arrivals.new arrived.new }
{
    if width < 1 || width > 8 {
        return BAD_ARGUMENT;
    }
    let size = width as usize;
    let end = octets.len() / size;
    if *at > end {
        return BAD_ARGUMENT;
    }
    if arrivals.len() < MOST_ARRIVALS {
        return NO_ROOM;
    }
    let Some(mut held) = tap.words.tap() else {
        return BAD_STATE;
    };
    if (end - *at) as u64 > MOST - tap.words.samples {
        return PLACE_LIMIT;
    }
    *arrived = 0;
    let wires = tap.wires.wires();
    let stops = &mut tap.stops;
    take_samples(
        &mut held, stops, &wires, octets, size, at, end, arrivals, arrived,
    );
    tap.words = held.words();
    OK
}

/// Takes runs of samples of an octet each, from number `at` on, while there is room for 32 bits more, and puts the bits
/// that arrive. The lowest octet of a run is a sample, and the rest of it says in how many this stands. `at` is then
/// the next run to take, of which are left the samples that were not taken, and `arrived` how many bits were put. No
/// other run changes.
///
/// Returns what [`port1_tap_push`] returns; where that is PLACE_LIMIT, the runs before `at` were taken, and with run
/// `at` there would be more than 2^60 samples.
#[unsafe(no_mangle)]
pub extern "C" fn port1_tap_feed_runs(
    tap: &mut Port1Tap,
    runs: &mut [u64],
    at: &mut usize,
    arrivals: &mut [Port1Arrival],
    arrived: &mut usize,
) -> u32
    ensures status { (result ≡ OK) ⊎ (result ≡ PLACE_LIMIT) ⊎ (result ≡ BAD_STATE) ⊎ (result ≡ NO_ROOM) }
    ensures room { result ≡ NO_ROOM ↔ (length arrivals.old < 32) }
    ensures state { result ≡ BAD_STATE ↔ (32 ≤ length arrivals.old) × (IsTap tap.old → ⊥) }
    ensures limit { result ≡ PLACE_LIMIT → (at.new < length runs.old)
        × (most_places < tap.new.words.samples + slice_index runs.new at.new / 256) }
    ensures kept { BAD_STATE ≤ result → (tap.new ≡ tap.old) × (runs.new ≡ runs.old) × (at.new ≡ at.old)
        × (arrivals.new ≡ arrivals.old) × (arrived.new ≡ arrived.old) }
    ensures sound { result < BAD_STATE → IsTap tap.new }
    ensures wires { tap.new.wires ≡ tap.old.wires }
    ensures bound { (at.old ≤ at.new) × (at.old ≤ length runs.old → at.new ≤ length runs.old) }
    ensures others { (length runs.new ≡ length runs.old)
        × ((k : ℕ) → k ≢ at.new → slice_get runs.new k ≡ slice_get runs.old k) }
    ensures all { result ≡ OK → at.new < length runs.old → length arrivals.old < arrived.new + 32 }
    ensures taps { result < BAD_STATE → TapsRuns (tap_told tap.old.words) tap.old.stops arrivals.old
        (wires_told tap.old.wires) runs.old at.old (tap_told tap.new.words) tap.new.stops arrivals.new arrived.new
        runs.new at.new }
{
    if arrivals.len() < MOST_ARRIVALS {
        return NO_ROOM;
    }
    let Some(mut held) = tap.words.tap() else {
        return BAD_STATE;
    };
    *arrived = 0;
    let wires = tap.wires.wires();
    let fits = take_runs(
        &mut held,
        &mut tap.stops,
        &wires,
        runs,
        at,
        arrivals,
        arrived,
    );
    tap.words = held.words();
    if fits { OK } else { PLACE_LIMIT }
}
