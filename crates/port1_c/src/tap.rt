//! A tap in a caller's memory.

ghost use Rattle.std.specs.Prelude.{◌≡◌, ◌≢◌, ◌+◌, ◌-◌, ◌*◌, ◌/◌, ◌≤◌, ◌<◌, ◌++◌, List, ℕ, length, map, replicate};
ghost use Rattle.std.specs.Prelude.{IsTrue, IsFalse, slice_get, slice_index};
ghost use Rattle.bus_bits.specs.Limits.{most_places};
ghost use Rattle.bus_tap.specs.Blocks.{TakesBlocks};
ghost use Rattle.bus_tap.specs.Recorded.{record_at};
ghost use Rattle.bus_tap.specs.Tapped.{channels};
ghost use Rattle.port1_c.specs.Tap.{HasTapped, TapsMore, TapsRuns, samples_from};

use crate::arrival::{Port1Arrival, put_edges, put_sample};
use crate::wires::Port1Wires;
use bus_tap::{
    ByWords, SampleLimit, StopRule, Tap, TapWords, Wires, alike as octets_alike, number_of,
};

/// The most samples of a recording.
pub(crate) const MOST: u64 = 1 << 60;

/// What a sample may bring: a bit of each line, behind fifteen 1s.
pub(crate) const MOST_ARRIVALS: usize = 32;

/// How many samples are taken at once, and what they may bring.
const BLOCK: usize = 64;

const MOST_OF_BLOCK: usize = BLOCK * MOST_ARRIVALS;

/// A tap between two calls. Its layout is that of `c/include/port1.h`.
#[repr(C)]
#[derive(Clone, Copy)]
pub struct Port1Tap {
    /// The tap but for its wires.
    pub words: TapWords,
    /// The wires.
    pub wires: Port1Wires,
    /// By which a bit comes behind fifteen 1s.
    pub stops: StopRule,
}

/// Takes some samples with the same levels, up to those that bring bits, and puts these behind the first `arrived`
/// arrivals. Returns how many samples.
fn take_some(
    tap: &mut Tap,
    stops: &mut StopRule,
    levels: u8,
    count: u64,
    arrivals: &mut [Port1Arrival],
    arrived: &mut usize,
) -> u64
    requires some { 1 ≤ count }
    requires room { arrived.old + 32 ≤ length arrivals.old }
    requires fits { tap.old.samples + count ≤ most_places }
    ensures count { (result ≤ count) × (1 ≤ result) }
    ensures long { length arrivals.new ≡ length arrivals.old }
    ensures few { arrived.new ≤ arrived.old + 32 }
    ensures samples { tap.new.samples ≡ tap.old.samples + result }
    ensures taken { TapsMore tap.old stops.old arrivals.old arrived.old (replicate result levels) tap.new stops.new
        arrivals.new arrived.new }
{
    let taken = match tap.consume(levels, count) {
        Ok(taken) => taken,
        Err(SampleLimit) => unreachable!(),
    };
    put_sample(tap.samples() - 1, taken.edges, stops, arrivals, arrived);
    taken.samples
}

/// Takes samples with the same levels, while there is room for what one may bring, and puts the bits that arrive.
/// Returns how many samples are left.
pub(crate) fn take_run(
    tap: &mut Tap,
    stops: &mut StopRule,
    levels: u8,
    count: u64,
    arrivals: &mut [Port1Arrival],
    arrived: &mut usize,
) -> u64
    requires within { arrived.old ≤ length arrivals.old }
    requires fits { tap.old.samples + count ≤ most_places }
    ensures left { result ≤ count }
    ensures long { (length arrivals.new ≡ length arrivals.old) × (arrived.new ≤ length arrivals.old) }
    ensures samples { tap.new.samples + result ≡ tap.old.samples + count }
    ensures all { 0 < result → length arrivals.old < arrived.new + 32 }
    ensures taken { TapsMore tap.old stops.old arrivals.old arrived.old (replicate (count - result) levels) tap.new
        stops.new arrivals.new arrived.new }
{
    let mut left = count;
    while left > 0 && arrivals.len() - *arrived >= MOST_ARRIVALS {
        left -= take_some(tap, stops, levels, left, arrivals, arrived);
    }
    left
}

/// Takes runs from number `at` on, while there is room for what a sample may bring, and puts the bits that arrive.
/// `at` is then the next run to take, of which are left the samples that were not taken. Says whether the tap has room
/// for them all; if not, this run was not begun.
pub(crate) fn take_runs(
    tap: &mut Tap,
    stops: &mut StopRule,
    wires: &Wires,
    runs: &mut [u64],
    at: &mut usize,
    arrivals: &mut [Port1Arrival],
    arrived: &mut usize,
) -> bool
    requires none { arrived.old ≡ 0 }
    requires fits { tap.old.samples ≤ most_places }
    ensures bound { (at.old ≤ at.new) × (at.old ≤ length runs.old → at.new ≤ length runs.old) }
    ensures others { (length runs.new ≡ length runs.old)
        × ((k : ℕ) → k ≢ at.new → slice_get runs.new k ≡ slice_get runs.old k) }
    ensures limit { IsFalse result → (at.new < length runs.old)
        × (most_places < tap.new.samples + slice_index runs.new at.new / 256) }
    ensures all { IsTrue result → at.new < length runs.old → length arrivals.old < arrived.new + 32 }
    ensures taken { TapsRuns tap.old stops.old arrivals.old wires.now runs.old at.old tap.new stops.new arrivals.new
        arrived.new runs.new at.new }
{
    while *at < runs.len() {
        let run = runs[*at];
        let count = run / 256;
        if count > MOST - tap.samples() {
            return false;
        }
        let left = take_run(
            tap,
            stops,
            wires.channels(run % 256),
            count,
            arrivals,
            arrived,
        );
        if left > 0 {
            runs[*at] = run - 256 * (count - left);
            return true;
        }
        *at += 1;
    }
    true
}

/// A sample of `width` octets.
#[inline(always)]
fn sample_at(octets: &[u8], width: usize, at: usize) -> u64
    requires width { width ≤ 8 }
    requires within { (at + 1) * width ≤ length octets.now }
    ensures { result ≡ record_at width octets.now at }
{
    let begin = at * width;
    number_of(&octets[begin..begin + width])
}

/// How many samples are this one, from number `at` on and before number `end`.
fn alike(octets: &[u8], width: usize, at: usize, end: usize, sample: u64) -> usize
    requires width { width ≤ 8 }
    requires order { at < end }
    requires within { end * width ≤ length octets.now }
    requires first { sample ≡ record_at width octets.now at }
    ensures some { (1 ≤ result) × (at + result ≤ end) }
    ensures same { (k : ℕ) → k < result → record_at width octets.now (at + k) ≡ sample }
{
    if width == 1 {
        return octets_alike(&octets[at..end]);
    }
    let mut count = 1;
    while at + count < end && sample_at(octets, width, at + count) == sample {
        count += 1;
    }
    count
}

/// Takes 64 samples of an octet each, and puts the bits that arrive behind the first `arrived` arrivals.
fn take_block(
    tap: &mut Tap,
    stops: &mut StopRule,
    wires: &Wires,
    octets: &[u8],
    arrivals: &mut [Port1Arrival],
    arrived: &mut usize,
)
    requires long { length octets.now ≡ 64 }
    requires takes { TakesBlocks tap.old }
    requires room { arrived.old + 2048 ≤ length arrivals.old }
    ensures long { length arrivals.new ≡ length arrivals.old }
    ensures few { arrived.new ≤ arrived.old + 2048 }
    ensures samples { tap.new.samples ≡ tap.old.samples + 64 }
    ensures taken { TapsMore tap.old stops.old arrivals.old arrived.old (map (channels wires.now) octets.now) tap.new
        stops.new arrivals.new arrived.new }
{
    let block = wires.block::<ByWords>(octets);
    let from = tap.samples();
    let edges = tap.consume_block(&block);
    put_edges(from, &edges, stops, arrivals, arrived);
}

/// Takes samples of `width` octets each, from number `at` on and before number `end`: 64 of an octet each at once, if
/// there is room for what these may bring, or else some that are the same, and puts the bits that arrive. Returns how
/// many samples.
fn take_front(
    tap: &mut Tap,
    stops: &mut StopRule,
    wires: &Wires,
    octets: &[u8],
    width: usize,
    at: usize,
    end: usize,
    arrivals: &mut [Port1Arrival],
    arrived: &mut usize,
) -> usize
    requires width { (1 ≤ width) × (width ≤ 8) }
    requires order { at < end }
    requires within { end * width ≤ length octets.now }
    requires fits { tap.old.samples + (end - at) ≤ most_places }
    requires room { arrived.old + 32 ≤ length arrivals.old }
    ensures count { (1 ≤ result) × (at + result ≤ end) }
    ensures long { (length arrivals.new ≡ length arrivals.old) × (arrived.new ≤ length arrivals.old) }
    ensures samples { tap.new.samples ≡ tap.old.samples + result }
    ensures taken { TapsMore tap.old stops.old arrivals.old arrived.old
        (map (channels wires.now) (samples_from width octets.now at result)) tap.new stops.new arrivals.new
        arrived.new }
{
    let has_room = arrivals.len() - *arrived >= MOST_OF_BLOCK;
    if width == 1 && end - at >= BLOCK && has_room && tap.takes_blocks() {
        let block = &octets[at..at + BLOCK];
        take_block(tap, stops, wires, block, arrivals, arrived);
        return BLOCK;
    }
    let sample = sample_at(octets, width, at);
    let count = alike(octets, width, at, end, sample) as u64;
    let levels = wires.channels(sample);
    take_some(tap, stops, levels, count, arrivals, arrived) as usize
}

/// Takes samples of `width` octets each, from number `at` on and before number `end`, while there is room for what one
/// may bring, and puts the bits that arrive. `at` is then the next sample to take.
pub(crate) fn take_samples(
    tap: &mut Tap,
    stops: &mut StopRule,
    wires: &Wires,
    octets: &[u8],
    width: usize,
    at: &mut usize,
    end: usize,
    arrivals: &mut [Port1Arrival],
    arrived: &mut usize,
)
    requires none { arrived.old ≡ 0 }
    requires width { (1 ≤ width) × (width ≤ 8) }
    requires order { at.old ≤ end }
    requires within { end * width ≤ length octets.now }
    requires fits { tap.old.samples + (end - at.old) ≤ most_places }
    ensures bound { (at.old ≤ at.new) × (at.new ≤ end) }
    ensures all { at.new < end → length arrivals.old < arrived.new + 32 }
    ensures taken { HasTapped tap.old stops.old arrivals.old
        (map (channels wires.now) (samples_from width octets.now at.old (at.new - at.old))) tap.new stops.new
        arrivals.new arrived.new }
{
    while *at < end && arrivals.len() - *arrived >= MOST_ARRIVALS {
        *at += take_front(
            tap, stops, wires, octets, width, *at, end, arrivals, arrived,
        );
    }
}
