//! Bits that arrive, in a caller's memory.

ghost use Rattle.std.specs.Prelude.{◌≡◌, ◌+◌, ◌≤◌, ◌<◌, ◌↔◌, ◌∷◌, [], List, IsSome, IfSome, length, true};
ghost use Rattle.bus_tap.specs.Arrival.{Arrival};
ghost use Rattle.bus_tap.specs.Rested.{fill};
ghost use Rattle.bus_bits.specs.Limits.{most_places};
ghost use Rattle.bus_tap.specs.Blocks.{block_arrivals};
ghost use Rattle.bus_tap.specs.Sampled.{bit_on, bits_of_edges, with_sample};
ghost use Rattle.bus_tap.specs.Stopped.{stop_fill};
ghost use Rattle.port1_c.specs.Rest.{arrival_told};
ghost use Rattle.port1_c.specs.Tap.{PutsArrivals, PutsTimed, coded};

use bus_line::Line;
use bus_tap::{EdgeBlock, Edges, StopRule, lowest_one};

/// 1s that make a line idle (ISO/IEC 13239, idle state).
const IDLE_ONES: u8 = 15;

/// A bit that arrives. Its layout is that of `c/include/port1.h`.
#[repr(C)]
#[derive(Clone, Copy)]
pub struct Port1Arrival {
    /// 1 for the first line, 2 for the second.
    pub line: u8,
    /// 0 or 1.
    pub bit: u8,
}

impl Port1Arrival {
    /// A bit of a line.
    fn of(line: Line, bit: bool) -> Self
        ensures { result ≡ coded (line, bit) }
    {
        let bit = u8::from(bit);
        match line {
            Line::First => Port1Arrival { line: 1, bit },
            Line::Second => Port1Arrival { line: 2, bit },
        }
    }

    /// The line, if it is one.
    pub(crate) fn line(&self) -> Option<Line>
        ensures some { IsSome result ↔ (1 ≤ self.now.line) × (self.now.line ≤ 2) }
        ensures value { IfSome result (λ line. line ≡ (arrival_told self.now).0) }
    {
        match self.line {
            1 => Some(Line::First),
            2 => Some(Line::Second),
            _ => None,
        }
    }
}

/// Puts a bit of a line behind the first `count` arrivals.
fn put_arrival(line: Line, bit: bool, arrivals: &mut [Port1Arrival], count: &mut usize)
    requires room { count.old < length arrivals.old }
    ensures count { count.new ≡ count.old + 1 }
    ensures put { PutsArrivals count.old arrivals.old ((line, bit) ∷ []) arrivals.new }
{
    arrivals[*count] = Port1Arrival::of(line, bit);
    *count += 1;
}

/// Puts the fifteen 1s of a line at rest.
fn put_ones(line: Line, arrivals: &mut [Port1Arrival], count: &mut usize)
    requires room { count.old + 15 ≤ length arrivals.old }
    ensures count { count.new ≡ count.old + 15 }
    ensures put { PutsArrivals count.old arrivals.old (stop_fill true line) arrivals.new }
{
    for _turn in 0..IDLE_ONES {
        put_arrival(line, true, arrivals, count);
    }
}

/// Puts a bit of a line, and fifteen 1s of the second line right behind it where that comes to rest.
pub(crate) fn put_rested(
    line: Line,
    bit: bool,
    rests: bool,
    arrivals: &mut [Port1Arrival],
    count: &mut usize,
)
    requires room { count.old + 16 ≤ length arrivals.old }
    ensures count { count.new ≡ count.old + length ((line, bit) ∷ fill rests) }
    ensures put { PutsArrivals count.old arrivals.old ((line, bit) ∷ fill rests) arrivals.new }
{
    put_arrival(line, bit, arrivals, count);
    if rests {
        put_ones(Line::Second, arrivals, count);
    }
}

/// Puts a bit of a line, if one arrives with this sample, behind fifteen 1s if its clock stood still.
fn put_bit(
    line: Line,
    sample: u64,
    bit: Option<bool>,
    stops: &mut StopRule,
    arrivals: &mut [Port1Arrival],
    count: &mut usize,
)
    requires room { count.old + 16 ≤ length arrivals.old }
    ensures { PutsTimed 16 (with_sample sample (bit_on line bit)) stops.old arrivals.old count.old stops.new
        arrivals.new count.new }
{
    let Some(bit) = bit else {
        return;
    };
    if stops.push(line, sample) {
        put_ones(line, arrivals, count);
    }
    put_arrival(line, bit, arrivals, count);
}

/// Puts the bits that arrive with this sample.
pub(crate) fn put_sample(
    sample: u64,
    edges: Edges,
    stops: &mut StopRule,
    arrivals: &mut [Port1Arrival],
    count: &mut usize,
)
    requires room { count.old + 32 ≤ length arrivals.old }
    ensures { PutsTimed 32 (with_sample sample (bits_of_edges edges)) stops.old arrivals.old count.old stops.new
        arrivals.new count.new }
{
    put_bit(Line::First, sample, edges.first, stops, arrivals, count);
    put_bit(Line::Second, sample, edges.second, stops, arrivals, count);
}

/// Puts the bits that arrive with 64 samples, the first of which is `from`.
pub(crate) fn put_edges(
    from: u64,
    edges: &EdgeBlock,
    stops: &mut StopRule,
    arrivals: &mut [Port1Arrival],
    count: &mut usize,
)
    requires places { from + 64 ≤ most_places }
    requires room { count.old + 2048 ≤ length arrivals.old }
    ensures { PutsTimed 2048 (block_arrivals from edges.now) stops.old arrivals.old count.old stops.new
        arrivals.new count.new }
{
    let mut left = edges.first.rises | edges.second.rises;
    while left != 0 {
        let one = lowest_one(left);
        let sample = from + u64::from(one.place);
        put_sample(sample, edges.at(one.place), stops, arrivals, count);
        left = one.rest;
    }
}
