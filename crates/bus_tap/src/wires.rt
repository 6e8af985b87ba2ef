//! The wires of a recording.

ghost use Rattle.std.specs.Prelude.{◌≡◌, ◌^◌, ◌/◌, ◌%◌, ◌==◌, ◌<◌, ℕ, length, map, slice_index};
ghost use Rattle.bus_tap.specs.Blocks.{IsBlockOf, has_bit};
ghost use Rattle.bus_tap.specs.Tapped.{channels, wire_level};

use crate::block::{LevelBlock, LineBlock};
use crate::gather::Gather;

/// A wire, which is a bit of each sample of a recording.
#[derive(Clone, Copy, Debug, PartialEq, Eq)]
pub struct Wire {
    /// The number of the bit, the lowest 0.
    pub number: u8,
    /// Whether its level is the other one.
    pub is_inverted: bool,
}

/// The wires of two lines, or of one. Both lines may have the same clock.
#[derive(Clone, Copy, Debug, PartialEq, Eq)]
pub struct Wires {
    pub first_clock: Option<Wire>,
    pub first_data: Option<Wire>,
    /// Of a recording of one line there is none.
    pub second_clock: Option<Wire>,
    pub second_data: Option<Wire>,
}

/// A bit of a number.
#[inline(always)]
fn bit(number: u64, at: u8) -> bool
    ensures { result ≡ (number / 2 ^ at % 2 == 1) }
{
    if at >= 64 {
        return false;
    }
    (number >> at) % 2 == 1
}

/// The level of a wire in a sample.
#[inline(always)]
fn level(wire: Option<Wire>, sample: u64) -> bool
    ensures { result ≡ wire_level wire sample }
{
    match wire {
        None => false,
        Some(wire) => bit(sample, wire.number) != wire.is_inverted,
    }
}

/// A bit of each of 64 octets.
#[inline(always)]
fn bits<G: Gather>(octets: &[u8], at: u8) -> u64
    requires { length octets.now ≡ 64 }
    ensures { (i : ℕ) → i < 64 → has_bit result i ≡ (slice_index octets.now i / 2 ^ at % 2 == 1) }
{
    if at >= 8 {
        return 0;
    }
    G::gather(octets, at)
}

/// The levels of a wire in 64 samples of an octet each.
#[inline(always)]
fn levels<G: Gather>(wire: Option<Wire>, octets: &[u8]) -> u64
    requires { length octets.now ≡ 64 }
    ensures { (i : ℕ) → i < 64 → has_bit result i ≡ wire_level wire (slice_index octets.now i) }
{
    match wire {
        None => 0,
        Some(wire) => {
            let word = bits::<G>(octets, wire.number);
            if wire.is_inverted { !word } else { word }
        }
    }
}

impl Wires {
    /// A sample of a recording as a sampler takes it: the levels of the first line's clock and data in its bits 0 and
    /// 1, and those of the second line in bits 2 and 3.
    pub fn channels(&self, sample: u64) -> u8
        ensures { result ≡ channels self.now sample }
    {
        let mut levels = 0;
        if level(self.first_clock, sample) {
            levels += 1;
        }
        if level(self.first_data, sample) {
            levels += 2;
        }
        if level(self.second_clock, sample) {
            levels += 4;
        }
        if level(self.second_data, sample) {
            levels += 8;
        }
        levels
    }

    /// The levels in 64 samples of an octet each.
    #[inline(always)]
    pub fn block<G: Gather>(&self, octets: &[u8]) -> LevelBlock
        requires { length octets.now ≡ 64 }
        ensures { IsBlockOf result (map (channels self.now) octets.now) }
    {
        LevelBlock {
            first: LineBlock {
                clock: levels::<G>(self.first_clock, octets),
                bits: levels::<G>(self.first_data, octets),
            },
            second: LineBlock {
                clock: levels::<G>(self.second_clock, octets),
                bits: levels::<G>(self.second_data, octets),
            },
        }
    }
}
