//! A tap in plain numbers.

ghost use Rattle.std.specs.Prelude.{◌≡◌, ◌≤◌, ◌↔◌, IsTrue, IsSome, IfSome};
ghost use Rattle.bus_tap.specs.Facts.{AreWithin};
ghost use Rattle.bus_tap.specs.Internal.Held.{held_state};
ghost use Rattle.bus_tap.specs.Words.{AreTapWords, held_told, sampler_told, tap_told};

use crate::facts::LineFacts;
use crate::sampler::{HeldLevel, LineLevels, Sampler};
use crate::tap::{MOST, Tap};

/// A channel. The layout is C's.
#[repr(C)]
#[derive(Clone, Copy)]
pub struct WireLevel {
    /// The level that counts: 0 where it is low.
    pub level: u32,
    /// For how many samples the other level has stood.
    pub others: u32,
}

/// A tap between two samples. The layout is C's.
#[repr(C)]
#[derive(Clone, Copy)]
pub struct TapWords {
    /// How many samples it took.
    pub samples: u64,
    /// By how many samples two distances of bits may differ.
    pub jump: u64,
    /// What is counted of the first line.
    pub first: LineFacts,
    /// What is counted of the second line.
    pub second: LineFacts,
    pub first_clock: WireLevel,
    pub first_data: WireLevel,
    pub second_clock: WireLevel,
    pub second_data: WireLevel,
    /// In how many samples after its first a level has to stand before it counts.
    pub hold: u32,
    /// 0 before the first sample; the levels then mean nothing.
    pub begun: u32,
}

impl WireLevel {
    /// A low level.
    fn low() -> Self
        ensures { result.others ≡ 0 }
    {
        WireLevel {
            level: 0,
            others: 0,
        }
    }

    /// The words of a channel.
    fn of(held: HeldLevel) -> Self
        ensures { held_told result ≡ held_state held }
    {
        WireLevel {
            level: u32::from(held.level),
            others: held.others,
        }
    }

    /// The channel.
    fn held(self) -> HeldLevel
        ensures { held_state result ≡ held_told self }
    {
        HeldLevel {
            level: self.level != 0,
            others: self.others,
        }
    }
}

/// Whether nothing was counted more often than there are samples, or later.
fn are_within(facts: &LineFacts, samples: u64) -> bool
    ensures { IsTrue result ↔ AreWithin facts.now samples }
{
    facts.clock_changes.count <= samples
        && facts.data_changes.count <= samples
        && facts.data_changes_high.count <= samples
        && facts.bits.count <= samples
        && facts.bits.last <= samples
        && facts.jumps.count <= samples
}

impl TapWords {
    /// Whether these can be words of a tap.
    pub fn are_valid(&self) -> bool
        ensures { IsTrue result ↔ AreTapWords self.now }
    {
        self.samples <= MOST
            && are_within(&self.first, self.samples)
            && are_within(&self.second, self.samples)
            && self.first_clock.others <= self.hold
            && self.first_data.others <= self.hold
            && self.second_clock.others <= self.hold
            && self.second_data.others <= self.hold
    }

    /// The sampler, once there was a sample.
    fn sampler(&self) -> Option<Sampler>
        requires { AreTapWords self.now }
        ensures { result ≡ sampler_told self.now }
    {
        if self.begun == 0 {
            return None;
        }
        Some(Sampler {
            hold: self.hold,
            first: LineLevels {
                clock: self.first_clock.held(),
                bits: self.first_data.held(),
            },
            second: LineLevels {
                clock: self.second_clock.held(),
                bits: self.second_data.held(),
            },
        })
    }

    /// The tap whose words these are, if they can be such.
    pub fn tap(&self) -> Option<Tap>
        ensures some { IsSome result ↔ AreTapWords self.now }
        ensures value { IfSome result (λ tap. tap ≡ tap_told self.now) }
    {
        if !self.are_valid() {
            return None;
        }
        Some(Tap {
            hold: self.hold,
            jump: self.jump,
            samples: self.samples,
            sampler: self.sampler(),
            still: None,
            first: self.first,
            second: self.second,
        })
    }
}

impl Tap {
    /// Its words.
    pub fn words(&self) -> TapWords
        ensures valid { AreTapWords result }
        ensures value { tap_told result ≡ self.now }
    {
        let words = TapWords {
            samples: self.samples,
            jump: self.jump,
            first: self.first,
            second: self.second,
            first_clock: WireLevel::low(),
            first_data: WireLevel::low(),
            second_clock: WireLevel::low(),
            second_data: WireLevel::low(),
            hold: self.hold,
            begun: 0,
        };
        match &self.sampler {
            None => words,
            Some(sampler) => TapWords {
                first_clock: WireLevel::of(sampler.first.clock),
                first_data: WireLevel::of(sampler.first.bits),
                second_clock: WireLevel::of(sampler.second.clock),
                second_data: WireLevel::of(sampler.second.bits),
                begun: 1,
                ..words
            },
        }
    }
}
