//! Bits from samples of four channels.

ghost use Rattle.std.specs.Prelude.{◌≡◌, ◌+◌, ◌≤◌, ◌/◌, ◌%◌, ◌==◌, ◌&&◌, ◌++◌, ◌∷◌, [], List, ℕ};
ghost use Rattle.std.specs.Prelude.{if◌then◌else◌, length, not, Some, None};
ghost use Rattle.bus_line.specs.declared.line.Line.TheVariants.{First};
ghost use Rattle.std.specs.Prelude.{IsTrue, ◌↔◌};
ghost use Rattle.bus_tap.specs.Blocks.{HasLevels, IsBlockOf};
ghost use Rattle.bus_tap.specs.Internal.Counts.{AreCounted, CountsLine, HadCounted, HasCounted};
ghost use Rattle.bus_tap.specs.Internal.Held.{held_state, next_state, held_clock, held_data, AreHeldAt};
ghost use Rattle.bus_tap.specs.Sampled.{Channel, IsAfterSamples, IsHeldAfter, bits_of_edges, no_edges};
ghost use Rattle.bus_tap.specs.Sampled.{timed, with_sample};
ghost use Rattle.bus_tap.specs.Sampled.{clock_of, data_of};

use crate::block::{CountedBlock, CountedLine, LevelBlock, LineBlock};
use crate::facts::Levels;
use bus_line::Line;
use std::marker::Model;

/// The bits that arrive with one sample. The first line's arrives first.
#[derive(Clone, Copy, Debug, PartialEq, Eq)]
pub struct Edges {
    /// The first line's, if its clock rises.
    pub first: Option<bool>,
    /// The second line's.
    pub second: Option<bool>,
}

impl Edges {
    /// No bit arrives.
    pub const NONE: Edges = Edges {
        first: None,
        second: None,
    };

    /// Whether no bit arrives.
    #[inline(always)]
    pub fn is_none(&self) -> bool
        ensures { IsTrue result ↔ self.now ≡ no_edges }
    {
        self.first.is_none() && self.second.is_none()
    }
}

/// A channel.
#[derive(Clone, Copy)]
pub(crate) struct HeldLevel {
    /// The level that counts.
    pub(crate) level: bool,
    /// For how many samples the other level has stood.
    pub(crate) others: u32,
}

impl HeldLevel {
    /// Whether a sample of this level changes nothing.
    #[inline(always)]
    fn is_settled(&self, level: bool) -> bool
        ensures { IsTrue result → held_state self.now ≡ record { level = level; others = 0 } }
    {
        level == self.level && self.others == 0
    }

    /// A sample of this level; a level counts once it stood in `hold` samples more.
    #[inline(always)]
    fn sample(&mut self, level: bool, hold: u32)
        requires { self.old.others ≤ hold }
        ensures next { held_state self.new ≡ next_state hold (held_state self.old) level }
        ensures within { self.new.others ≤ hold }
    {
        if level == self.level {
            self.others = 0;
        } else if self.others == hold {
            self.level = level;
            self.others = 0;
        } else {
            self.others += 1;
        }
    }

    /// 64 samples of these levels. Returns those that count, before each sample and at it.
    ///
    /// The level that counts at a sample is what two of three have: this sample, that before, and what counted there.
    /// So it is the carry where the levels and those a sample earlier are added. Where each level counts at once, the
    /// levels are added to themselves.
    #[inline(always)]
    fn take(&mut self, levels: u64, hold: u32) -> CountedWord
        requires { hold ≤ 1 }
        ensures taken { (channel : Channel) (ss more : List ℕ) → length more ≡ 64 → HasLevels levels channel more
            → IsHeldAfter hold channel (held_state self.old) ss
            → IsHeldAfter hold channel (held_state self.new) (ss ++ more)
            × HadCounted result.before hold channel ss more × HasCounted result.after hold channel ss more }
        ensures within { self.new.others ≤ hold }
    {
        let earlier = if hold == 0 {
            levels
        } else {
            levels << 1 | u64::from(self.level != (self.others != 0))
        };
        let sum = levels
            .wrapping_add(earlier)
            .wrapping_add(u64::from(self.level));
        let before = sum ^ levels ^ earlier;
        let after = levels & earlier | before & (levels | earlier);
        self.level = (after >> 63) % 2 == 1;
        self.others = u32::from(self.level != ((levels >> 63) % 2 == 1));
        CountedWord { before, after }
    }
}

/// The levels of a channel that count, before each of 64 samples and at it.
#[derive(Clone, Copy)]
pub(crate) struct CountedWord {
    before: u64,
    after: u64,
}

/// The two channels of a line.
#[derive(Clone, Copy)]
pub(crate) struct LineLevels {
    pub(crate) clock: HeldLevel,
    /// Its data.
    pub(crate) bits: HeldLevel,
}

impl LineLevels {
    /// With the levels of the first sample: the clock's in bit 0, that of the data in bit 1.
    fn new(sample: u8) -> Self
        ensures clock { result.clock ≡ record { level = clock_of First sample; others = 0 } }
        ensures bits { result.bits ≡ record { level = data_of First sample; others = 0 } }
    {
        LineLevels {
            clock: HeldLevel {
                level: sample % 2 == 1,
                others: 0,
            },
            bits: HeldLevel {
                level: sample / 2 % 2 == 1,
                others: 0,
            },
        }
    }

    /// Whether a sample with these levels changes nothing.
    #[inline(always)]
    fn is_settled(&self, sample: u8) -> bool
        ensures { IsTrue result → (held_state self.now.clock ≡ record { level = clock_of First sample; others = 0 })
            × (held_state self.now.bits ≡ record { level = data_of First sample; others = 0 }) }
    {
        self.clock.is_settled(sample % 2 == 1) && self.bits.is_settled(sample / 2 % 2 == 1)
    }

    /// A sample. Returns the bit that arrives with it, if the clock rises: the level of the data just before.
    #[inline(always)]
    fn sample(&mut self, sample: u8, hold: u32) -> Option<bool>
        requires clock { self.old.clock.others ≤ hold }
        requires bits { self.old.bits.others ≤ hold }
        ensures clock { held_state self.new.clock
            ≡ next_state hold (held_state self.old.clock) (clock_of First sample) }
        ensures bits { held_state self.new.bits
            ≡ next_state hold (held_state self.old.bits) (data_of First sample) }
        ensures bit { result
            ≡ (if not self.old.clock.level && self.new.clock.level then Some self.old.bits.level else None) }
        ensures clock_within { self.new.clock.others ≤ hold }
        ensures bits_within { self.new.bits.others ≤ hold }
    {
        if self.is_settled(sample) {
            return None;
        }
        let before = *self;
        self.clock.sample(sample % 2 == 1, hold);
        self.bits.sample(sample / 2 % 2 == 1, hold);
        if !before.clock.level && self.clock.level {
            Some(before.bits.level)
        } else {
            None
        }
    }

    /// 64 samples of these levels.
    #[inline(always)]
    fn take(&mut self, levels: LineBlock, hold: u32) -> CountedLine
        requires { hold ≤ 1 }
        ensures taken { (clock bits : Channel) (ss more : List ℕ) → length more ≡ 64
            → HasLevels levels.clock clock more → HasLevels levels.bits bits more
            → IsHeldAfter hold clock (held_state self.old.clock) ss
            → IsHeldAfter hold bits (held_state self.old.bits) ss
            → IsHeldAfter hold clock (held_state self.new.clock) (ss ++ more)
            × IsHeldAfter hold bits (held_state self.new.bits) (ss ++ more)
            × CountsLine hold clock bits ss more result }
        ensures clock_within { self.new.clock.others ≤ hold }
        ensures bits_within { self.new.bits.others ≤ hold }
    {
        let clock = self.clock.take(levels.clock, hold);
        let bits = self.bits.take(levels.bits, hold);
        CountedLine {
            before: LineBlock {
                clock: clock.before,
                bits: bits.before,
            },
            after: LineBlock {
                clock: clock.after,
                bits: bits.after,
            },
        }
    }
}

/// Finds the bits of two lines in the samples of a logic analyser. Where a line's clock rises, a bit of it arrives: the
/// level of its data just before. Of two bits in one sample the first line's arrives first.
///
/// A sample has the levels of four channels, from bit 0 up: the first line's clock and data, then those of the second
/// line. Its other bits say nothing.
///
/// Glitches are left out: a level counts once it stood in a number of samples in a row, on all channels alike.
#[derive(Drop)]
pub struct Sampler {
    /// In how many samples more than one.
    pub(crate) hold: u32,
    pub(crate) first: LineLevels,
    pub(crate) second: LineLevels,
}

impl Model for Sampler {
    ghost use Rattle.bus_tap.specs.Sampled.{SamplerState};

    ghost Value = { SamplerState };

    ghost use Rattle.bus_tap.specs.Internal.Held.{sampler_state, AreHeldWithin};

    ghost view = { sampler_state };

    ghost invariant = { AreHeldWithin };
}

impl Sampler {
    /// With the first sample, which brings no bit. A level counts once it stood in `hold` + 1 samples in a row; with 0
    /// each level counts at once.
    pub fn new(hold: u32, first: u8) -> Self
        ensures after { IsAfterSamples result (first ∷ []) }
        ensures hold { result.hold ≡ hold }
    {
        Sampler {
            hold,
            first: LineLevels::new(first),
            second: LineLevels::new(first / 4),
        }
    }

    /// The next sample. Returns the bits that arrive with it.
    #[inline(always)]
    pub fn sample(&mut self, sample: u8) -> Edges
        ensures timed { (ss : List ℕ) → IsAfterSamples self.old ss → timed self.old.hold (ss ++ sample ∷ [])
            ≡ timed self.old.hold ss ++ with_sample (length ss) (bits_of_edges result) }
        ensures after { (ss : List ℕ) → IsAfterSamples self.old ss → IsAfterSamples self.new (ss ++ sample ∷ []) }
        ensures hold { self.new.hold ≡ self.old.hold }
    {
        Edges {
            first: self.first.sample(sample, self.hold),
            second: self.second.sample(sample / 4, self.hold),
        }
    }

    /// The next 64 samples. Returns the levels that count.
    #[inline(always)]
    pub(crate) fn take(&mut self, block: &LevelBlock) -> CountedBlock
        requires { self.old.hold ≤ 1 }
        ensures taken { (ss more : List ℕ) → IsBlockOf block.now more → IsAfterSamples self.old ss
            → IsAfterSamples self.new (ss ++ more) × AreCounted self.old.hold ss more result }
        ensures hold { self.new.hold ≡ self.old.hold }
    {
        CountedBlock {
            first: self.first.take(block.first, self.hold),
            second: self.second.take(block.second, self.hold),
        }
    }

    /// The levels of a line that count.
    #[inline(always)]
    pub(crate) fn levels(&self, line: Line) -> Levels
        ensures clock { result.clock ≡ (held_clock self.now line).level }
        ensures bits { result.bits ≡ (held_data self.now line).level }
    {
        let levels = match line {
            Line::First => self.first,
            Line::Second => self.second,
        };
        Levels {
            clock: levels.clock.level,
            bits: levels.bits.level,
        }
    }

    /// Whether samples with these levels change nothing.
    #[inline(always)]
    pub(crate) fn is_settled(&self, sample: u8) -> bool
        ensures { IsTrue result → AreHeldAt self.now sample }
    {
        self.first.is_settled(sample) && self.second.is_settled(sample / 4)
    }
}
