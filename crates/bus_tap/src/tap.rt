//! Bits from the samples of a recording, and what is counted in these.

ghost use Rattle.std.specs.Prelude.{◌≡◌, ◌+◌, ◌-◌, ◌<◌, ◌≤◌, ◌↔◌, ◌++◌, ◌∷◌, [], List, ℕ, IfOk, IsErr, OnErr, IsTrue};
ghost use Rattle.std.specs.Prelude.{IfSome, MatchOption};
ghost use Rattle.std.specs.Prelude.{replicate, length, Some, None};
ghost use Rattle.bus_bits.specs.Limits.{most_places};
ghost use Rattle.bus_tap.specs.Sampled.{timed, bits_of_edges, with_sample};
ghost use Rattle.bus_tap.specs.Tapped.{AdvancesTap, HasSampled, IsTapAfter};
ghost use Rattle.bus_tap.specs.Blocks.{IsBlockOf, TakesBlocks, block_arrivals};
ghost use Rattle.bus_tap.specs.Facts.{AreLevels, AreTapFacts};
ghost use Rattle.bus_tap.specs.Internal.Counts.{AreCounted};
ghost use Rattle.bus_tap.specs.Internal.Taps.{HasHold, IsSettledTap};
ghost use Rattle.bus_line.specs.declared.line.Line.TheVariants.{First, Second};

use crate::block::{CountedBlock, EdgeBlock, LevelBlock};
use crate::facts::{Levels, LineFacts, TapFacts};
use crate::sampler::{Edges, Sampler};
use bus_line::Line;
use std::marker::Model;

/// The most samples of a recording.
pub(crate) const MOST: u64 = 1 << 60;

/// A recording has more than 2^60 samples.
#[derive(Clone, Copy, Debug, PartialEq, Eq)]
pub struct SampleLimit;

/// What some samples brought.
#[derive(Clone, Copy, Debug, PartialEq, Eq)]
pub struct ConsumedSamples {
    /// How many samples were taken.
    pub samples: u64,
    /// The bits that arrived with the last of them.
    pub edges: Edges,
}

/// Finds the bits of two lines in the samples of a recording, and counts what tells of faults of a tap.
#[derive(Drop)]
pub struct Tap {
    pub(crate) hold: u32,
    pub(crate) jump: u64,
    pub(crate) samples: u64,
    /// None before the first sample.
    pub(crate) sampler: Option<Sampler>,
    /// A sample with the levels that count, while no other is waited for; None where it is not known.
    pub(crate) still: Option<u8>,
    pub(crate) first: LineFacts,
    pub(crate) second: LineFacts,
}

impl Model for Tap {
    ghost use Rattle.bus_tap.specs.Tapped.{TapState};

    ghost Value = { TapState };

    ghost use Rattle.bus_tap.specs.Internal.Taps.{tap_state, IsTapWithin};

    ghost view = { tap_state };

    ghost invariant = { IsTapWithin };
}

/// What a sample changed.
#[derive(Clone, Copy)]
struct Step {
    first_before: Levels,
    first_after: Levels,
    second_before: Levels,
    second_after: Levels,
    edges: Edges,
}

/// The levels of a line that count; low before the first sample.
fn levels_of(sampler: &Option<Sampler>, line: Line) -> Levels
    ensures { (hold : ℕ) (ss : List ℕ) → HasSampled hold sampler.now ss
        → AreLevels hold line ss (length ss - 1) result }
{
    match sampler {
        None => Levels {
            clock: false,
            bits: false,
        },
        Some(sampler) => sampler.levels(line),
    }
}

/// Gives a sampler a sample, the first of which makes it.
#[inline(always)]
fn step_sampler(sampler: &mut Option<Sampler>, hold: u32, sample: u8) -> Step
    ensures after { (ss : List ℕ) → HasSampled hold sampler.old ss → HasSampled hold sampler.new (ss ++ sample ∷ []) }
    ensures timed { (ss : List ℕ) → HasSampled hold sampler.old ss → timed hold (ss ++ sample ∷ [])
        ≡ timed hold ss ++ with_sample (length ss) (bits_of_edges result.edges) }
    ensures levels { (ss : List ℕ) → HasSampled hold sampler.old ss →
        AreLevels hold First (ss ++ sample ∷ []) (length ss - 1) result.first_before
        × AreLevels hold First (ss ++ sample ∷ []) (length ss) result.first_after
        × AreLevels hold Second (ss ++ sample ∷ []) (length ss - 1) result.second_before
        × AreLevels hold Second (ss ++ sample ∷ []) (length ss) result.second_after }
    ensures alike { HasHold hold sampler.old → HasHold hold sampler.new }
{
    match sampler {
        None => {
            let made = Sampler::new(hold, sample);
            let step = Step {
                first_before: made.levels(Line::First),
                first_after: made.levels(Line::First),
                second_before: made.levels(Line::Second),
                second_after: made.levels(Line::Second),
                edges: Edges::NONE,
            };
            *sampler = Some(made);
            step
        }
        Some(sampler) => {
            let first_before = sampler.levels(Line::First);
            let second_before = sampler.levels(Line::Second);
            let edges = sampler.sample(sample);
            Step {
                first_before,
                first_after: sampler.levels(Line::First),
                second_before,
                second_after: sampler.levels(Line::Second),
                edges,
            }
        }
    }
}

/// Gives a sampler 64 samples.
#[inline(always)]
fn take_block(sampler: &mut Option<Sampler>, block: &LevelBlock) -> CountedBlock
    requires { MatchOption sampler.old ⊥ (λ s. s.hold ≤ 1) }
    ensures taken { (hold : ℕ) (ss more : List ℕ) → IsBlockOf block.now more → HasSampled hold sampler.old ss
        → HasSampled hold sampler.new (ss ++ more) × AreCounted hold ss more result }
    ensures alike { (hold : ℕ) → HasHold hold sampler.old → HasHold hold sampler.new }
{
    match sampler {
        None => CountedBlock::NONE,
        Some(sampler) => sampler.take(block),
    }
}

impl Tap {
    /// Before the first sample. A level counts once it stood in `hold` + 1 samples in a row. Where the distance of two
    /// bits differs by more than `jump` samples from the one before, that is a jump.
    pub fn new(hold: u32, jump: u64) -> Self
        ensures after { IsTapAfter result [] }
        ensures given { (result.hold ≡ hold) × (result.jump ≡ jump) }
    {
        Tap {
            hold,
            jump,
            samples: 0,
            sampler: None,
            still: None,
            first: LineFacts::none(),
            second: LineFacts::none(),
        }
    }

    /// Takes some samples with the same levels, up to the first that brings bits; at least one, if there are any.
    /// However many they are, it takes no more than a few steps for each sample that a level has to stand.
    ///
    /// Refuses more samples than 2^60 as [`SampleLimit`], with nothing changed.
    pub fn consume(&mut self, sample: u8, count: u64) -> Result<ConsumedSamples, SampleLimit>
        ensures limit { IsErr result ↔ (most_places < self.old.samples + count) }
        ensures unchanged { OnErr result (self.new ≡ self.old) }
        ensures fits { self.new.samples ≤ most_places }
        ensures taken { IfOk result (λ t. (t.samples ≤ count) × (1 ≤ count → 1 ≤ t.samples)
            × AdvancesTap self.old (replicate t.samples sample)
            (with_sample (self.old.samples + t.samples - 1) (bits_of_edges t.edges)) self.new) }
        ensures all { IfOk result (λ t. bits_of_edges t.edges ≡ [] → t.samples ≡ count) }
    {
        if count > MOST || self.samples > MOST - count {
            return Err(SampleLimit);
        }
        let before = match self.still() {
            None => return Ok(self.consume_steps(sample, count)),
            Some(before) => before,
        };
        if before == sample {
            self.pass(sample, count);
            return Ok(ConsumedSamples {
                samples: count,
                edges: Edges::NONE,
            });
        }
        if count <= u64::from(self.hold) {
            return Ok(self.consume_steps(sample, count));
        }
        let samples = u64::from(self.hold) + 1;
        let edges = self.consume_held(before, sample);
        if edges.is_none() {
            self.pass(sample, count - samples);
            return Ok(ConsumedSamples {
                samples: count,
                edges: Edges::NONE,
            });
        }
        Ok(ConsumedSamples { samples, edges })
    }

    /// Takes samples as [`Tap::consume`] does, each by itself.
    #[inline(never)]
    fn consume_steps(&mut self, sample: u8, count: u64) -> ConsumedSamples
        requires { self.old.samples + count ≤ most_places }
        ensures some { (result.samples ≤ count) × (1 ≤ count → 1 ≤ result.samples) }
        ensures taken { AdvancesTap self.old (replicate result.samples sample)
            (with_sample (self.old.samples + result.samples - 1) (bits_of_edges result.edges)) self.new }
        ensures all { bits_of_edges result.edges ≡ [] → result.samples ≡ count }
    {
        for taken in 0..count {
            if self.is_settled(sample) {
                self.pass(sample, count - taken);
                return ConsumedSamples {
                    samples: count,
                    edges: Edges::NONE,
                };
            }
            let edges = self.step(sample);
            if !edges.is_none() {
                return ConsumedSamples {
                    samples: taken + 1,
                    edges,
                };
            }
        }
        ConsumedSamples {
            samples: count,
            edges: Edges::NONE,
        }
    }

    /// Whether it takes blocks now. It does after the first sample, where each level counts at once or once it stood in
    /// two samples, and with room for 64 samples more.
    #[inline(always)]
    pub fn takes_blocks(&self) -> bool
        ensures { IsTrue result ↔ TakesBlocks self.now }
    {
        self.hold <= 1 && self.samples <= MOST - 64 && self.sampler.is_some()
    }

    /// Takes 64 samples. Returns the bits that arrive with them.
    #[inline(always)]
    pub fn consume_block(&mut self, block: &LevelBlock) -> EdgeBlock
        requires { TakesBlocks self.old }
        ensures taken { (ss : List ℕ) → IsBlockOf block.now ss
            → AdvancesTap self.old ss (block_arrivals self.old.samples result) self.new }
        ensures samples { self.new.samples ≡ self.old.samples + 64 }
    {
        let counted = take_block(&mut self.sampler, block);
        let from = self.samples;
        self.still = None;
        self.first.note_block(from, counted.first, self.jump);
        self.second.note_block(from, counted.second, self.jump);
        self.samples += 64;
        EdgeBlock {
            first: counted.first.edges(),
            second: counted.second.edges(),
        }
    }

    /// A sample that changes nothing, if one is known.
    #[inline(always)]
    fn still(&self) -> Option<u8>
        ensures { IfSome result (λ sample. IsSettledTap self.now sample) }
    {
        self.still
    }

    /// Whether samples with these levels change nothing.
    #[inline(always)]
    fn is_settled(&self, sample: u8) -> bool
        ensures { IsTrue result → IsSettledTap self.now sample }
    {
        match &self.sampler {
            None => false,
            Some(sampler) => sampler.is_settled(sample),
        }
    }

    /// Takes samples that change nothing.
    #[inline(always)]
    fn pass(&mut self, sample: u8, count: u64)
        requires settled { IsSettledTap self.old sample }
        requires room { self.old.samples + count ≤ most_places }
        ensures { AdvancesTap self.old (replicate count sample) [] self.new }
    {
        self.samples += count;
        self.still = Some(sample);
    }

    /// Takes as many samples with these levels as make them count, where those of `before` count and no other is waited
    /// for. Returns the bits that arrive with the last.
    #[inline(always)]
    fn consume_held(&mut self, before: u8, sample: u8) -> Edges
        requires settled { IsSettledTap self.old before }
        requires room { self.old.samples + self.old.hold < most_places }
        ensures settled { IsSettledTap self.new sample }
        ensures taken { AdvancesTap self.old (replicate (self.old.hold + 1) sample)
            (with_sample (self.old.samples + self.old.hold) (bits_of_edges result)) self.new }
    {
        let place = self.samples + u64::from(self.hold);
        self.sampler = Some(Sampler::new(self.hold, sample));
        self.still = Some(sample);
        self.samples = place + 1;
        let (old_first, first) = (Levels::of(before), Levels::of(sample));
        let (old_second, second) = (Levels::of(before / 4), Levels::of(sample / 4));
        self.first.note(place, old_first, first, self.jump);
        self.second.note(place, old_second, second, self.jump);
        Edges {
            first: first.bit_after(old_first),
            second: second.bit_after(old_second),
        }
    }

    /// Takes a sample. Returns the bits that arrive with it.
    #[inline(always)]
    fn step(&mut self, sample: u8) -> Edges
        requires { self.old.samples < most_places }
        ensures { AdvancesTap self.old (sample ∷ []) (with_sample self.old.samples (bits_of_edges result)) self.new }
    {
        let step = step_sampler(&mut self.sampler, self.hold, sample);
        let place = self.samples;
        self.still = None;
        self.first
            .note(place, step.first_before, step.first_after, self.jump);
        self.second
            .note(place, step.second_before, step.second_after, self.jump);
        self.samples += 1;
        step.edges
    }

    /// How many samples there were.
    #[inline(always)]
    pub fn samples(&self) -> u64
        ensures { result ≡ self.now.samples }
    {
        self.samples
    }

    /// What is counted in the samples so far.
    pub fn facts(&self) -> TapFacts
        ensures facts { (ss : List ℕ) → IsTapAfter self.now ss → AreTapFacts self.now.hold self.now.jump result ss }
    {
        TapFacts {
            samples: self.samples,
            first: self.first,
            second: self.second,
            first_levels: levels_of(&self.sampler, Line::First),
            second_levels: levels_of(&self.sampler, Line::Second),
        }
    }
}
