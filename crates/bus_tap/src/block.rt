//! Blocks of 64 samples.

ghost use Rattle.std.specs.Prelude.{◌≡◌, ◌<◌, ◌≤◌, ℕ, ◌∷◌, false, IsTrue};
ghost use Rattle.bus_tap.specs.Blocks.{bit_in, edges_in, has_bit, ones_in};
ghost use Rattle.bus_tap.specs.Internal.Counts.{bit_between};

use crate::sampler::Edges;

/// The levels of a line in 64 samples, those in the first the lowest bits.
#[derive(Clone, Copy, Debug, PartialEq, Eq)]
pub struct LineBlock {
    /// The clock's.
    pub clock: u64,
    /// Those of the data.
    pub bits: u64,
}

/// The levels of two lines in 64 samples.
#[derive(Clone, Copy, Debug, PartialEq, Eq)]
pub struct LevelBlock {
    pub first: LineBlock,
    pub second: LineBlock,
}

/// The bits of a line that arrive in 64 samples, those in the first the lowest.
#[derive(Clone, Copy, Debug, PartialEq, Eq)]
pub struct LineEdges {
    /// With which samples one arrives.
    pub rises: u64,
    /// Which of these are 1.
    pub bits: u64,
}

/// The bits of two lines that arrive in 64 samples.
#[derive(Clone, Copy, Debug, PartialEq, Eq)]
pub struct EdgeBlock {
    pub first: LineEdges,
    pub second: LineEdges,
}

/// The lowest one of a word, and the others.
#[derive(Clone, Copy, Debug, PartialEq, Eq)]
pub struct LowestOne {
    /// The place of the lowest one.
    pub place: u32,
    /// The word without it.
    pub rest: u64,
}

/// The lowest one of a word that is not 0.
#[inline(always)]
pub fn lowest_one(word: u64) -> LowestOne
    requires { 1 ≤ word }
    ensures ones { ones_in word ≡ result.place ∷ ones_in result.rest }
    ensures none { (i : ℕ) → i ≤ result.place → has_bit result.rest i ≡ false }
    ensures inside { (result.place < 64) × (IsTrue (has_bit word result.place)) }
    ensures less { result.rest < word }
{
    LowestOne {
        place: word.trailing_zeros(),
        rest: word & (word - 1),
    }
}

impl LineEdges {
    /// The bit that arrives with a sample.
    #[inline(always)]
    fn at(&self, sample: u32) -> Option<bool>
        requires { sample < 64 }
        ensures { result ≡ bit_in self.now sample }
    {
        if (self.rises >> sample) % 2 == 1 {
            Some((self.bits >> sample) % 2 == 1)
        } else {
            None
        }
    }
}

impl EdgeBlock {
    /// The bits that arrive with a sample.
    #[inline(always)]
    pub fn at(&self, sample: u32) -> Edges
        requires { sample < 64 }
        ensures { result ≡ edges_in self.now sample }
    {
        Edges {
            first: self.first.at(sample),
            second: self.second.at(sample),
        }
    }
}

/// The levels of a line that count, before each of 64 samples and at it.
#[derive(Clone, Copy)]
pub(crate) struct CountedLine {
    pub(crate) before: LineBlock,
    pub(crate) after: LineBlock,
}

impl CountedLine {
    /// Of no samples.
    const NONE: CountedLine = CountedLine {
        before: LineBlock { clock: 0, bits: 0 },
        after: LineBlock { clock: 0, bits: 0 },
    };

    /// The bits that arrive: where the clock rises, the level of the data just before.
    #[inline(always)]
    pub(crate) fn edges(self) -> LineEdges
        ensures { (i : ℕ) → i < 64 → bit_in result i ≡ bit_between self i }
    {
        LineEdges {
            rises: (self.before.clock ^ self.after.clock) & self.after.clock,
            bits: self.before.bits,
        }
    }
}

/// The levels of two lines that count in 64 samples.
#[derive(Clone, Copy)]
pub(crate) struct CountedBlock {
    pub(crate) first: CountedLine,
    pub(crate) second: CountedLine,
}

impl CountedBlock {
    /// Of no samples.
    pub(crate) const NONE: CountedBlock = CountedBlock {
        first: CountedLine::NONE,
        second: CountedLine::NONE,
    };
}
