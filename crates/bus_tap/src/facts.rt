//! What is counted in samples.

ghost use Rattle.std.specs.Prelude.{◌≡◌, ◌+◌, ◌-◌, ◌≤◌, ◌<◌, ◌^◌, ◌&&◌, not, ◌++◌, ◌∷◌, [], List, ℕ, length};
ghost use Rattle.std.specs.Prelude.{if◌then◌else◌, Some, None};
ghost use Rattle.bus_tap.specs.Facts.{AreFactsOf, AreWithin, IsTallied, IsLongest, spacing, jumps};
ghost use Rattle.bus_tap.specs.Blocks.{has_bit};
ghost use Rattle.bus_tap.specs.Internal.Counts.{AdvancesFactsBy, AreBitFacts, marked};
ghost use Rattle.bus_tap.specs.Internal.Tallies.{where_is, AdvancesFacts};
ghost use Rattle.bus_tap.specs.Internal.Held.{levels_in};
ghost use Rattle.bus_line.specs.declared.line.Line.TheVariants.{First};

use crate::block::{CountedLine, lowest_one};

/// Samples in which something happens. Samples are numbered from 0. The layout is C's.
#[repr(C)]
#[derive(Clone, Copy, Debug, PartialEq, Eq)]
pub struct Occurrences {
    /// How many they are.
    pub count: u64,
    /// The first, or 0.
    pub first: u64,
    /// The last, or 0.
    pub last: u64,
}

impl Occurrences {
    /// Nothing has happened.
    pub(crate) fn none() -> Self
        ensures tallied { IsTallied result [] }
        ensures none { result.count ≡ 0 }
        ensures last { result.last ≡ 0 }
    {
        Occurrences {
            count: 0,
            first: 0,
            last: 0,
        }
    }

    /// If `is`, it happens in this sample, too.
    #[inline(always)]
    fn note(&mut self, is: bool, sample: u64)
        requires { self.old.count < 2 ^ 60 }
        ensures tallied { (es : List ℕ) → IsTallied self.old es → IsTallied self.new (es ++ where_is is sample) }
        ensures count { self.new.count ≤ self.old.count + 1 }
        ensures last { self.new.last ≡ (if is then sample else self.old.last) }
    {
        if !is {
            return;
        }
        if self.count == 0 {
            self.first = sample;
        }
        self.last = sample;
        self.count += 1;
    }

    /// It happens in these samples of 64, too, the first of which is `from`.
    #[inline(always)]
    fn note_block(&mut self, word: u64, from: u64)
        requires count { self.old.count ≤ 2 ^ 60 }
        requires few { from ≤ 2 ^ 60 }
        ensures tallied { (es : List ℕ) → IsTallied self.old es
            → IsTallied self.new (es ++ marked from (has_bit word)) }
        ensures count { self.new.count ≤ self.old.count + 64 }
    {
        if word == 0 {
            return;
        }
        if self.count == 0 {
            self.first = from + u64::from(word.trailing_zeros());
        }
        self.last = from + u64::from(63 - word.leading_zeros());
        self.count += u64::from(word.count_ones());
    }
}

/// A distance of two samples.
#[repr(C)]
#[derive(Clone, Copy, Debug, PartialEq, Eq)]
pub struct Gap {
    /// The distance, in samples.
    pub length: u64,
    /// The sample at which it begins.
    pub from: u64,
}

/// The levels of a line that count.
#[derive(Clone, Copy, Debug, PartialEq, Eq)]
pub struct Levels {
    /// The clock's.
    pub clock: bool,
    /// That of the data.
    pub bits: bool,
}

impl Levels {
    /// Those of a line in a sample: the clock's in bit 0, that of the data in bit 1.
    #[inline(always)]
    pub(crate) fn of(sample: u8) -> Self
        ensures { result ≡ levels_in First sample }
    {
        Levels {
            clock: sample % 2 == 1,
            bits: sample / 2 % 2 == 1,
        }
    }

    /// The bit that arrives with these levels after others, if the clock rises: the level of the data before.
    #[inline(always)]
    pub(crate) fn bit_after(self, before: Levels) -> Option<bool>
        ensures { result ≡ (if not before.clock && self.clock then Some before.bits else None) }
    {
        if !before.clock && self.clock {
            Some(before.bits)
        } else {
            None
        }
    }
}

/// What is counted of a line. Levels are those that count.
#[repr(C)]
#[derive(Clone, Copy, Debug, PartialEq, Eq)]
pub struct LineFacts {
    /// Where the clock changes.
    pub clock_changes: Occurrences,
    /// Where the data changes.
    pub data_changes: Occurrences,
    /// Where the data changes while the clock is high.
    pub data_changes_high: Occurrences,
    /// Where a bit arrives.
    pub bits: Occurrences,
    /// The longest distance of two bits in a row, the first such; 0 from 0 where there are no two.
    pub gap: Gap,
    /// The distance of the last two bits, or 0.
    pub step: u64,
    /// The bits whose distance to the bit before differs by more than so many samples from the distance before.
    pub jumps: Occurrences,
}

/// What is counted in the samples of a recording.
#[derive(Clone, Copy, Debug, PartialEq, Eq)]
pub struct TapFacts {
    /// How many samples there are.
    pub samples: u64,
    pub first: LineFacts,
    pub second: LineFacts,
    /// The levels at the end; low where there is no sample.
    pub first_levels: Levels,
    pub second_levels: Levels,
}

impl LineFacts {
    /// Of no samples.
    pub(crate) fn none() -> Self
        ensures none { (jump : ℕ) → AreFactsOf jump result [] [] [] [] }
        ensures within { AreWithin result 0 }
    {
        LineFacts {
            clock_changes: Occurrences::none(),
            data_changes: Occurrences::none(),
            data_changes_high: Occurrences::none(),
            bits: Occurrences::none(),
            gap: Gap { length: 0, from: 0 },
            step: 0,
            jumps: Occurrences::none(),
        }
    }

    /// The levels before the next sample and after it.
    #[inline(always)]
    pub(crate) fn note(&mut self, sample: u64, before: Levels, after: Levels, jump: u64)
        requires few { sample < 2 ^ 60 }
        requires within { AreWithin self.old sample }
        ensures facts { AdvancesFacts jump self.old sample before after self.new }
        ensures within { AreWithin self.new (sample + 1) }
    {
        if before == after {
            return;
        }
        self.clock_changes.note(before.clock != after.clock, sample);
        let is_changed = before.bits != after.bits;
        self.data_changes.note(is_changed, sample);
        self.data_changes_high
            .note(is_changed & after.clock, sample);
        let rises = !before.clock & after.clock;
        if rises {
            self.note_bit(sample, jump);
        }
    }

    /// The levels before each of 64 samples and at it, the first of which is `from`.
    #[inline(always)]
    pub(crate) fn note_block(&mut self, from: u64, counted: CountedLine, jump: u64)
        requires few { from + 64 ≤ 2 ^ 60 }
        requires within { AreWithin self.old from }
        ensures facts { AdvancesFactsBy jump self.old from counted self.new }
        ensures within { AreWithin self.new (from + 64) }
    {
        let (before, after) = (counted.before, counted.after);
        let turned = before.clock ^ after.clock;
        let changed = before.bits ^ after.bits;
        self.clock_changes.note_block(turned, from);
        self.data_changes.note_block(changed, from);
        self.data_changes_high
            .note_block(changed & after.clock, from);
        self.note_bits(turned & after.clock, from, jump);
    }

    /// Bits arrive in these samples of 64, the first of which is `from`.
    #[inline(always)]
    fn note_bits(&mut self, rises: u64, from: u64, jump: u64)
        requires few { from + 64 ≤ 2 ^ 60 }
        requires bits { (self.old.bits.count ≤ from) × (self.old.bits.last ≤ from) }
        requires jumps { self.old.jumps.count ≤ from }
        ensures facts { (es : List ℕ) → AreBitFacts jump self.old es
            → AreBitFacts jump self.new (es ++ marked from (has_bit rises)) }
        ensures others { (self.new.clock_changes ≡ self.old.clock_changes)
            × (self.new.data_changes ≡ self.old.data_changes)
            × (self.new.data_changes_high ≡ self.old.data_changes_high) }
        ensures counts { (self.new.bits.count ≤ from + 64) × (self.new.bits.last ≤ from + 64)
            × (self.new.jumps.count ≤ from + 64) }
    {
        let mut left = rises;
        while left != 0 {
            let one = lowest_one(left);
            self.note_bit(from + u64::from(one.place), jump);
            left = one.rest;
        }
    }

    /// A bit arrives in this sample.
    #[inline(always)]
    fn note_bit(&mut self, sample: u64, jump: u64)
        requires few { sample < 2 ^ 60 }
        requires bits { (self.old.bits.count ≤ sample) × (self.old.bits.last ≤ sample) }
        requires jumps { self.old.jumps.count ≤ sample }
        ensures bits { (es : List ℕ) → IsTallied self.old.bits es → IsTallied self.new.bits (es ++ sample ∷ []) }
        ensures gap { (es : List ℕ) → IsTallied self.old.bits es → IsLongest self.old.gap es
            → IsLongest self.new.gap (es ++ sample ∷ []) }
        ensures step { (es : List ℕ) → IsTallied self.old.bits es → self.old.step ≡ spacing es (length es - 1)
            → self.new.step ≡ spacing (es ++ sample ∷ []) (length es) }
        ensures jumps { (es : List ℕ) → IsTallied self.old.bits es → self.old.step ≡ spacing es (length es - 1)
            → IsTallied self.old.jumps (jumps jump es) → IsTallied self.new.jumps (jumps jump (es ++ sample ∷ [])) }
        ensures others { (self.new.clock_changes ≡ self.old.clock_changes)
            × (self.new.data_changes ≡ self.old.data_changes)
            × (self.new.data_changes_high ≡ self.old.data_changes_high) }
        ensures counts { (self.new.bits.count ≤ self.old.bits.count + 1)
            × (self.new.jumps.count ≤ self.old.jumps.count + 1) × (self.new.bits.last ≡ sample) }
    {
        let bits = self.bits;
        self.bits.note(true, sample);
        if bits.count == 0 {
            return;
        }
        let last = Gap {
            length: sample - bits.last,
            from: bits.last,
        };
        let step = self.step;
        self.step = last.length;
        if bits.count == 1 {
            self.gap = last;
            return;
        }
        self.jumps.note(last.length.abs_diff(step) > jump, sample);
        if last.length > self.gap.length {
            self.gap = last;
        }
    }
}
