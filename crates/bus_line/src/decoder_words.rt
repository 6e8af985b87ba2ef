//! What a decoder holds but for octets.

ghost use Rattle.std.specs.Prelude.{◌≡◌, ◌+◌, ◌-◌, ◌*◌, ◌≤◌, ◌<◌, ◌↔◌, ◌⊎◌, List, Bool, IfOk, IsTrue, length};
ghost use Rattle.std.specs.Option.{option_map};
ghost use Rattle.bus_bits.specs.Limits.{most_places};
ghost use Rattle.bus_line.specs.Due.{begun, current, first_of};
ghost use Rattle.bus_line.specs.LineState.{stored_of};
ghost use Rattle.bus_line.specs.Words.{first_in, fresh_words, AreDecoderWords};

use crate::fault::LineFault;
use bus_fcs::Check;
use std::cmp::min;

/// The first place that no bit can have.
pub(crate) const PLACES: u64 = 1 << 60;

/// A place that is never reached.
pub(crate) const NEVER: u64 = 1 << 62;

/// What a decoder holds between two bits, but for the octets of a piece and their check, which the caller of
/// [`DecoderWords::scan`] keeps beside it and lends to each call. The layout is C's.
#[repr(C)]
#[derive(Drop)]
pub struct DecoderWords {
    /// The longest frame in octets, address through information.
    pub longest: u64,
    /// The place of the first bit.
    pub origin: u64,
    /// The place of the next bit.
    pub place: u64,
    /// From the first place after this one on, each bit settles one bit of the open piece: eight past its
    /// beginning, or a place that is never reached where no piece is open.
    pub settles_at: u64,
    /// Units of work of the frame check, of the pieces before the newest.
    pub folded: u64,
    /// Octets stored, of the pieces before the newest.
    pub stored: u64,
    /// Data bits settled, of the pieces before the newest.
    pub assembled: u64,
    /// Data bits settled, of the newest piece.
    pub data_bits: u64,
    /// Those of them that fill no word of 64 yet, the first lowest.
    pub partial: u64,
    /// The last sixteen bits, the oldest lowest, with 0s before the first.
    pub last_bits: u64,
}

impl DecoderWords {
    /// The words of a decoder that took no bit, as [`LineDecoder::new`](crate::LineDecoder::new) makes one.
    ///
    /// # Errors
    ///
    /// `LongestRange`, and else `Origin`, where these are out of range.
    pub fn new(longest: usize, origin: u64) -> Result<Self, LineFault>
        ensures range { (result ≡ Err LineFault.LongestRange) ↔ ((longest < 3) ⊎ (256 < longest)) }
        ensures origin { (result ≡ Err LineFault.Origin) ↔ ((3 ≤ longest) × (longest ≤ 256) × (most_places < origin)) }
        ensures within { IfOk result AreDecoderWords }
        ensures value { IfOk result (λ w. w ≡ fresh_words longest origin) }
    {
        if longest < 3 || longest > 256 {
            return Err(LineFault::LongestRange);
        }
        if origin > PLACES {
            return Err(LineFault::Origin);
        }
        Ok(DecoderWords {
            longest: longest as u64,
            origin,
            place: origin,
            settles_at: NEVER,
            folded: 0,
            stored: 0,
            assembled: 0,
            data_bits: 0,
            partial: 0,
            last_bits: 0,
        })
    }

    /// Whether these are words of a decoder.
    #[inline(always)]
    pub fn are_valid(&self) -> bool
        ensures { IsTrue result ↔ AreDecoderWords self.now }
    {
        self.longest >= 3
            && self.longest <= 256
            && self.place <= PLACES
            && self.origin <= self.place
            && (self.settles_at.wrapping_sub(8) <= self.place || self.settles_at == NEVER)
            && self.data_bits <= self.place - self.origin
            && self.assembled <= self.place - self.origin - self.data_bits
            && self.stored <= self.assembled
            && self.folded <= 8 * self.assembled
            && self.last_bits <= 0xffff
    }

    /// The octets of the newest piece that are stored, or wait to be.
    #[inline(always)]
    #[tactic(auto, unfolding(crate::specs::LineState::stored_of))]
    pub(crate) fn stored_of_piece(&self) -> u64
        requires { AreDecoderWords self.now }
        ensures { result ≡ stored_of self.now.longest self.now.data_bits }
    {
        min(self.data_bits / 8, self.longest + 2)
    }

    /// Counts the octets of the newest piece, which has ended, among those of earlier ones.
    #[inline(always)]
    #[tactic(auto, unfolding(crate::specs::LineState::stored_of))]
    pub(crate) fn count_piece<C: Check>(&mut self)
        requires { AreDecoderWords self.old }
        ensures counts { self.new ≡ record self.old {
          folded = self.old.folded + C.check.cost * stored_of self.old.longest self.old.data_bits;
          stored = self.old.stored + stored_of self.old.longest self.old.data_bits;
          assembled = self.old.assembled + self.old.data_bits;
          data_bits = 0;
          partial = 0;
        } }
        ensures within { AreDecoderWords self.new }
    {
        let stored = self.stored_of_piece();
        self.folded += C::COST * stored;
        self.stored += stored;
        self.assembled += self.data_bits;
        self.data_bits = 0;
        self.partial = 0;
    }

    /// The first place of the open piece, and past all places where the last mark is no flag.
    #[inline(always)]
    pub(crate) fn first_or_never(&self) -> u64
        requires { AreDecoderWords self.now }
        ensures { result ≡ self.now.settles_at - 8 }
    {
        self.settles_at - 8
    }

    /// The first place of a piece that has begun and is not ended yet.
    pub fn begun(&self) -> Option<u64>
        requires { AreDecoderWords self.now }
        ensures { (b : List Bool) → first_in self.now.settles_at ≡ first_of self.now.origin (current b) →
            self.now.place ≡ self.now.origin + length b →
            result ≡ option_map (λ first. self.now.origin + first) (begun b) }
    {
        let first = self.first_or_never();
        if first < self.place {
            Some(first)
        } else {
            None
        }
    }
}
