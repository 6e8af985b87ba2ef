//! The decoder: one bit at a time, or those of octets, in fixed memory.

mod append;
mod decide;
mod ended_mark;
mod marked;
mod run;
mod scan;
mod settled;
mod step;
mod stop;
mod time_fill;

ghost use Rattle.std.specs.Prelude.{◌≡◌, ◌+◌, ◌*◌, ◌-◌, ◌≤◌, ◌<◌, ◌^◌, ◌↔◌, ◌⊎◌, List, Bool, [], ◌∷◌, ◌++◌, IsErr};
ghost use Rattle.std.specs.Prelude.{IfOk, OnErr, length, Some, None};
ghost use Rattle.std.specs.Option.{option_map, option_to_list};
ghost use Rattle.std.specs.Borrow.{sem};
ghost use Rattle.std.specs.Io.BufRead.{Rests};
ghost use Rattle.bus_bits.specs.Limits.{most_places};
ghost use Rattle.bus_bits.specs.Word.{IsWordOf};
ghost use Rattle.bus_line.specs.Due.{begun};
ghost use Rattle.bus_line.specs.Ledger.{stored_open, IsLedger};
ghost use Rattle.bus_bits.specs.Bits.{bits_from};
ghost use Rattle.bus_bits.specs.Octet.{bits_of};

use crate::consumed::Consumed;
use crate::decoder_words::{DecoderWords, NEVER};
use crate::event::Event;
use crate::fault::LineFault;
use crate::piece::Piece;
use crate::place_limit::PlaceLimit;
use arrayvec::ArrayVec;
use bus_bits::Spent;
use bus_fcs::Check;
use std::marker::Model;

/// Finds the frames, damaged pieces, overlong pieces, aborts and idles of a line (ISO/IEC 13239)
/// from its bits.
///
/// It keeps a few words and the octets of one piece, at most the longest frame and two octets, and
/// takes no memory.
#[derive(Drop)]
pub struct LineDecoder<C: Check> {
    words: DecoderWords,
    /// The check of the octets.
    check: C,
    /// The octets of whole words of the piece, or of the frame before it until the first word is full.
    frame: ArrayVec<u8, 258>,
}

impl<C: Check> Model for LineDecoder<C> {
    ghost use Rattle.bus_line.specs.LineState.{LineState};

    ghost Value = { LineState C };

    ghost use Rattle.bus_line.specs.Internal.LineView.{line_state, is_decoder};

    ghost view = { line_state };

    ghost invariant = { is_decoder };
}

impl<C: Check> LineDecoder<C> {
    ghost use Rattle.bus_line.specs.contracts.decoder.LineDecoder.{the_row};
    ghost use Rattle.bus_line.specs.LineState.{LineState, stored_of};
    ghost use Rattle.bus_line.specs.After.{AddsReport, AdvancesWith, After, Pushed, ShowsHeld, FitsFrame, due_of};
    ghost use Rattle.bus_line.specs.Shown.{report_option, reported};

    /// A decoder that took no bit, whose first bit has the place `origin`.
    ///
    /// `longest` is the longest frame in octets, address through information, 3 to 256. `origin` is
    /// at most 2^60.
    ///
    /// # Errors
    ///
    /// `LongestRange`, and else `Origin`, where these are out of range.
    pub fn new(longest: usize, origin: u64) -> Result<Self, LineFault>
        ensures range { (result ≡ Err LineFault.LongestRange) ↔ ((longest < 3) ⊎ (256 < longest)) }
        ensures origin { (result ≡ Err LineFault.Origin) ↔ ((3 ≤ longest) × (longest ≤ 256) × (most_places < origin)) }
        ensures after { IfOk result (λ d. After C.check d []) }
        ensures given { IfOk result (λ d. (d.longest ≡ longest) × (d.origin ≡ origin) × (d.place ≡ origin)) }
    {
        let words = DecoderWords::new(longest, origin)?;
        Ok(LineDecoder {
            words,
            check: C::fresh(),
            frame: ArrayVec::new(),
        })
    }

    /// Takes bits of these octets, the least significant of each first, from bit `at` on and before bit `end`: up to
    /// the first that decides a report, or all. Returns how many it took, and the report that the last of these
    /// decides, if there is one. If that is a frame, [`LineDecoder::octets`] lends its octets.
    ///
    /// It stops in front of a bit whose place would be 2^60, and refuses as [`PlaceLimit`], with nothing changed, where
    /// that is the first. `end` is at most eight times the number of octets.
    #[inline(always)]
    pub fn scan(&mut self, octets: &[u8], at: usize, end: usize) -> Result<Consumed, PlaceLimit>
        requires some { at < end }
        requires enough { end ≤ 8 * length octets.now }
        ensures limit { IsErr result ↔ (most_places ≤ self.old.place) }
        ensures count { IfOk result (λ s. (1 ≤ s.count) × (s.count ≤ end - at)) }
        ensures fits { IfOk result (λ s. self.old.place + s.count ≤ most_places) }
        ensures all { IfOk result (λ s. s.event ≡ None → s.count < end - at → self.new.place ≡ most_places) }
        ensures answer { IfOk result (λ s. (b : List Bool) → After C.check self.old b →
            option_map (reported self.new.octets) s.event
            ≡ due_of self.old (b ++ bits_from octets.now at s.count) (length b + s.count - 1)) }
        ensures advances { IfOk result (λ s.
            AdvancesWith C.check self.old (bits_from octets.now at s.count) s.event self.new) }
        ensures unchanged { OnErr result (self.new ≡ self.old) }
    {
        // The `?` parts the two cases for the proof.
        let scanned = self
            .words
            .scan(&mut self.check, &mut self.frame, octets, at, end)?;
        Ok(scanned)
    }

    /// Takes a bit, and returns the event that it decides, if there is one. If that is a frame,
    /// [`LineDecoder::octets`] lends its octets.
    ///
    /// Refuses as [`PlaceLimit`], with nothing changed, where the bit's place would be 2^60.
    #[inline(always)]
    pub fn advance(&mut self, bit: bool) -> Result<Option<Event>, PlaceLimit>
        ensures limit { IsErr result ↔ (most_places ≤ self.old.place) }
        ensures answer { IfOk result (λ event. (b : List Bool) → After C.check self.old b →
            option_map (reported self.new.octets) event ≡ due_of self.old (b ++ bit ∷ []) (length b)) }
        ensures advances { IfOk result (λ event. AdvancesWith C.check self.old (bit ∷ []) event self.new) }
        ensures unchanged { OnErr result (self.new ≡ self.old) }
    {
        // The `?` parts the two cases for the proof.
        let event = self.words.push(&mut self.check, &mut self.frame, bit)?;
        Ok(event)
    }

    /// Takes a bit, and returns the report that it decides, if there is one. A frame's octets are
    /// borrowed from the decoder.
    ///
    /// Refuses as [`PlaceLimit`], with nothing changed, where the bit's place would be 2^60.
    pub fn push(&mut self, bit: bool) -> Result<Option<Piece<'_>>, PlaceLimit>
        ensures limit { IsErr result ↔ (most_places ≤ self.old.place) }
        ensures answer { IfOk result (λ o. (b : List Bool) → After C.check self.old b →
            report_option o ≡ due_of self.old (b ++ bit ∷ []) (length b)) }
        ensures more { IfOk result (λ o. AddsReport C.check self.old (bit ∷ []) (report_option o)) }
        ensures fits { IfOk result (λ o. FitsFrame self.old.longest o) }
        // What becomes of the decoder: `new`, once the octets that are lent have been given back.
        ensures* rests { sem 𝓛 (Rests (the_row C.row C.Check) self.entry (λ new.
            IfOk result (λ o. Pushed C.check self.old bit o new) × OnErr result (new ≡ self.old))) }
    {
        let event = self.advance(bit)?;
        Ok(self.lent(event))
    }

    /// The report of an event, if there is one. A frame's octets are borrowed from the buffer.
    #[inline(always)]
    fn lent(&self, event: Option<Event>) -> Option<Piece<'_>>
        ensures shows { report_option result ≡ option_map (reported self.now.octets) event }
        ensures held { ShowsHeld self.now result }
        ensures fits { FitsFrame self.now.longest result }
    {
        match event {
            Some(event) => Some(event.with_octets(self.octets())),
            None => None,
        }
    }

    /// The octets of the frame that the last bit closed: address, control, information and the two
    /// octets of the frame check. After any other bit they are not those of a frame.
    pub fn octets(&self) -> &[u8]
        ensures value { result.now ≡ self.now.octets }
        ensures bound { length result.now ≤ self.now.longest + 2 }
        ensures longest { self.now.longest ≤ 256 }
    {
        self.frame.as_slice()
    }

    /// How many octets of the open piece are stored, or wait to be: at most the longest frame and two, and 0 where
    /// no piece is open.
    #[tactic(auto, unfolding(crate::specs::LineState::stored_of))]
    pub fn buffered(&self) -> usize
        ensures bound { result ≤ self.now.longest + 2 }
        ensures stored { (b : List Bool) → After C.check self.now b →
            result ≡ stored_open self.now.longest b }
    {
        if self.words.settles_at == NEVER {
            return 0;
        }
        self.words.stored_of_piece() as usize
    }

    /// The place of the next bit: the origin and the bits so far.
    pub fn place(&self) -> u64
        ensures value { result ≡ self.now.place }
        ensures fits { result ≤ most_places }
        ensures after { (b : List Bool) → After C.check self.now b → result ≡ self.now.origin + length b }
    {
        self.words.place
    }

    /// The steps so far.
    #[tactic(auto, unfolding(crate::specs::LineState::stored_of))]
    pub fn spent(&self) -> Spent
        ensures value { result ≡ record self.now.spent {
          folded = self.now.spent.folded + C.check.cost * stored_of self.now.longest self.now.data_bits;
        } }
        ensures ledger { (b : List Bool) → After C.check self.now b →
            IsLedger C.check.cost self.now.longest b result }
    {
        let stored = self.words.stored_of_piece();
        Spent {
            shifted: self.words.place - self.words.origin,
            assembled: self.words.assembled + self.words.data_bits,
            folded: self.words.folded + C::COST * stored,
            stored: self.words.stored + stored,
            ..Spent::zero()
        }
    }

    /// The first place of a piece that has begun and is not ended yet.
    pub fn begun(&self) -> Option<u64>
        ensures after { (b : List Bool) → After C.check self.now b →
            result ≡ option_map (λ first. self.now.origin + first) (begun b) }
    {
        self.words.begun()
    }
}
