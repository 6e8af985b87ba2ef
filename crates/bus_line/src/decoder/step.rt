//! A bit more, or several.

ghost use Rattle.std.specs.Prelude.{◌≡◌, ◌+◌, ◌-◌, ◌*◌, ◌/◌, ◌%◌, ◌≤◌, ◌<◌, ◌^◌, ◌↔◌, List, Bool, [], ◌∷◌, ◌++◌};
ghost use Rattle.std.specs.Prelude.{IsErr, IfOk, OnErr, ℕ};
ghost use Rattle.bus_bits.specs.Limits.{most_places};
ghost use Rattle.bus_bits.specs.Octet.{bits_of};
ghost use Rattle.bus_bits.specs.Word.{IsWordOf};

use crate::decoder::marked::Bits;
use crate::decoder::settled::data_in_word;
use crate::decoder::stop::{Stopped, up_to_stop};
use crate::decoder_words::{DecoderWords, PLACES};
use crate::event::Event;
use crate::frame_buffer::FrameBuffer;
use crate::place_limit::PlaceLimit;
use bus_bits::Word;
use bus_fcs::Check;
use std::cmp::min;

/// The last sixteen of so many bits after sixteen others, the oldest lowest.
#[inline(always)]
fn newest(last_bits: u64, bits: u64, count: u64) -> u64
    requires sixteen { last_bits < 65536 }
    requires count { count ≤ 56 }
    ensures { result ≡ (last_bits + bits % 2 ^ 56 * 65536) / 2 ^ count % 65536 }
{
    let front = last_bits | bits << 16;
    let behind = last_bits >> 8 | bits << 8;
    let newest = if count < 8 {
        front >> count
    } else {
        behind >> (count - 8)
    };
    newest & 0xffff
}

impl DecoderWords {
    ghost use Rattle.bus_line.specs.Words.{IsDecoder, AreDecoderWords, state};
    ghost use Rattle.bus_line.specs.After.{AdvancesWith};
    ghost use Rattle.bus_line.specs.Internal.AdvancesTo.{ConsumesBits, AdvancesToStop};
    ghost use Rattle.bus_line.specs.LineState.{LineState};
    ghost use Rattle.bus_line.specs.Internal.Settled.{AppendsBits};

    /// Takes a bit as [`LineDecoder::push`](crate::LineDecoder::push) does, with the octets of the piece and their
    /// check in the caller's hands. Returns the report that it decides, if it decides one.
    ///
    /// Refuses as [`PlaceLimit`], with nothing changed, where the bit's place would be 2^60.
    #[inline(always)]
    pub fn push<C: Check, F: FrameBuffer>(
        &mut self,
        check: &mut C,
        frame: &mut F,
        bit: bool,
    ) -> Result<Option<Event>, PlaceLimit>
        requires sound { IsDecoder self.old (F.octets frame.old) }
        ensures limit { IsErr result ↔ (most_places ≤ self.old.place) }
        ensures advances { IfOk result (λ event. AdvancesWith C.check (state self.old check.old (F.octets frame.old))
            (bit ∷ []) event (state self.new check.new (F.octets frame.new))) }
        ensures unchanged { OnErr result ((self.new ≡ self.old) × (check.new ≡ check.old) × (frame.new ≡ frame.old)) }
        ensures sound { IsDecoder self.new (F.octets frame.new) }
    {
        if self.place >= PLACES {
            return Err(PlaceLimit);
        }
        let due = self.shift::<C>(u64::from(bit), 1);
        self.append(check, frame, due);
        Ok(self.decide(check, frame))
    }

    /// Takes the bits of a word up to the first after exactly six ones or exactly fourteen, or all of them.
    #[inline(never)]
    pub(crate) fn run_word<C: Check, F: FrameBuffer>(
        &mut self,
        check: &mut C,
        frame: &mut F,
        word: Word,
    ) -> Stopped
        requires sound { IsDecoder self.old (F.octets frame.old) }
        requires word { IsWordOf word.count word.bits }
        requires room { self.old.place + word.count ≤ most_places }
        ensures count { (1 ≤ result.count) × (result.count ≤ word.count) }
        ensures reaches { AdvancesToStop C.check (state self.old check.old (F.octets frame.old))
            (bits_of result.count word.bits) result.is_stop (state self.new check.new (F.octets frame.new)) }
        ensures sound { IsDecoder self.new (F.octets frame.new) }
    {
        let run = up_to_stop(self.last_bits | word.bits << 16, word.count);
        let due = self.shift::<C>(word.bits, run.count as u64);
        self.append(check, frame, due);
        run
    }

    /// Takes so many of these bits, the lowest, of which none but the last may decide a report. Returns the data bits
    /// that eight later ones have followed by now, which are to be appended to the piece.
    #[inline(always)]
    pub(crate) fn shift<C: Check>(&mut self, bits: u64, count: u64) -> Bits
        requires within { AreDecoderWords self.old }
        requires count { (1 ≤ count) × (count ≤ 56) }
        requires room { self.old.place + count ≤ most_places }
        ensures consumes { (check : C) (octets : List ℕ) (new : LineState C) →
            AppendsBits C.check (state self.new check octets) (bits_of result.count result.bits) new →
            ConsumesBits C.check (state self.old check octets) (bits_of count bits) new }
        ensures early { self.new.place ≤ self.new.settles_at → result.count ≡ 0 }
        ensures same { self.new ≡ record self.old { place = self.old.place + count; last_bits = self.new.last_bits } }
        ensures room { self.new.assembled + self.new.data_bits + result.count ≤ self.new.place - self.new.origin }
        ensures sound { (octets : List ℕ) → IsDecoder self.old octets → IsDecoder self.new octets }
    {
        let word = self.last_bits | bits << 16;
        self.place += count;
        self.last_bits = newest(self.last_bits, bits, count);
        if self.place <= self.settles_at {
            return Bits { bits: 0, count: 0 };
        }
        let late = min(self.place - self.settles_at, count);
        data_in_word(word >> (count - late), late)
    }
}
