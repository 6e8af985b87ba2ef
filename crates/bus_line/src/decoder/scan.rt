//! Many bits at once, from octets.

ghost use Rattle.std.specs.Prelude.{◌≡◌, ◌≢◌, ◌+◌, ◌-◌, ◌*◌, ◌/◌, ◌≤◌, ◌<◌, ◌^◌, ◌↔◌, List, Bool, false, true, IsErr};
ghost use Rattle.std.specs.Prelude.{IfOk, OnErr, None, length, ℕ, replicate};
ghost use Rattle.std.specs.Option.{option_map};
ghost use Rattle.bus_bits.specs.Bits.{bits_from};
ghost use Rattle.bus_bits.specs.Limits.{most_places};
ghost use Rattle.bus_bits.specs.Octet.{bits_of};

use crate::consumed::Consumed;
use crate::decoder::stop::Stopped;
use crate::decoder::time_fill::{flags_end, ones_end};
use crate::decoder_words::{DecoderWords, NEVER, PLACES};
use crate::frame_buffer::FrameBuffer;
use crate::place_limit::PlaceLimit;
use bus_bits::{seven_octets_at, word_at};
use bus_fcs::Check;
use std::cmp::min;

impl DecoderWords {
    ghost use Rattle.bus_line.specs.Words.{HasBits, IsDecoder, AreDecoderWords, state};
    ghost use Rattle.bus_line.specs.After.{AdvancesWith, Decides};
    ghost use Rattle.bus_line.specs.Internal.AdvancesTo.{AdvancesToStop};
    ghost use Rattle.bus_line.specs.Internal.Flags.{SkipsFlags};
    ghost use Rattle.bus_line.specs.Internal.TimeFill.{SkipsOnes, AreFlags};

    /// Takes bits as [`LineDecoder::scan`](crate::LineDecoder::scan) does, with the octets of the piece and
    /// their check in the caller's hands.
    ///
    /// Refuses as [`PlaceLimit`], with nothing changed, where the first bit's place would be 2^60.
    #[inline(always)]
    pub fn scan<C: Check, F: FrameBuffer>(
        &mut self,
        check: &mut C,
        frame: &mut F,
        octets: &[u8],
        at: usize,
        end: usize,
    ) -> Result<Consumed, PlaceLimit>
        requires sound { IsDecoder self.old (F.octets frame.old) }
        requires some { at < end }
        requires enough { end ≤ 8 * length octets.now }
        ensures limit { IsErr result ↔ (most_places ≤ self.old.place) }
        ensures count { IfOk result (λ s. (1 ≤ s.count) × (s.count ≤ end - at)) }
        ensures all { IfOk result (λ s. s.event ≡ None → s.count < end - at → self.new.place ≡ most_places) }
        ensures advances { IfOk result (λ s. AdvancesWith C.check (state self.old check.old (F.octets frame.old))
            (bits_from octets.now at s.count) s.event (state self.new check.new (F.octets frame.new))) }
        ensures unchanged { OnErr result ((self.new ≡ self.old) × (check.new ≡ check.old) × (frame.new ≡ frame.old)) }
        ensures sound { IsDecoder self.new (F.octets frame.new) }
    {
        let room = PLACES - self.place;
        if room == 0 {
            return Err(PlaceLimit);
        }
        let count = min((end - at) as u64, room) as usize;
        let past = at + count;
        let mut reached = at;
        while reached < past {
            let run = self.run(check, frame, octets, reached, past);
            reached += run.count;
            if !run.is_stop {
                continue;
            }
            let event = self.decide(check, frame);
            if event.is_some() {
                return Ok(Consumed {
                    count: reached - at,
                    event,
                });
            }
        }
        Ok(Consumed { count, event: None })
    }

    /// Takes time fill as far as it goes, and else bits up to the first that may decide a report, 48 at most where a
    /// piece is open.
    #[inline(always)]
    pub(crate) fn run_fill<C: Check, F: FrameBuffer>(
        &mut self,
        check: &mut C,
        frame: &mut F,
        octets: &[u8],
        from: usize,
        end: usize,
    ) -> Stopped
        requires sound { IsDecoder self.old (F.octets frame.old) }
        requires bits { HasBits self.old octets.now from end }
        requires enough { from + 64 ≤ end }
        ensures count { (1 ≤ result.count) × (result.count ≤ end - from) }
        ensures reaches { AdvancesToStop C.check (state self.old check.old (F.octets frame.old))
            (bits_from octets.now from result.count) result.is_stop (state self.new check.new (F.octets frame.new)) }
        ensures sound { IsDecoder self.new (F.octets frame.new) }
    {
        let past = self.skip_time_fill::<C>(octets, from, end);
        if past == from {
            return self.run_bits(check, frame, octets, from, end);
        }
        Stopped {
            count: past - from,
            is_stop: false,
        }
    }

    /// Takes bits up to the first that may decide a report, 48 at most where a piece is open.
    #[inline(always)]
    fn run_bits<C: Check, F: FrameBuffer>(
        &mut self,
        check: &mut C,
        frame: &mut F,
        octets: &[u8],
        from: usize,
        end: usize,
    ) -> Stopped
        requires sound { IsDecoder self.old (F.octets frame.old) }
        requires bits { HasBits self.old octets.now from end }
        requires enough { from + 64 ≤ end }
        ensures count { (1 ≤ result.count) × (result.count ≤ end - from) }
        ensures reaches { AdvancesToStop C.check (state self.old check.old (F.octets frame.old))
            (bits_from octets.now from result.count) result.is_stop (state self.new check.new (F.octets frame.new)) }
        ensures sound { IsDecoder self.new (F.octets frame.new) }
    {
        if self.settles_at == NEVER {
            return self.run_quiet::<C>(octets, from, end);
        }
        self.run_word(check, frame, word_at(octets, from, end))
    }

    /// Whether the last mark is a flag that no other follows directly. Between two such flags there is no piece
    /// (ISO/IEC 13239, interframe time fill).
    #[inline(always)]
    pub(crate) fn begins_piece(&self, octets: &[u8], from: usize) -> bool
        requires within { AreDecoderWords self.now }
        requires enough { from + 64 ≤ 8 * length octets.now }
    {
        self.settles_at < self.place + 8
            || self.settles_at == self.place + 8 && seven_octets_at(octets, from) & 0xff != 0x7e
    }

    /// Takes time fill, 56 bits at a time where 64 are left: ones where no piece is open, or flags after a flag.
    #[inline(always)]
    pub(crate) fn skip_time_fill<C: Check>(
        &mut self,
        octets: &[u8],
        from: usize,
        end: usize,
    ) -> usize
        requires within { AreDecoderWords self.old }
        requires bits { HasBits self.old octets.now from end }
        ensures within { (from ≤ result) × (result ≤ end) }
        ensures decides { (check : C) (held : List ℕ) → Decides C.check (state self.old check held)
            (bits_from octets.now from (result - from)) None (state self.new check held) }
        ensures sound { AreDecoderWords self.new }
    {
        if self.settles_at == NEVER {
            return self.skip_ones(octets, from, end);
        }
        if self.settles_at == self.place + 8 {
            return self.skip_flags(octets, from, end);
        }
        from
    }

    /// Takes ones of an idle line, where no piece is open, 56 at a time.
    #[inline(always)]
    pub(crate) fn skip_ones(&mut self, octets: &[u8], from: usize, end: usize) -> usize
        requires within { AreDecoderWords self.old }
        requires idle { self.old.settles_at ≡ 2 ^ 62 }
        requires bits { HasBits self.old octets.now from end }
        ensures within { (from ≤ result) × (result ≤ end) }
        ensures bits { bits_from octets.now from (result - from) ≡ replicate (result - from) true }
        ensures passes { SkipsOnes self.old (result - from) self.new }
        ensures sound { AreDecoderWords self.new }
    {
        if self.last_bits != 0xffff {
            return from;
        }
        let at = ones_end(octets, from, end);
        self.place += (at - from) as u64;
        at
    }

    /// Takes flags after a flag.
    #[inline(always)]
    pub(crate) fn skip_flags(&mut self, octets: &[u8], from: usize, end: usize) -> usize
        requires within { AreDecoderWords self.old }
        requires flag { self.old.settles_at ≡ self.old.place + 8 }
        requires bits { HasBits self.old octets.now from end }
        ensures within { (from ≤ result) × (result ≤ end) }
        ensures flags { AreFlags octets.now from result }
        ensures passes { SkipsFlags self.old ((result - from) / 8) self.new }
        ensures sound { AreDecoderWords self.new }
    {
        let at = flags_end(octets, from, end);
        if at > from {
            self.place += (at - from) as u64;
            self.last_bits = 0x7e7e;
            self.settles_at = self.place + 8;
        }
        at
    }
}
