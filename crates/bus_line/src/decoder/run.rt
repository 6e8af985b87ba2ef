//! Bits up to the next stop.

ghost use Rattle.std.specs.Prelude.{◌≡◌, ◌+◌, ◌-◌, ◌≤◌, ◌^◌, List, ℕ};
ghost use Rattle.bus_bits.specs.Bits.{bits_from};

use crate::decoder::stop::{Stopped, up_to_six, up_to_stop};
use crate::decoder_words::DecoderWords;
use crate::frame_buffer::FrameBuffer;
use bus_bits::{seven_octets_at, word_at};
use bus_fcs::Check;

impl DecoderWords {
    ghost use Rattle.bus_line.specs.Words.{HasBits, AreDecoderWords, IsDecoder, state};
    ghost use Rattle.bus_line.specs.Internal.AdvancesTo.{AdvancesToStop};

    /// Takes bits up to the first that may decide a report: of the piece that the last flag opens as far as 64 are
    /// left, and others as time fill or up to 48.
    #[inline(always)]
    pub(crate) fn run<C: Check, F: FrameBuffer>(
        &mut self,
        check: &mut C,
        frame: &mut F,
        octets: &[u8],
        from: usize,
        end: usize,
    ) -> Stopped
        requires sound { IsDecoder self.old (F.octets frame.old) }
        requires bits { HasBits self.old octets.now from end }
        ensures count { (1 ≤ result.count) × (result.count ≤ end - from) }
        ensures reaches { AdvancesToStop C.check (state self.old check.old (F.octets frame.old))
            (bits_from octets.now from result.count) result.is_stop (state self.new check.new (F.octets frame.new)) }
        ensures sound { IsDecoder self.new (F.octets frame.new) }
    {
        if end - from < 64 {
            return self.run_word(check, frame, word_at(octets, from, end));
        }
        if !self.begins_piece(octets, from) {
            return self.run_fill(check, frame, octets, from, end);
        }
        self.run_piece(check, frame, octets, from, end)
    }

    /// Takes bits of the piece that the last flag opens up to the first after six ones, or as far as 64 are left.
    #[inline(always)]
    fn run_piece<C: Check, F: FrameBuffer>(
        &mut self,
        check: &mut C,
        frame: &mut F,
        octets: &[u8],
        from: usize,
        end: usize,
    ) -> Stopped
        requires sound { IsDecoder self.old (F.octets frame.old) }
        requires bits { HasBits self.old octets.now from end }
        requires enough { from + 64 ≤ end }
        ensures count { (1 ≤ result.count) × (result.count ≤ end - from) }
        ensures reaches { AdvancesToStop C.check (state self.old check.old (F.octets frame.old))
            (bits_from octets.now from result.count) result.is_stop (state self.new check.new (F.octets frame.new)) }
        ensures sound { IsDecoder self.new (F.octets frame.new) }
    {
        let mut at = from;
        loop {
            let run = self.stride(check, frame, octets, at);
            at += run.count;
            if run.is_stop || end - at < 64 {
                return Stopped {
                    count: at - from,
                    is_stop: run.is_stop,
                };
            }
        }
    }

    /// Takes 56 bits, or those up to the first after six ones.
    #[inline(always)]
    fn stride<C: Check, F: FrameBuffer>(
        &mut self,
        check: &mut C,
        frame: &mut F,
        octets: &[u8],
        at: usize,
    ) -> Stopped
        requires sound { IsDecoder self.old (F.octets frame.old) }
        requires bits { HasBits self.old octets.now at (at + 64) }
        ensures count { (1 ≤ result.count) × (result.count ≤ 56) }
        ensures reaches { AdvancesToStop C.check (state self.old check.old (F.octets frame.old))
            (bits_from octets.now at result.count) result.is_stop (state self.new check.new (F.octets frame.new)) }
        ensures sound { IsDecoder self.new (F.octets frame.new) }
    {
        let bits = seven_octets_at(octets, at);
        let run = up_to_six(self.last_bits >> 8 | bits << 8);
        let due = self.shift::<C>(bits, run.count as u64);
        self.append(check, frame, due);
        run
    }

    /// Takes bits where no piece is open, up to the first after six ones or fourteen, up to sixteen ones, or as far as
    /// 64 are left.
    #[inline(always)]
    pub(crate) fn run_quiet<C: Check>(&mut self, octets: &[u8], from: usize, end: usize) -> Stopped
        requires within { AreDecoderWords self.old }
        requires quiet { self.old.settles_at ≡ 2 ^ 62 }
        requires bits { HasBits self.old octets.now from end }
        requires enough { from + 64 ≤ end }
        ensures count { (1 ≤ result.count) × (result.count ≤ end - from) }
        ensures reaches { (check : C) (held : List ℕ) → AdvancesToStop C.check (state self.old check held)
            (bits_from octets.now from result.count) result.is_stop (state self.new check held) }
        ensures longest { self.new.longest ≡ self.old.longest }
        ensures within { AreDecoderWords self.new }
    {
        let mut at = from;
        loop {
            let run = self.quiet_stride::<C>(octets, at);
            at += run.count;
            if run.is_stop || end - at < 64 || self.last_bits == 0xffff {
                return Stopped {
                    count: at - from,
                    is_stop: run.is_stop,
                };
            }
        }
    }

    /// Takes 48 bits where no piece is open, or those up to the first after six ones or fourteen.
    #[inline(always)]
    fn quiet_stride<C: Check>(&mut self, octets: &[u8], at: usize) -> Stopped
        requires within { AreDecoderWords self.old }
        requires quiet { self.old.settles_at ≡ 2 ^ 62 }
        requires bits { HasBits self.old octets.now at (at + 64) }
        ensures count { (1 ≤ result.count) × (result.count ≤ 48) }
        ensures reaches { (check : C) (held : List ℕ) → AdvancesToStop C.check (state self.old check held)
            (bits_from octets.now at result.count) result.is_stop (state self.new check held) }
        ensures same { self.new ≡ record self.old {
          place = self.old.place + result.count;
          last_bits = self.new.last_bits;
        } }
        ensures within { AreDecoderWords self.new }
    {
        let bits = seven_octets_at(octets, at) & 0xffff_ffff_ffff;
        let run = up_to_stop(self.last_bits | bits << 16, 48);
        self.shift::<C>(bits, run.count as u64);
        run
    }
}
