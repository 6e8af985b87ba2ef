//! Data bits more of a piece.

ghost use Rattle.std.specs.Prelude.{◌≡◌, ◌+◌, ◌-◌, ◌*◌, ◌/◌, ◌≤◌, ◌<◌, ◌^◌, List, Bool, ◌++◌, length, ℕ};
ghost use Rattle.bus_bits.specs.Octet.{bits_of, octets};
ghost use Rattle.bus_line.specs.Limits.{most_octets};
ghost use Rattle.bus_line.specs.Internal.Settled.{StoresLow};

use crate::decoder::marked::Bits;
use crate::decoder_words::DecoderWords;
use crate::frame_buffer::FrameBuffer;
use bus_bits::Spent;
use bus_fcs::Check;
use std::cmp::min;

impl DecoderWords {
    ghost use Rattle.bus_line.specs.Words.{IsDecoder, state};
    ghost use Rattle.bus_line.specs.Internal.Tracks.{Holds, in_words, words_room};
    ghost use Rattle.bus_line.specs.Internal.Settled.{AppendsBits, HoldsOctets, StoresWord};

    /// Appends data bits to the piece. When they fill a word of eight octets, it is stored and folded, if there is
    /// room for all of it.
    #[inline(always)]
    pub(crate) fn append<C: Check, F: FrameBuffer>(
        &mut self,
        check: &mut C,
        frame: &mut F,
        more: Bits,
    )
        requires sound { IsDecoder self.old (F.octets frame.old) }
        requires early { self.old.place ≤ self.old.settles_at → more.count ≡ 0 }
        requires room { self.old.assembled + self.old.data_bits + more.count ≤ self.old.place - self.old.origin }
        ensures appends { AppendsBits C.check (state self.old check.old (F.octets frame.old))
            (bits_of more.count more.bits) (state self.new check.new (F.octets frame.new)) }
        ensures sound { IsDecoder self.new (F.octets frame.new) }
    {
        let held = self.data_bits % 64;
        let joined = self.partial | more.bits << held;
        if held + more.count < 64 {
            self.data_bits += more.count;
            self.partial = joined;
            return;
        }
        self.begin(check, frame);
        self.store(check, frame, joined);
        self.data_bits += more.count;
        self.partial = more.bits >> (64 - held);
    }

    /// Empties the frame buffer, and begins its check, where no word of the piece is there yet.
    #[inline(always)]
    fn begin<C: Check, F: FrameBuffer>(&self, check: &mut C, frame: &mut F)
        requires sound { IsDecoder self.now (F.octets frame.old) }
        ensures keeps { (bits : List Bool) → Holds C.check.folded (state self.now check.old (F.octets frame.old)) bits →
            HoldsOctets C.check.folded (words_room self.now.longest) (state self.now check.new (F.octets frame.new))
            (octets (in_words bits)) }
        ensures sound { IsDecoder self.now (F.octets frame.new) }
    {
        if self.data_bits >= 64 {
            return;
        }
        frame.clear();
        *check = C::fresh();
    }

    /// Stores and folds the eight octets of a word, if there is room for all of them. They are counted where the piece
    /// ends.
    #[inline(always)]
    fn store<C: Check, F: FrameBuffer>(&self, check: &mut C, frame: &mut F, word: u64)
        requires sound { IsDecoder self.now (F.octets frame.old) }
        ensures stores { StoresWord C.check.folded (state self.now check.old (F.octets frame.old)) word
            (state self.now check.new (F.octets frame.new)) }
        ensures sound { IsDecoder self.now (F.octets frame.new) }
    {
        if frame.len() as u64 + 8 > self.longest + 2 {
            return;
        }
        let octets = word.to_le_bytes();
        frame.push_eight(&octets);
        check.fold_eight(&octets, &mut Spent::zero());
    }

    /// Stores and folds the last octets of the piece, which fill no word.
    #[inline(always)]
    pub(crate) fn store_last<C: Check, F: FrameBuffer>(&self, check: &mut C, frame: &mut F)
        requires sound { IsDecoder self.now (F.octets frame.old) }
        ensures holds { (bits : List Bool) → Holds C.check.folded (state self.now check.old (F.octets frame.old)) bits →
            length bits ≤ 8 * (self.now.longest + 2) →
            HoldsOctets C.check.folded (self.now.longest + 2) (state self.now check.new (F.octets frame.new))
            (octets bits) }
        ensures sound { IsDecoder self.now (F.octets frame.new) }
    {
        self.begin(check, frame);
        let room = self.longest + 2 - frame.len() as u64;
        let stored = min(self.data_bits / 8 % 8, room);
        store_few(check, frame, self.partial, stored);
    }
}

/// Stores and folds so many of the lowest octets of a number, at most seven: four together, then two, then one.
#[inline(always)]
fn store_few<C: Check, F: FrameBuffer>(check: &mut C, frame: &mut F, octets: u64, count: u64)
    requires few { count ≤ 7 }
    requires room { length (F.octets frame.old) + count ≤ most_octets }
    ensures { StoresLow C.check.folded count octets check.old (F.octets frame.old) check.new (F.octets frame.new) }
{
    if count < 4 {
        return store_three(check, frame, octets, count);
    }
    let four = ((octets & 0xffff_ffff) as u32).to_le_bytes();
    frame.push_four(&four);
    check.fold_four(&four, &mut Spent::zero());
    store_three(check, frame, octets >> 32, count - 4);
}

/// The same of at most three.
#[inline(always)]
fn store_three<C: Check, F: FrameBuffer>(check: &mut C, frame: &mut F, octets: u64, count: u64)
    requires few { count ≤ 3 }
    requires room { length (F.octets frame.old) + count ≤ most_octets }
    ensures { StoresLow C.check.folded count octets check.old (F.octets frame.old) check.new (F.octets frame.new) }
{
    if count < 2 {
        return store_one(check, frame, octets, count);
    }
    store_one(check, frame, octets, 1);
    store_one(check, frame, octets >> 8, 1);
    store_one(check, frame, octets >> 16, count - 2);
}

/// The same of one or none.
#[inline(always)]
fn store_one<C: Check, F: FrameBuffer>(check: &mut C, frame: &mut F, octets: u64, count: u64)
    requires few { count ≤ 1 }
    requires room { length (F.octets frame.old) + count ≤ most_octets }
    ensures { StoresLow C.check.folded count octets check.old (F.octets frame.old) check.new (F.octets frame.new) }
{
    if count == 0 {
        return;
    }
    let octet = (octets & 0xff) as u8;
    frame.push(octet);
    check.fold(octet, &mut Spent::zero());
}
