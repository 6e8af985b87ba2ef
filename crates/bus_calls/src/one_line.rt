//! Captures of one line.

ghost use Rattle.std.specs.Prelude.{◌≡◌, ◌+◌, ◌-◌, ◌*◌, ◌≤◌, ◌<◌, ◌^◌, ℕ, Bool, List, true, Option, ◌++◌, length, take};
ghost use Rattle.std.specs.Prelude.{None, IfOk, MatchResult};
ghost use Rattle.bus_bits.specs.Bits.{bits_from};
ghost use Rattle.bus_calls.specs.Internal.OneLine.{one_line_kind};
ghost use Rattle.bus_calls.specs.Internal.Sessions.{OctetsAfter, SourceStopsWith};
ghost use Rattle.bus_calls.specs.Internal.Watching.{FeedStopsWith, FeedAfter, IsSame, IsSound};

use crate::capture_kind::CaptureKind;
use crate::run::CaptureRun;
use arrayvec::ArrayVec;
use bus_dictionary::Dictionary;
use bus_fcs::Check;
use bus_formats::laws::{captures_grow, packed_is_head_and_body};
use bus_formats::{BadMark, HeadFault, PackedBits, PackedFault, PackedHead, TextBits};
use bus_line::PlaceLimit;
use bus_text::{Page, Printer, ShortWrite, Summary, ToolFault, put_kept};
use bus_watch::laws::seen_grows;
use bus_watch::{Analyser, Counts, NewFault};
use std::alloc::Global;
use std::io::Write;

/// Takes the bits of these octets before bit `end`, up to the first that can't be taken.
#[inline(never)]
fn analyse_bits<C: Check, W: Write>(
    octets: &[u8],
    end: usize,
    run: &mut CaptureRun<Analyser<C>>,
    w: &mut W,
) -> Result<(), ToolFault>
    requires sound { IsSound (one_line_kind C.check) run.old }
    requires within { end ≤ 8 * length octets.now }
    ensures taken { (start : Option (List ℕ)) (b : List Bool) →
        FeedAfter (one_line_kind C.check) start (W.contents w.old) run.old b → MatchResult result
        (λ _. FeedAfter (one_line_kind C.check) start (W.contents w.new) run.new (b ++ bits_from octets.now 0 end))
        (λ fault. FeedStopsWith (one_line_kind C.check) start (W.contents w.new) run.new
        (b ++ bits_from octets.now 0 end) fault) }
    ensures same { IsSame (one_line_kind C.check) run.old run.new }
    ensures sound { IsSound (one_line_kind C.check) run.new }
{
    Analyser::<C>::laws();
    run.reporter.cut = None;
    let taken = run.analyser.scan(octets, 0, end, &mut run.reporter, w);
    run.reporter.scanned(taken, end)
}

/// Takes the next eight bits of a text, where eight octets give them or nine with one that is skipped. Returns how many
/// octets these were.
#[inline(always)]
fn analyse_eight<C: Check, W: Write>(
    text: &[u8],
    run: &mut CaptureRun<Analyser<C>>,
    w: &mut W,
) -> Result<usize, ToolFault>
    requires { IsSound (one_line_kind C.check) run.old }
    ensures enough { IfOk result (λ n. n ≤ length text.now) }
    ensures taken { (start : Option (List ℕ)) (xs : List ℕ) →
        OctetsAfter (one_line_kind C.check) start (W.contents w.old) run.old xs → MatchResult result
        (λ n. OctetsAfter (one_line_kind C.check) start (W.contents w.new) run.new (xs ++ take n text.now))
        (λ fault. (n : ℕ) × (n ≤ length text.now)
        × SourceStopsWith (one_line_kind C.check) true start (W.contents w.new) run.new (xs ++ take n text.now) fault) }
    ensures same { IsSame (one_line_kind C.check) run.old run.new }
    ensures sound { IsSound (one_line_kind C.check) run.new }
{
    Analyser::<C>::laws();
    let Some(eight) = TextBits::eight(text) else {
        return Ok(0);
    };
    analyse_bits(&[eight.octet], 8, run, w)?;
    Ok(eight.taken)
}

/// Packs the next octets of a text into a block of this size, and takes its bits. Returns how many octets these were.
#[inline(never)]
fn analyse_block<C: Check, W: Write, const N: usize>(
    text: &[u8],
    run: &mut CaptureRun<Analyser<C>>,
    w: &mut W,
) -> Result<usize, ToolFault>
    requires sound { IsSound (one_line_kind C.check) run.old }
    requires some { 1 ≤ N }
    requires few { 8 * N < 2 ^ 64 }
    ensures enough { IfOk result (λ n. n ≤ length text.now) }
    ensures taken { (start : Option (List ℕ)) (xs : List ℕ) →
        OctetsAfter (one_line_kind C.check) start (W.contents w.old) run.old xs → MatchResult result
        (λ n. OctetsAfter (one_line_kind C.check) start (W.contents w.new) run.new (xs ++ take n text.now))
        (λ fault. (n : ℕ) × (n ≤ length text.now)
        × SourceStopsWith (one_line_kind C.check) true start (W.contents w.new) run.new (xs ++ take n text.now) fault) }
    ensures same { IsSame (one_line_kind C.check) run.old run.new }
    ensures sound { IsSound (one_line_kind C.check) run.new }
{
    Analyser::<C>::laws();
    let mut block = [0; N];
    let packed = TextBits::pack(text, &mut block);
    analyse_bits(&block, packed.count, run, w)?;
    Ok(packed.taken)
}

impl<C: Check> CaptureKind for Analyser<C> {
    type Symbol = bool;

    type Received = bool;

    type Body = PackedBits;

    type Few = ArrayVec<bool, 8>;

    ghost kind = { one_line_kind C.check };

    fn new(
        alloc: Global,
        dictionary: Dictionary,
        depth: usize,
        origin: u64,
        _rest: u64,
    ) -> Result<Self, NewFault> {
        Analyser::new(alloc, dictionary, depth, origin)
    }

    fn put_ending(&self, printer: &Printer, page: &mut Page) {
        printer.put_ending(&self.ending(), page);
    }

    fn tally(&self, station: u8) -> Counts {
        Analyser::tally(self, station)
    }

    fn history_len(&self) -> usize {
        Analyser::history_len(self)
    }

    fn put_last<W: Write>(&self, i: usize, page: &mut Page, w: &mut W) -> Result<(), ShortWrite> {
        match self.history(i) {
            Some(kept) => put_kept(None, kept, page, w),
            None => Ok(()),
        }
    }

    #[inline(always)]
    fn mark(octet: u8) -> Result<Option<bool>, BadMark> {
        TextBits::new().step(octet)
    }

    fn read_head(head: &[u8; 16]) -> Result<PackedBits, HeadFault> {
        packed_is_head_and_body();
        Ok(PackedBits::new(PackedHead::read(head)?))
    }

    #[inline(always)]
    fn decode_octet(body: &mut PackedBits, octet: u8) -> Result<ArrayVec<bool, 8>, PackedFault> {
        packed_is_head_and_body();
        body.step(octet)
    }

    fn finish(body: &PackedBits) -> Result<(), PackedFault> {
        packed_is_head_and_body();
        body.finish()
    }

    #[inline(always)]
    fn analyse_symbol<W: Write>(
        symbol: bool,
        run: &mut CaptureRun<Self>,
        w: &mut W,
    ) -> Result<(), ToolFault> {
        analyse_bits(&[u8::from(symbol)], 1, run, w)
    }

    #[inline(always)]
    fn analyse_text<W: Write>(
        octets: &[u8],
        run: &mut CaptureRun<Self>,
        w: &mut W,
    ) -> Result<usize, ToolFault> {
        if octets.len() < 16 {
            return analyse_eight(octets, run, w);
        }
        // A short text does not pay for clearing a large block.
        if octets.len() < 1024 {
            return analyse_block::<C, W, 128>(octets, run, w);
        }
        analyse_block::<C, W, 8192>(octets, run, w)
    }

    #[inline(always)]
    fn analyse_packed<W: Write>(
        body: &mut PackedBits,
        octets: &[u8],
        run: &mut CaptureRun<Self>,
        w: &mut W,
    ) -> Result<usize, ToolFault> {
        packed_is_head_and_body();
        Self::laws();
        let count = body.whole(octets.len());
        let whole = &octets[..count];
        body.consume_octets(whole);
        analyse_bits(whole, 8 * whole.len(), run, w)?;
        Ok(count)
    }

    fn laws() {
        captures_grow();
        packed_is_head_and_body();
        seen_grows();
    }
}
