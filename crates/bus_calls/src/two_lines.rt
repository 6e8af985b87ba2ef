//! Captures of two lines.

ghost use Rattle.std.specs.Prelude.{◌≡◌, ◌+◌, ◌*◌, ◌≤◌, ◌<◌, ◌^◌, ℕ, Bool, List, Option, ◌++◌, length, MatchResult};
ghost use Rattle.std.specs.Prelude.{zip};
ghost use Rattle.bus_bits.specs.Bits.{bits_from};
ghost use Rattle.bus_calls.specs.Internal.TwoLines.{two_line_kind};
ghost use Rattle.bus_calls.specs.Internal.Watching.{FeedStopsWith, FeedAfter, IsSame, IsSound};
ghost use Rattle.bus_text.specs.Counting.{IsFew};
ghost use Rattle.bus_text.specs.Advances.{AdvancesPage};
ghost use Rattle.bus_text.specs.Pages.{HasRoomFor};
ghost use Rattle.bus_text.specs.Listing.{listing};
ghost use Rattle.bus_text.specs.Summary.{summary_of};
ghost use Rattle.bus_pairing.specs.Seen.{SeenReport};
ghost use Rattle.std.specs.Option.{option_to_list};

use crate::capture_kind::CaptureKind;
use crate::run::CaptureRun;
use arrayvec::ArrayVec;
use bus_dictionary::Dictionary;
use bus_fcs::Check;
use bus_formats::laws::{pair_captures_grow, pairs_are_head_and_body};
use bus_formats::{BadMark, HeadFault, PackedFault, PackedPairs, PairHead, PairWords, TextPairs};
use bus_line::PlaceLimit;
use bus_text::{Page, Printer, ShortWrite, Summary, ToolFault, put_kept};
use bus_watch::laws::pairs_grow;
use bus_watch::{Counts, Line, NewFault, PairAnalyser};
use std::alloc::Global;
use std::cmp::min;
use std::io::Write;

/// How many octets of either line are taken at once.
const BLOCK: usize = 1024;

/// Takes pairs of bits of these octets, the first so many, and tells what is seen at them.
#[inline(never)]
fn analyse_pairs<C: Check, W: Write>(
    first: &[u8],
    second: &[u8],
    count: usize,
    run: &mut CaptureRun<PairAnalyser<C>>,
    w: &mut W,
) -> Result<(), ToolFault>
    requires sound { IsSound (two_line_kind C.check) run.old }
    requires enough { (count ≤ 8 * length first.now) × (count ≤ 8 * length second.now) }
    ensures taken { (start : Option (List ℕ)) (b : List (Bool × Bool)) →
        FeedAfter (two_line_kind C.check) start (W.contents w.old) run.old b → MatchResult result
        (λ _. FeedAfter (two_line_kind C.check) start (W.contents w.new) run.new
        (b ++ zip (bits_from first.now 0 count) (bits_from second.now 0 count)))
        (λ fault. FeedStopsWith (two_line_kind C.check) start (W.contents w.new) run.new
        (b ++ zip (bits_from first.now 0 count) (bits_from second.now 0 count)) fault) }
    ensures same { IsSame (two_line_kind C.check) run.old run.new }
    ensures sound { IsSound (two_line_kind C.check) run.new }
{
    PairAnalyser::<C>::laws();
    run.reporter.cut = None;
    let taken = run
        .analyser
        .scan(first, second, count, &mut run.reporter, w);
    run.reporter.scanned(taken, count)
}

impl<C: Check> CaptureKind for PairAnalyser<C> {
    type Symbol = (bool, bool);

    type Received = (bool, bool);

    type Body = PackedPairs;

    type Few = ArrayVec<(bool, bool), 4>;

    ghost kind = { two_line_kind C.check };

    fn new(
        alloc: Global,
        dictionary: Dictionary,
        depth: usize,
        origin: u64,
        _rest: u64,
    ) -> Result<Self, NewFault> {
        PairAnalyser::new(alloc, dictionary, depth, origin)
    }

    fn put_ending(&self, printer: &Printer, page: &mut Page) {
        printer.put_pair_ending(&self.ending(), page);
    }

    fn tally(&self, station: u8) -> Counts {
        PairAnalyser::tally(self, station)
    }

    fn history_len(&self) -> usize {
        PairAnalyser::history_len(self)
    }

    fn put_last<W: Write>(&self, i: usize, page: &mut Page, w: &mut W) -> Result<(), ShortWrite> {
        match self.history(i) {
            Some(kept) => put_kept(Some(kept.line), &kept.kept, page, w),
            None => Ok(()),
        }
    }

    #[inline(always)]
    fn mark(octet: u8) -> Result<Option<(bool, bool)>, BadMark> {
        TextPairs::new().step(octet)
    }

    fn read_head(head: &[u8; 16]) -> Result<PackedPairs, HeadFault> {
        pairs_are_head_and_body();
        Ok(PackedPairs::new(PairHead::read(head)?))
    }

    #[inline(always)]
    fn decode_octet(
        body: &mut PackedPairs,
        octet: u8,
    ) -> Result<ArrayVec<(bool, bool), 4>, PackedFault> {
        pairs_are_head_and_body();
        body.step(octet)
    }

    fn finish(body: &PackedPairs) -> Result<(), PackedFault> {
        pairs_are_head_and_body();
        body.finish()
    }

    #[inline(always)]
    fn analyse_symbol<W: Write>(
        symbol: (bool, bool),
        run: &mut CaptureRun<Self>,
        w: &mut W,
    ) -> Result<(), ToolFault> {
        let (first, second) = symbol;
        analyse_pairs(&[u8::from(first)], &[u8::from(second)], 1, run, w)
    }

    #[inline(always)]
    fn analyse_text<W: Write>(
        octets: &[u8],
        run: &mut CaptureRun<Self>,
        w: &mut W,
    ) -> Result<usize, ToolFault> {
        Self::laws();
        // Fewer octets fill no octet of a line, and do not pay for clearing the blocks.
        if octets.len() < 8 {
            return Ok(0);
        }
        let mut first = [0; BLOCK];
        let mut second = [0; BLOCK];
        let next = TextPairs::part(octets, &mut first, &mut second);
        analyse_pairs(&first, &second, 8 * next.filled, run, w)?;
        Ok(next.taken)
    }

    #[inline(always)]
    fn analyse_packed<W: Write>(
        body: &mut PackedPairs,
        octets: &[u8],
        run: &mut CaptureRun<Self>,
        w: &mut W,
    ) -> Result<usize, ToolFault> {
        pairs_are_head_and_body();
        Self::laws();
        let count = body.whole(min(octets.len(), 2 * BLOCK));
        if count == 0 {
            return Ok(0);
        }
        let whole = &octets[..count];
        let mut first = [0; BLOCK];
        let mut second = [0; BLOCK];
        body.unpack_octets(whole, &mut first, &mut second);
        analyse_pairs(&first, &second, 4 * whole.len(), run, w)?;
        Ok(count)
    }

    fn laws() {
        pair_captures_grow();
        pairs_are_head_and_body();
        pairs_grow();
    }
}
