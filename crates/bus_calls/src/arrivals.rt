//! Captures of two lines with a clock each.

ghost use Rattle.std.specs.Prelude.{◌≡◌, ◌≤◌, ◌<◌, ◌-◌, ◌*◌, ℕ, Bool, List, Option, ◌++◌, length, zip, MatchResult};
ghost use Rattle.std.specs.Prelude.{IfOk};
ghost use Rattle.bus_bits.specs.Bits.{bits_from};
ghost use Rattle.bus_calls.specs.Internal.Arrivals.{arrivals_kind};
ghost use Rattle.bus_calls.specs.Internal.Watching.{FeedAfter, FeedStopsWith, WatchStopsWith, IsSame, IsSound};
ghost use Rattle.bus_calls.specs.Internal.Watching.{WatchAfter};
ghost use Rattle.bus_tap.specs.Arrival.{Arrival, arrivals_from};

use crate::capture_kind::CaptureKind;
use crate::run::CaptureRun;
use arrayvec::ArrayVec;
use bus_clocks::laws::arrivals_are;
use bus_clocks::{Arrival, TwoClockAnalyser};
use bus_dictionary::Dictionary;
use bus_fcs::Check;
use bus_formats::laws::{arrival_captures_grow, arrivals_are_head_and_body};
use bus_formats::{ArrivalHead, BadMark, HeadFault, PackedFault, PackedPairs, TextArrivals};
use bus_tap::RestRule;
use bus_text::{Page, Printer, ShortWrite, ToolFault, put_kept};
use bus_watch::laws::seen_grows;
use bus_watch::{Counts, NewFault};
use std::alloc::Global;
use std::cmp::min;
use std::io::Write;

/// How many octets hold the arrivals that are taken at once, and as many their lines.
const BLOCK: usize = 128;

/// The bits that bring the second line to rest, and their lines.
const REST: [u8; 2] = [0xff; 2];

/// An analyser of two lines with a clock each, behind the rule of rest.
#[derive(Drop)]
pub struct ClockAnalyser<C: Check> {
    pub analyser: TwoClockAnalyser<C>,
    pub rest: RestRule,
}

/// Takes the arrivals of these octets, from one on and before another, and tells what is seen at them.
fn analyse_arrivals<C: Check, W: Write>(
    bits: &[u8],
    lines: &[u8],
    from: usize,
    end: usize,
    run: &mut CaptureRun<ClockAnalyser<C>>,
    w: &mut W,
) -> Result<(), ToolFault>
    requires sound { IsSound (arrivals_kind C.check) run.old }
    requires some { from ≤ end }
    requires enough { (end ≤ 8 * length bits.now) × (end ≤ 8 * length lines.now) }
    ensures taken { (start : Option (List ℕ)) (b : List Arrival) →
        WatchAfter (arrivals_kind C.check) start (W.contents w.old) run.old b → MatchResult result
        (λ _. WatchAfter (arrivals_kind C.check) start (W.contents w.new) run.new
        (b ++ arrivals_from bits.now lines.now from (end - from)))
        (λ fault. WatchStopsWith (arrivals_kind C.check) start (W.contents w.new) run.new
        (b ++ arrivals_from bits.now lines.now from (end - from)) fault) }
    ensures rule { run.new.analyser.rest ≡ run.old.analyser.rest }
    ensures same { IsSame (arrivals_kind C.check) run.old run.new }
    ensures sound { IsSound (arrivals_kind C.check) run.new }
{
    ClockAnalyser::<C>::laws();
    run.reporter.cut = None;
    let taken = run
        .analyser
        .analyser
        .scan(bits, lines, from, end, &mut run.reporter, w);
    run.reporter.scanned(taken, end - from)
}

/// Takes symbols of these octets, from one on and before another, at least one, with the 1s that bring the second line
/// to rest right after them. Returns how many were taken.
fn analyse_some<C: Check, W: Write>(
    bits: &[u8],
    lines: &[u8],
    from: usize,
    end: usize,
    run: &mut CaptureRun<ClockAnalyser<C>>,
    w: &mut W,
) -> Result<usize, ToolFault>
    requires sound { IsSound (arrivals_kind C.check) run.old }
    requires some { from < end }
    requires enough { (end ≤ 8 * length bits.now) × (end ≤ 8 * length lines.now) }
    ensures taken { (start : Option (List ℕ)) (b : List (Bool × Bool)) →
        FeedAfter (arrivals_kind C.check) start (W.contents w.old) run.old b → MatchResult result
        (λ n. FeedAfter (arrivals_kind C.check) start (W.contents w.new) run.new
        (b ++ zip (bits_from bits.now from n) (bits_from lines.now from n)))
        (λ fault. FeedStopsWith (arrivals_kind C.check) start (W.contents w.new) run.new
        (b ++ zip (bits_from bits.now from (end - from)) (bits_from lines.now from (end - from))) fault) }
    ensures within { IfOk result (λ n. (1 ≤ n) × (n ≤ end - from)) }
    ensures same { IsSame (arrivals_kind C.check) run.old run.new }
    ensures sound { IsSound (arrivals_kind C.check) run.new }
{
    ClockAnalyser::<C>::laws();
    let (count, comes) = run.analyser.rest.push_some(bits, lines, from, end);
    analyse_arrivals(bits, lines, from, from + count, run, w)?;
    if comes {
        analyse_arrivals(&REST, &REST, 0, 15, run, w)?;
    }
    Ok(count)
}

/// Takes so many symbols of these octets, with the 1s that bring the second line to rest among them.
fn analyse_rested<C: Check, W: Write>(
    bits: &[u8],
    lines: &[u8],
    count: usize,
    run: &mut CaptureRun<ClockAnalyser<C>>,
    w: &mut W,
) -> Result<(), ToolFault>
    requires sound { IsSound (arrivals_kind C.check) run.old }
    requires enough { (count ≤ 8 * length bits.now) × (count ≤ 8 * length lines.now) }
    ensures taken { (start : Option (List ℕ)) (b : List (Bool × Bool)) →
        FeedAfter (arrivals_kind C.check) start (W.contents w.old) run.old b → MatchResult result
        (λ _. FeedAfter (arrivals_kind C.check) start (W.contents w.new) run.new
        (b ++ zip (bits_from bits.now 0 count) (bits_from lines.now 0 count)))
        (λ fault. FeedStopsWith (arrivals_kind C.check) start (W.contents w.new) run.new
        (b ++ zip (bits_from bits.now 0 count) (bits_from lines.now 0 count)) fault) }
    ensures same { IsSame (arrivals_kind C.check) run.old run.new }
    ensures sound { IsSound (arrivals_kind C.check) run.new }
{
    ClockAnalyser::<C>::laws();
    let mut taken = 0;
    while taken < count {
        taken += analyse_some(bits, lines, taken, count, run, w)?;
    }
    Ok(())
}

impl<C: Check> CaptureKind for ClockAnalyser<C> {
    /// A bit, and whether it is one of the second line.
    type Symbol = (bool, bool);

    type Received = Arrival;

    type Body = PackedPairs;

    type Few = ArrayVec<(bool, bool), 4>;

    ghost kind = { arrivals_kind C.check };

    fn new(
        alloc: Global,
        dictionary: Dictionary,
        depth: usize,
        origin: u64,
        rest: u64,
    ) -> Result<Self, NewFault> {
        Ok(ClockAnalyser {
            analyser: TwoClockAnalyser::new(alloc, dictionary, depth, origin)?,
            rest: RestRule::new(rest),
        })
    }

    fn put_ending(&self, printer: &Printer, page: &mut Page) {
        printer.put_pair_ending(&self.analyser.ending(), page);
    }

    fn tally(&self, station: u8) -> Counts {
        self.analyser.tally(station)
    }

    fn history_len(&self) -> usize {
        self.analyser.history_len()
    }

    fn put_last<W: Write>(&self, i: usize, page: &mut Page, w: &mut W) -> Result<(), ShortWrite> {
        match self.analyser.history(i) {
            Some(kept) => put_kept(Some(kept.line), &kept.kept, page, w),
            None => Ok(()),
        }
    }

    fn mark(octet: u8) -> Result<Option<(bool, bool)>, BadMark> {
        TextArrivals::new().step(octet)
    }

    fn read_head(head: &[u8; 16]) -> Result<PackedPairs, HeadFault> {
        arrivals_are_head_and_body();
        Ok(PackedPairs::of_arrivals(ArrivalHead::read(head)?))
    }

    fn decode_octet(
        body: &mut PackedPairs,
        octet: u8,
    ) -> Result<ArrayVec<(bool, bool), 4>, PackedFault> {
        arrivals_are_head_and_body();
        body.step(octet)
    }

    fn finish(body: &PackedPairs) -> Result<(), PackedFault> {
        arrivals_are_head_and_body();
        body.finish()
    }

    fn analyse_symbol<W: Write>(
        symbol: (bool, bool),
        run: &mut CaptureRun<Self>,
        w: &mut W,
    ) -> Result<(), ToolFault> {
        let (bit, is_second) = symbol;
        analyse_rested(&[u8::from(bit)], &[u8::from(is_second)], 1, run, w)
    }

    fn analyse_text<W: Write>(
        octets: &[u8],
        run: &mut CaptureRun<Self>,
        w: &mut W,
    ) -> Result<usize, ToolFault> {
        Self::laws();
        // Fewer octets are not looked at together, and do not pay for clearing the blocks.
        if octets.len() < 32 {
            return Ok(0);
        }
        let mut bits = [0; BLOCK];
        let mut lines = [0; BLOCK];
        let block = TextArrivals::part(octets, &mut bits, &mut lines);
        analyse_rested(&bits, &lines, block.count, run, w)?;
        Ok(block.taken)
    }

    fn analyse_packed<W: Write>(
        body: &mut PackedPairs,
        octets: &[u8],
        run: &mut CaptureRun<Self>,
        w: &mut W,
    ) -> Result<usize, ToolFault> {
        arrivals_are_head_and_body();
        Self::laws();
        let count = body.whole(min(octets.len(), 2 * BLOCK));
        if count == 0 {
            return Ok(0);
        }
        let whole = &octets[..count];
        let mut bits = [0; BLOCK];
        let mut lines = [0; BLOCK];
        body.unpack_octets(whole, &mut bits, &mut lines);
        analyse_rested(&bits, &lines, 4 * whole.len(), run, w)?;
        Ok(count)
    }

    fn laws() {
        arrival_captures_grow();
        arrivals_are_head_and_body();
        arrivals_are();
        seen_grows();
    }
}
