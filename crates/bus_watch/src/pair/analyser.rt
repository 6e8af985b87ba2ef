//! The analyser of two lines: what is seen on both, in fixed memory.

ghost use Rattle.std.specs.Prelude.{◌≡◌, ◌+◌, ◌-◌, ◌*◌, ◌≤◌, ◌<◌, ◌^◌, ◌↔◌, ◌⊎◌, List, Bool, [], ◌∷◌, ◌++◌, IsErr};
ghost use Rattle.std.specs.Prelude.{IfOk, OnErr, length, Err, slice_get};
ghost use Rattle.std.specs.Borrow.{sem};
ghost use Rattle.std.specs.Io.BufRead.{Rests};
ghost use Rattle.bus_bits.specs.Limits.{most_places};
ghost use Rattle.bus_dictionary.specs.Dictionary.{longest_of};
ghost use Rattle.bus_pairing.specs.Shown.{begun_span, IsKeepable};

mod scan;

use crate::decode::{begun_span, decode_bit, lent};
use crate::fault::NewFault;
use crate::laws::{pairs_grow, steps_are_bounded};
use crate::pair::seen::PairSeen;
use bus_bits::Spent;
use bus_dictionary::Dictionary;
use bus_fcs::Check;
use bus_line::laws::{reports_grow, settled_places};
use bus_line::{LineDecoder, LineFault, PlaceLimit};
use bus_pairing::{Conversation, Counts, Line, PairEnding, PairKept, SeenEvent};
use std::alloc::Global;
use std::marker::Model;

/// Watches two lines that one clock recorded: on the first commands wait, on the second they are
/// answered. It finds the frames of both and all other reports, pairs commands with answers, and keeps
/// the last frames.
///
/// It takes memory once, for the history, when it is made.
#[derive(Drop)]
pub struct PairAnalyser<C: Check> {
    first: LineDecoder<C>,
    second: LineDecoder<C>,
    conversation: Conversation,
}

/// What a pair of bits decided on either line, without the octets of frames.
#[derive(Clone, Copy)]
pub(crate) struct PairFound {
    pub(crate) first: Option<SeenEvent>,
    pub(crate) second: Option<SeenEvent>,
}

impl<C: Check> Model for PairAnalyser<C> {
    ghost use Rattle.bus_watch.specs.Pairs.{PairState};

    ghost Value = { PairState C };

    ghost use Rattle.bus_watch.specs.Internal.PairView.{pair_state, IsWithin};

    ghost view = { pair_state };

    ghost invariant = { IsWithin C.check };
}

impl<C: Check> PairAnalyser<C> {
    ghost use Rattle.bus_watch.specs.contracts.pair.analyser.PairAnalyser.{the_row};
    ghost use Rattle.bus_watch.specs.Pairs.{IsAfterPairs, AdvancesPairs, pair_reports};
    ghost use Rattle.bus_pairing.specs.Seen.{all_seen_at};
    ghost use Rattle.bus_pairing.specs.Shown.{kept_pair_option};
    ghost use Rattle.bus_watch.specs.PairShown.{seen_of_pair, shown_pair};
    ghost use Rattle.bus_pairing.specs.History.{history, tally};
    ghost use Rattle.bus_pairing.specs.Ledger.{IsPairLedger, total};
    ghost use Rattle.bus_pairing.specs.Talk.{pending};
    ghost use Rattle.bus_line.specs.LineReport.{firsts, seconds, bits_on};
    ghost use Rattle.bus_line.specs.Ledger.{stored_open};

    /// An analyser that took no pair of bits, whose first pair has the place `origin`.
    ///
    /// `depth` is how many frames the history keeps, 1 to 1024. `origin` is at most 2^60.
    ///
    /// # Errors
    ///
    /// `DepthRange` and `Origin` where these are out of range, `Memory` where memory was refused. The
    /// dictionary is dropped then.
    pub fn new(
        alloc: Global,
        dictionary: Dictionary,
        depth: usize,
        origin: u64,
    ) -> Result<Self, NewFault>
        ensures depth { (result ≡ Err NewFault.DepthRange) ↔ ((depth < 1) ⊎ (1024 < depth)) }
        ensures origin { (result ≡ Err NewFault.Origin) ↔ ((1 ≤ depth) × (depth ≤ 1024) × (most_places < origin)) }
        ensures is_after { IfOk result (λ a. IsAfterPairs C.check a []) }
        ensures given { IfOk result
            (λ a. (a.conversation.dictionary ≡ dictionary) × (a.conversation.depth ≡ depth) × (a.first.origin ≡ origin)
            × (a.first.place ≡ origin)) }
    {
        if depth < 1 || depth > 1024 {
            return Err(NewFault::DepthRange);
        }
        let longest = dictionary.longest();
        let first = match LineDecoder::new(longest, origin) {
            Ok(decoder) => decoder,
            Err(LineFault::Origin) => return Err(NewFault::Origin),
            Err(LineFault::LongestRange) => unreachable!(),
        };
        let second = match LineDecoder::new(longest, origin) {
            Ok(decoder) => decoder,
            Err(_) => unreachable!(),
        };
        match Conversation::new(alloc, dictionary, depth) {
            Ok(conversation) => Ok(PairAnalyser {
                first,
                second,
                conversation,
            }),
            Err(_) => Err(NewFault::Memory),
        }
    }

    /// Takes a pair of bits; what the reports that it decides are found to be.
    pub(crate) fn advance(&mut self, first: bool, second: bool) -> Result<PairFound, PlaceLimit>
        ensures limit { IsErr result ↔ (most_places ≤ self.old.first.place) }
        ensures sees { IfOk result (λ found.
            AdvancesPairs C.check self.old ((first, second) ∷ []) (seen_of_pair self.new found) self.new) }
        ensures unchanged { OnErr result (self.new ≡ self.old) }
    {
        settled_places();
        reports_grow();
        let found_first = decode_bit(
            &mut self.first,
            &mut self.conversation,
            Some(Line::First),
            first,
        )?;
        let found_second = match decode_bit(
            &mut self.second,
            &mut self.conversation,
            Some(Line::Second),
            second,
        ) {
            Ok(seen_event) => seen_event,
            Err(PlaceLimit) => unreachable!(),
        };
        Ok(PairFound {
            first: found_first,
            second: found_second,
        })
    }

    /// Findings at a pair as they are handed out, with the octets of frames that the last pair closed.
    pub(crate) fn lent(&self, found: PairFound) -> PairSeen<'_>
        ensures shown { shown_pair result ≡ seen_of_pair self.now found }
        ensures first_fits { IsKeepable result.first }
        ensures second_fits { IsKeepable result.second }
    {
        PairSeen {
            first: lent(&self.first, found.first),
            second: lent(&self.second, found.second),
        }
    }

    /// Takes a pair of bits, and returns what is seen at it on each line. Frames' octets are borrowed from
    /// the analyser.
    ///
    /// Refuses as [`PlaceLimit`], with nothing changed, where the pair's place would be 2^60.
    pub fn push(&mut self, first: bool, second: bool) -> Result<PairSeen<'_>, PlaceLimit>
        ensures limit { IsErr result ↔ (most_places ≤ self.old.first.place) }
        ensures answer { IfOk result (λ o. (ps : List (Bool × Bool)) → IsAfterPairs C.check self.old ps →
            shown_pair o ≡ all_seen_at self.old.conversation.dictionary
            (pair_reports self.old (ps ++ (first, second) ∷ [])) self.old.first.place) }
        ensures fits { IfOk result (λ o. IsKeepable o.first × IsKeepable o.second) }
        // What becomes of the analyser: `new`, once the octets that are lent have been given back.
        ensures* rests { sem 𝓛 (Rests (the_row C.row C.Check) self.entry (λ new.
            IfOk result (λ o. AdvancesPairs C.check self.old ((first, second) ∷ []) (shown_pair o) new)
            × OnErr result (new ≡ self.old))) }
    {
        pairs_grow();
        let found = self.advance(first, second)?;
        Ok(self.lent(found))
    }

    /// A frame of the history, of which the oldest has the number 0.
    pub fn history(&self, i: usize) -> Option<&PairKept>
        ensures lent { kept_pair_option result ≡ slice_get self.now.conversation.history i }
        ensures value { (ps : List (Bool × Bool)) → IsAfterPairs C.check self.now ps →
            kept_pair_option result ≡ slice_get (history self.now.conversation.depth (pair_reports self.now ps)) i }
    {
        self.conversation.kept(i)
    }

    /// How many frames the history has: at most its depth, which is at most 1024.
    pub fn history_len(&self) -> usize
        ensures value { (ps : List (Bool × Bool)) → IsAfterPairs C.check self.now ps →
            result ≡ length (history self.now.conversation.depth (pair_reports self.now ps)) }
        ensures depth { result ≤ self.now.conversation.depth }
        ensures bound { self.now.conversation.depth ≤ 1024 }
    {
        self.conversation.kept_len()
    }

    /// How many verdicts named a station.
    pub fn tally(&self, station: u8) -> Counts
        ensures { (ps : List (Bool × Bool)) → IsAfterPairs C.check self.now ps →
            result ≡ tally self.now.conversation.dictionary (pair_reports self.now ps) station }
    {
        self.conversation.counts(station)
    }

    /// What has begun and is not decided yet.
    pub fn ending(&self) -> PairEnding
        ensures first { (ps : List (Bool × Bool)) → IsAfterPairs C.check self.now ps →
            result.first ≡ begun_span self.now.first.origin (firsts ps) }
        ensures second { (ps : List (Bool × Bool)) → IsAfterPairs C.check self.now ps →
            result.second ≡ begun_span self.now.first.origin (seconds ps) }
        ensures pending { (ps : List (Bool × Bool)) → IsAfterPairs C.check self.now ps →
            result.pending ≡ pending self.now.conversation.dictionary (pair_reports self.now ps) }
    {
        PairEnding {
            first: begun_span(&self.first),
            second: begun_span(&self.second),
            pending: self.conversation.pending(),
        }
    }

    /// The dictionary that was handed in.
    pub fn dictionary(&self) -> &Dictionary
        ensures { result.now ≡ self.now.conversation.dictionary }
    {
        self.conversation.dictionary()
    }

    /// How many octets of a line's open piece are in its frame buffer: at most the dictionary's longest
    /// frame and two, and 0 where no piece is open.
    pub fn buffered(&self, line: Line) -> usize
        ensures bound { result ≤ longest_of self.now.conversation.dictionary + 2 }
        ensures stored { (ps : List (Bool × Bool)) → IsAfterPairs C.check self.now ps →
            result ≡ stored_open (longest_of self.now.conversation.dictionary) (bits_on line ps) }
    {
        match line {
            Line::First => self.first.buffered(),
            Line::Second => self.second.buffered(),
        }
    }

    /// The steps so far: those of both lines' ledgers, added up, at most seventeen for each bit of either
    /// line; in fact at most four, and at most three with a check that costs one.
    pub fn spent(&self) -> Spent
        ensures ledger { (ps : List (Bool × Bool)) → IsAfterPairs C.check self.now ps →
            IsPairLedger C.check.cost (longest_of self.now.conversation.dictionary) ps result }
        ensures seventeen { (ps : List (Bool × Bool)) → IsAfterPairs C.check self.now ps →
            total result ≤ 17 * (2 * length ps) }
        ensures four { (ps : List (Bool × Bool)) → IsAfterPairs C.check self.now ps →
            total result ≤ 4 * (2 * length ps) }
        ensures three { C.check.cost ≡ 1 → (ps : List (Bool × Bool)) → IsAfterPairs C.check self.now ps →
            (result.folded ≡ result.stored) × (total result ≤ 3 * (2 * length ps)) }
    {
        steps_are_bounded();
        settled_places();
        // Called for its bound: no more than 2^60 places, so that no sum overflows.
        let _places = self.place();
        let first = self.first.spent();
        let second = self.second.spent();
        let conversation = self.conversation.spent();
        Spent {
            shifted: first.shifted + second.shifted,
            assembled: first.assembled + second.assembled,
            folded: first.folded + second.folded,
            stored: first.stored + second.stored,
            copied: conversation.copied,
            handled: conversation.handled,
        }
    }

    /// The place of the next pair: the origin and the pairs so far.
    pub(crate) fn place(&self) -> u64
        ensures value { result ≡ self.now.first.place }
        ensures fits { result ≤ most_places }
    {
        self.first.place()
    }
}
