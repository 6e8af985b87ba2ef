//! The analyser: what is seen on a line, in fixed memory.

ghost use Rattle.std.specs.Prelude.{◌≡◌, ◌≢◌, ◌+◌, ◌-◌, ◌*◌, ◌≤◌, ◌<◌, ◌^◌, ◌↔◌, ◌⊎◌, List, Bool, [], ◌∷◌, ◌++◌, IsErr};
ghost use Rattle.std.specs.Prelude.{IfOk, OnErr, IsTrue, false, length, Some, Err, slice_get, option_copied, None, min};
ghost use Rattle.std.specs.Option.{option_map, option_to_list};
ghost use Rattle.std.specs.Borrow.{sem};
ghost use Rattle.std.specs.Io.BufRead.{Rests};
ghost use Rattle.bus_bits.specs.Limits.{most_places};
ghost use Rattle.bus_line.specs.Due.{begun};
ghost use Rattle.bus_line.specs.Ledger.{stored_open};
ghost use Rattle.bus_bits.specs.Bits.{bits_from};
ghost use Rattle.bus_dictionary.specs.Dictionary.{longest_of};

use crate::decode::{begun_span, decode_bit, lent, observe_bits};
use crate::fault::NewFault;
use crate::feed::PLACES;
use crate::laws::{seen_grows, steps_are_bounded};
use crate::observer::ReportObserver;
use bus_bits::Spent;
use bus_dictionary::Dictionary;
use bus_fcs::Check;
use bus_line::laws::settled_places;
use bus_line::{LineDecoder, LineFault, PlaceLimit};
use bus_pairing::{Conversation, Counts, Ending, Kept, Seen, SeenEvent};
use std::alloc::Global;
use std::cmp::min;
use std::marker::Model;

/// Watches one line: finds its frames and all other reports, pairs commands with answers,
/// and keeps the last frames.
///
/// It takes memory once, for the history, when it is made.
#[derive(Drop)]
pub struct Analyser<C: Check> {
    pub(crate) decoder: LineDecoder<C>,
    conversation: Conversation,
}

impl<C: Check> Model for Analyser<C> {
    ghost use Rattle.bus_watch.specs.After.{AnalyserState};

    ghost Value = { AnalyserState C };

    ghost use Rattle.bus_watch.specs.Internal.AnalyserView.{analyser_state, IsWithin};

    ghost view = { analyser_state };

    ghost invariant = { IsWithin C.check };
}

impl<C: Check> Analyser<C> {
    ghost use Rattle.bus_watch.specs.contracts.analyser.Analyser.{the_row};
    ghost use Rattle.bus_watch.specs.After.{IsAfter, AdvancesAnalyser, line_reports, one_line};
    ghost use Rattle.bus_watch.specs.Watch.{AdvancesWatchShown};
    ghost use Rattle.bus_pairing.specs.Seen.{seen_at};
    ghost use Rattle.bus_pairing.specs.Shown.{shown_option, found, kept_option, begun_span, IsKeepable};
    ghost use Rattle.bus_pairing.specs.History.{history, tally};
    ghost use Rattle.bus_pairing.specs.Talk.{pending};
    ghost use Rattle.bus_pairing.specs.Ledger.{IsAnalyserLedger, total};

    /// An analyser that took no bit, whose first bit has the place `origin`.
    ///
    /// `depth` is how many frames the history keeps, 1 to 1024. `origin` is at most 2^60.
    ///
    /// # Errors
    ///
    /// `DepthRange` and `Origin` where these are out of range, `Memory` where memory was refused. The
    /// dictionary is dropped then.
    pub fn new(
        alloc: Global,
        dictionary: Dictionary,
        depth: usize,
        origin: u64,
    ) -> Result<Self, NewFault>
        ensures depth { (result ≡ Err NewFault.DepthRange) ↔ ((depth < 1) ⊎ (1024 < depth)) }
        ensures origin { (result ≡ Err NewFault.Origin) ↔ ((1 ≤ depth) × (depth ≤ 1024) × (most_places < origin)) }
        ensures is_after { IfOk result (λ a. IsAfter C.check a []) }
        ensures given { IfOk result
            (λ a. (a.conversation.dictionary ≡ dictionary) × (a.conversation.depth ≡ depth)
            × (a.decoder.origin ≡ origin)
            × (a.decoder.place ≡ origin)) }
    {
        if depth < 1 || depth > 1024 {
            return Err(NewFault::DepthRange);
        }
        let decoder = match LineDecoder::new(dictionary.longest(), origin) {
            Ok(decoder) => decoder,
            Err(LineFault::Origin) => return Err(NewFault::Origin),
            Err(LineFault::LongestRange) => unreachable!(),
        };
        match Conversation::new(alloc, dictionary, depth) {
            Ok(conversation) => Ok(Analyser {
                decoder,
                conversation,
            }),
            Err(_) => Err(NewFault::Memory),
        }
    }

    /// Takes bits of these octets, the least significant of each first, from bit `from` on and before bit `end`. The
    /// observer is shown all that is seen at them, one report after another. Returns how many bits it took: it stops in
    /// front of one whose place would be 2^60.
    pub fn scan<X, L: ReportObserver<X>>(
        &mut self,
        octets: &[u8],
        from: usize,
        end: usize,
        observer: &mut L,
        out: &mut X,
    ) -> usize
        requires some { from ≤ end }
        requires enough { end ≤ 8 * length octets.now }
        requires room { L.has_room observer.old (min (end - from) (most_places - self.old.decoder.place)) }
        ensures taken { result ≡ min (end - from) (most_places - self.old.decoder.place) }
        ensures told { AdvancesWatchShown (one_line C.check) self.old (bits_from octets.now from result) self.new
            (λ ss. L.observes self.old.conversation.dictionary observer.old out.old ss observer.new out.new) }
    {
        settled_places();
        let places = PLACES - self.place();
        let count = min((end - from) as u64, places) as usize;
        observe_bits(
            &mut self.decoder,
            &mut self.conversation,
            None,
            octets,
            from,
            from + count,
            observer,
            out,
        );
        count
    }

    /// Takes a bit; what the report that it decides is found to be, if it decides one.
    #[inline(always)]
    pub(crate) fn advance(&mut self, bit: bool) -> Result<Option<SeenEvent>, PlaceLimit>
        ensures limit { IsErr result ↔ (most_places ≤ self.old.decoder.place) }
        ensures sees { IfOk result (λ seen_event. AdvancesAnalyser C.check self.old (bit ∷ [])
            (option_to_list (option_map (found self.new.decoder.octets) seen_event)) self.new) }
        ensures unchanged { OnErr result (self.new ≡ self.old) }
    {
        settled_places();
        // The `?` parts the two cases for the proof.
        let seen_event = decode_bit(&mut self.decoder, &mut self.conversation, None, bit)?;
        Ok(seen_event)
    }

    /// Takes a bit, and returns what is seen at it, if it decides a report. A frame's octets are
    /// borrowed from the analyser.
    ///
    /// Refuses as [`PlaceLimit`], with nothing changed, where the bit's place would be 2^60.
    pub fn push(&mut self, bit: bool) -> Result<Option<Seen<'_>>, PlaceLimit>
        ensures limit { IsErr result ↔ (most_places ≤ self.old.decoder.place) }
        ensures answer { IfOk result (λ o. (b : List Bool) → IsAfter C.check self.old b →
            shown_option o ≡ seen_at self.old.conversation.dictionary
            (line_reports self.old (b ++ bit ∷ [])) self.old.decoder.place) }
        ensures fits { IfOk result IsKeepable }
        // What becomes of the analyser: `new`, once the octets that are lent have been given back.
        ensures* rests { sem 𝓛 (Rests (the_row C.row C.Check) self.entry (λ new.
            IfOk result (λ o. AdvancesAnalyser C.check self.old (bit ∷ []) (option_to_list (shown_option o)) new)
            × OnErr result (new ≡ self.old))) }
    {
        seen_grows();
        let seen_event = self.advance(bit)?;
        Ok(lent(&self.decoder, seen_event))
    }

    /// A frame of the history, of which the oldest has the number 0.
    pub fn history(&self, i: usize) -> Option<&Kept>
        ensures lent { kept_option result ≡ slice_get self.now.conversation.history i }
        ensures value { (b : List Bool) → IsAfter C.check self.now b →
            kept_option result ≡ slice_get (history self.now.conversation.depth (line_reports self.now b)) i }
    {
        match self.conversation.kept(i) {
            Some(kept) => Some(kept.frame()),
            None => None,
        }
    }

    /// How many frames the history has: at most its depth, which is at most 1024.
    pub fn history_len(&self) -> usize
        ensures value { (b : List Bool) → IsAfter C.check self.now b →
            result ≡ length (history self.now.conversation.depth (line_reports self.now b)) }
        ensures depth { result ≤ self.now.conversation.depth }
        ensures bound { self.now.conversation.depth ≤ 1024 }
    {
        self.conversation.kept_len()
    }

    /// How many verdicts named a station.
    pub fn tally(&self, station: u8) -> Counts
        ensures { (b : List Bool) → IsAfter C.check self.now b →
            result ≡ tally self.now.conversation.dictionary (line_reports self.now b) station }
    {
        self.conversation.counts(station)
    }

    /// What has begun and is not decided yet.
    pub fn ending(&self) -> Ending
        ensures begun { (b : List Bool) → IsAfter C.check self.now b →
            result.begun ≡ begun_span self.now.decoder.origin b }
        ensures pending { (b : List Bool) → IsAfter C.check self.now b →
            result.pending ≡ pending self.now.conversation.dictionary (line_reports self.now b) }
    {
        Ending {
            begun: begun_span(&self.decoder),
            pending: self.conversation.pending(),
        }
    }

    /// The dictionary that was handed in.
    pub fn dictionary(&self) -> &Dictionary
        ensures { result.now ≡ self.now.conversation.dictionary }
    {
        self.conversation.dictionary()
    }

    /// How many octets of the open piece are in the frame buffer: at most the dictionary's longest
    /// frame and two, and 0 where no piece is open.
    pub fn buffered(&self) -> usize
        ensures bound { result ≤ longest_of self.now.conversation.dictionary + 2 }
        ensures stored { (b : List Bool) → IsAfter C.check self.now b →
            result ≡ stored_open (longest_of self.now.conversation.dictionary) b }
    {
        self.decoder.buffered()
    }

    /// The steps so far: those of the ledger of the bits, at most seventeen for each.
    ///
    /// A bit is taken and settles at most one other; an octet is stored and folded, at up to eight
    /// units, once for eight bits, and copied once at most; and a frame's six steps come once for
    /// forty bits, the three of any other report once for eight. So all come to at most four for each
    /// bit, and to at most three with a check that costs one.
    pub fn spent(&self) -> Spent
        ensures ledger { (b : List Bool) → IsAfter C.check self.now b →
            IsAnalyserLedger C.check.cost (longest_of self.now.conversation.dictionary) b result }
        ensures seventeen { (b : List Bool) → IsAfter C.check self.now b → total result ≤ 17 * length b }
        ensures four { (b : List Bool) → IsAfter C.check self.now b → total result ≤ 4 * length b }
        ensures three { C.check.cost ≡ 1 → (b : List Bool) → IsAfter C.check self.now b →
            (result.folded ≡ result.stored) × (total result ≤ 3 * length b) }
    {
        steps_are_bounded();
        let conversation = self.conversation.spent();
        Spent {
            copied: conversation.copied,
            handled: conversation.handled,
            ..self.decoder.spent()
        }
    }

    /// The place of the next bit: the origin and the bits so far.
    pub(crate) fn place(&self) -> u64
        ensures value { result ≡ self.now.decoder.place }
        ensures fits { result ≤ most_places }
    {
        self.decoder.place()
    }
}
