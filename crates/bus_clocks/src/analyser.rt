//! The analyser of two lines with a clock each, bit by bit in the order of arrival, in fixed memory.

ghost use Rattle.std.specs.Prelude.{◌≡◌, ◌+◌, ◌*◌, ◌≤◌, ◌<◌, ◌↔◌, ◌⊎◌, List, Bool, [], ◌∷◌, ◌++◌, length};
ghost use Rattle.std.specs.Prelude.{slice_get, Option, Some, Err, IsErr, IfOk, OnOk, OnErr};
ghost use Rattle.bus_dictionary.specs.Dictionary.{longest_of};
ghost use Rattle.std.specs.Option.{option_map, option_to_list};
ghost use Rattle.std.specs.Borrow.{sem};
ghost use Rattle.std.specs.Io.BufRead.{Rests};
ghost use Rattle.bus_bits.specs.Limits.{most_places};
ghost use Rattle.bus_tap.specs.Arrival.{Arrival};
ghost use Rattle.bus_tap.specs.Lines.{OpensWith, DecodesBit};
ghost use Rattle.bus_clocks.specs.Internal.Pushes.{AdvancesConversationBy};
ghost use Rattle.bus_line.specs.Limits.{most_octets};
ghost use Rattle.bus_line.specs.Shown.{reported};
ghost use Rattle.bus_line.specs.After.{After};
ghost use Rattle.bus_pairing.specs.Conversation.{HasRoom, IsWhole};
ghost use Rattle.bus_pairing.specs.Shown.{begun_span};
ghost use Rattle.bus_watch.specs.Decodes.{line_reports_of, told_on};
ghost use Rattle.bus_line.specs.declared.line.Line.TheVariants.{First, Second};

use crate::laws::{any_cut_of_arrivals, arrivals_are};
use bus_bits::Spent;
use bus_dictionary::Dictionary;
use bus_fcs::Check;
use bus_line::laws::{frame_is_spelled, reports_are, reports_grow, settled_places};
use bus_line::{Event, LineDecoder, LineFault, PlaceLimit};
use bus_pairing::{Conversation, Counts, Line, PairEnding, PairKept, Seen, Span};
use bus_tap::BitPlaces;
use bus_watch::laws::{seen_grows, steps_are_bounded};
use bus_watch::{NewFault, PairUsage};
use std::alloc::Global;
use std::marker::Model;

/// Watches two lines with a clock each: on the first commands wait, on the second they are answered. It gets their bits
/// in the order of arrival, and decodes each line from its own bits.
///
/// The first line's bits number the places. A bit of the second line stands at the place of the last bit of the first
/// line before it, and at the origin if there is none. So does a report of the second line: from the place of its first
/// bit to past that of its last one.
///
/// It takes memory once, for the history, when it is made.
#[derive(Drop)]
pub struct TwoClockAnalyser<C: Check> {
    pub(crate) first: LineDecoder<C>,
    /// Its own bits are counted from 0.
    pub(crate) second: LineDecoder<C>,
    pub(crate) conversation: Conversation,
    pub(crate) places: BitPlaces,
}

impl<C: Check> Model for TwoClockAnalyser<C> {
    ghost use Rattle.bus_clocks.specs.Clocks.{ClockState};

    ghost Value = { ClockState C };

    ghost use Rattle.bus_clocks.specs.Internal.ClockView.{clock_state, IsWithin};

    ghost view = { clock_state };

    ghost invariant = { IsWithin C.check };
}

/// A decoder gets a bit. Returns what the bit decides, if anything.
fn decode<C: Check>(decoder: &mut LineDecoder<C>, bit: bool) -> Result<Option<Event>, PlaceLimit>
    ensures limit { IsErr result ↔ (most_places ≤ decoder.old.place) }
    ensures decodes { IfOk result (λ event. DecodesBit C.check decoder.old bit event decoder.new) }
    ensures unchanged { OnErr result (decoder.new ≡ decoder.old) }
{
    let event = decoder.advance(bit)?;
    Ok(event)
}

/// Whether a piece begins with a decoder's last bit, which has this number.
fn begins<C: Check>(decoder: &LineDecoder<C>, number: u64) -> bool
    ensures { OpensWith C.check decoder.now number result }
{
    match decoder.begun() {
        Some(first) => first == number,
        None => false,
    }
}

/// The piece that has begun on a line, up to the place of the next bit.
fn begun_span<C: Check>(decoder: &LineDecoder<C>) -> Option<Span>
    ensures { (b : List Bool) → After C.check decoder.now b → result ≡ begun_span decoder.now.origin b }
{
    let past = decoder.place();
    decoder.begun().map(|first| Span { first, past })
}

/// The conversation gets what a bit of a line decided, if anything; a frame has these octets. Returns whether there is
/// a report, which is then its last.
pub(crate) fn enter(
    conversation: &mut Conversation,
    line: Line,
    event: Option<Event>,
    octets: &[u8],
) -> bool
    requires whole { (e : Event) → event ≡ Some e → IsWhole e.kind octets.now }
    requires fits { length octets.now ≤ most_octets }
    requires room { HasRoom conversation.old }
    ensures { AdvancesConversationBy conversation.old (line_reports_of (Some line) (option_map
        (reported octets.now) event))
        (told_on (Some line) octets.now result conversation.new.last) conversation.new }
{
    match event {
        None => false,
        Some(event) => {
            conversation.add_report(Some(line), event, octets);
            true
        }
    }
}

impl<C: Check> TwoClockAnalyser<C> {
    ghost use Rattle.bus_clocks.specs.contracts.analyser.TwoClockAnalyser.{the_row};
    ghost use Rattle.bus_tap.specs.Arrival.{own};
    ghost use Rattle.bus_tap.specs.Arrival.{begun_places};
    ghost use Rattle.bus_clocks.specs.Clocks.{IsAfterArrivals, AdvancesArrivals, arrival_reports, seen_after_arrivals};
    ghost use Rattle.bus_clocks.specs.Clocks.{decoder_on};
    ghost use Rattle.bus_clocks.specs.Clocks.{CountsOn};
    ghost use Rattle.bus_watch.specs.PairShown.{shown_option_on};
    ghost use Rattle.bus_pairing.specs.Shown.{kept_pair_option, IsKeepable};
    ghost use Rattle.bus_pairing.specs.Talk.{pending};
    ghost use Rattle.bus_pairing.specs.History.{history, tally};
    ghost use Rattle.bus_line.specs.LineReport.{LineReport};
    ghost use Rattle.bus_pairing.specs.Ledger.{total};
    ghost use Rattle.bus_line.specs.Ledger.{stored_open};
    ghost use Rattle.bus_clocks.specs.Headline.{WholeClockRun};
    ghost use Rattle.bus_clocks.specs.Ledger.{IsClockLedger};

    /// An analyser before the first bit. The first bit of the first line has the place `origin`.
    ///
    /// `depth` is how many frames the history keeps, 1 to 1024. `origin` is at most 2^60.
    ///
    /// # Errors
    ///
    /// `DepthRange` and `Origin` where these are out of range, `Memory` where memory was refused. The
    /// dictionary is dropped then.
    pub fn new(
        alloc: Global,
        dictionary: Dictionary,
        depth: usize,
        origin: u64,
    ) -> Result<Self, NewFault>
        ensures depth { (result ≡ Err NewFault.DepthRange) ↔ ((depth < 1) ⊎ (1024 < depth)) }
        ensures origin { (result ≡ Err NewFault.Origin) ↔ ((1 ≤ depth) × (depth ≤ 1024) × (most_places < origin)) }
        ensures is_after { IfOk result (λ a. IsAfterArrivals C.check a []) }
        ensures given { IfOk result
            (λ a. (a.conversation.dictionary ≡ dictionary) × (a.conversation.depth ≡ depth)
            × (a.first.origin ≡ origin)) }
    {
        if depth < 1 || depth > 1024 {
            return Err(NewFault::DepthRange);
        }
        let longest = dictionary.longest();
        let first = match LineDecoder::new(longest, origin) {
            Ok(decoder) => decoder,
            Err(LineFault::Origin) => return Err(NewFault::Origin),
            Err(LineFault::LongestRange) => unreachable!(),
        };
        let second = match LineDecoder::new(longest, 0) {
            Ok(decoder) => decoder,
            Err(_) => unreachable!(),
        };
        match Conversation::new(alloc, dictionary, depth) {
            Ok(conversation) => Ok(TwoClockAnalyser {
                first,
                second,
                conversation,
                places: BitPlaces::new(origin),
            }),
            Err(_) => Err(NewFault::Memory),
        }
    }

    /// Pushes a bit that arrived on a line, and returns what is seen at it. A frame's octets are borrowed from the
    /// analyser.
    ///
    /// Refuses as [`PlaceLimit`], with nothing changed, where the line has no place for it: the bits of the first line
    /// have places below 2^60, and the second line takes 2^60 bits.
    pub fn push(&mut self, line: Line, bit: bool) -> Result<Option<Seen<'_>>, PlaceLimit>
        ensures limit { IsErr result ↔ (most_places ≤ (decoder_on self.old line).place) }
        ensures answer { IfOk result (λ o. (xs : List Arrival) → IsAfterArrivals C.check self.old xs →
            seen_after_arrivals self.old (xs ++ (line, bit) ∷ [])
            ≡ seen_after_arrivals self.old xs ++ option_to_list (shown_option_on line o)) }
        ensures fits { IfOk result IsKeepable }
        // What becomes of the analyser: `new`, once the octets that are lent have been given back.
        ensures* rests { sem 𝓛 (Rests (the_row C.row C.Check) self.entry (λ new.
            IfOk result (λ o. AdvancesArrivals C.check self.old ((line, bit) ∷ [])
            (option_to_list (shown_option_on line o)) new)
            × OnErr result (new ≡ self.old))) }
    {
        let is_decided = self.step(line, bit)?;
        Ok(self.lent(line, is_decided))
    }

    /// A bit of a line arrives. Returns whether it decides a report, which is then the conversation's last.
    pub(crate) fn step(&mut self, line: Line, bit: bool) -> Result<bool, PlaceLimit>
        ensures limit { IsErr result ↔ (most_places ≤ (decoder_on self.old line).place) }
        ensures sees { IfOk result (λ is. AdvancesArrivals C.check self.old ((line, bit) ∷ [])
            (option_to_list (told_on (Some line) (decoder_on self.new line).octets is self.new.conversation.last))
            self.new) }
        ensures counts { OnOk result (CountsOn self.old (line, bit) self.new) }
        ensures unchanged { OnErr result (self.new ≡ self.old) }
    {
        match line {
            Line::First => self.push_first(bit),
            Line::Second => self.push_second(bit),
        }
    }

    /// The last report, if the last bit of a line decided it, as it is handed out.
    pub(crate) fn lent(&self, line: Line, is_decided: bool) -> Option<Seen<'_>>
        ensures shown { shown_option_on line result
            ≡ told_on (Some line) (decoder_on self.now line).octets is_decided self.now.conversation.last }
        ensures fits { IsKeepable result }
    {
        if !is_decided {
            return None;
        }
        Some(self.conversation.last().with_octets(self.octets(line)))
    }

    /// A bit of the first line arrives. Returns whether it decides a report, which is then the conversation's last.
    fn push_first(&mut self, bit: bool) -> Result<bool, PlaceLimit>
        ensures limit { IsErr result ↔ (most_places ≤ self.old.first.place) }
        ensures sees { IfOk result (λ is. AdvancesArrivals C.check self.old ((First, bit) ∷ [])
            (option_to_list (told_on (Some First) self.new.first.octets is self.new.conversation.last)) self.new) }
        ensures counts { OnOk result (CountsOn self.old (First, bit) self.new) }
        ensures unchanged { OnErr result (self.new ≡ self.old) }
    {
        settled_places();
        reports_grow();
        reports_are();
        frame_is_spelled();
        arrivals_are();
        // Called for its bound.
        let _bits = self.second.place();
        let place = self.first.place();
        let event = decode(&mut self.first, bit)?;
        self.places.reach(place);
        let octets = self.first.octets();
        Ok(enter(&mut self.conversation, Line::First, event, octets))
    }

    /// A bit of the second line arrives. Returns whether it decides a report, which is then the conversation's last.
    fn push_second(&mut self, bit: bool) -> Result<bool, PlaceLimit>
        ensures limit { IsErr result ↔ (most_places ≤ self.old.second.place) }
        ensures sees { IfOk result (λ is. AdvancesArrivals C.check self.old ((Second, bit) ∷ [])
            (option_to_list (told_on (Some Second) self.new.second.octets is self.new.conversation.last)) self.new) }
        ensures counts { OnOk result (CountsOn self.old (Second, bit) self.new) }
        ensures unchanged { OnErr result (self.new ≡ self.old) }
    {
        settled_places();
        reports_grow();
        reports_are();
        frame_is_spelled();
        arrivals_are();
        // Called for its bound.
        let _place = self.first.place();
        let number = self.second.place();
        let event = decode(&mut self.second, bit)?;
        let opens = begins(&self.second, number);
        self.places.note(number, opens);
        let event = self.places.located_option(event);
        let octets = self.second.octets();
        Ok(enter(&mut self.conversation, Line::Second, event, octets))
    }

    /// The place of a line's next bit; on the second line its own bits are counted, from 0.
    pub(crate) fn place_on(&self, line: Line) -> u64
        ensures value { result ≡ (decoder_on self.now line).place }
        ensures fits { result ≤ most_places }
    {
        match line {
            Line::First => self.first.place(),
            Line::Second => self.second.place(),
        }
    }

    /// The octets of the frame that the last bit of a line closed. After any other bit they are not those of a frame.
    pub(crate) fn octets(&self, line: Line) -> &[u8]
        ensures value { result.now ≡ (decoder_on self.now line).octets }
        ensures bound { length result.now ≤ longest_of self.now.conversation.dictionary + 2 }
        ensures longest { longest_of self.now.conversation.dictionary ≤ 256 }
    {
        match line {
            Line::First => self.first.octets(),
            Line::Second => self.second.octets(),
        }
    }

    /// A frame of the history, of which the oldest has the number 0.
    pub fn history(&self, i: usize) -> Option<&PairKept>
        ensures lent { kept_pair_option result ≡ slice_get self.now.conversation.history i }
        ensures value { (xs : List Arrival) → IsAfterArrivals C.check self.now xs →
            kept_pair_option result ≡ slice_get (history self.now.conversation.depth (arrival_reports self.now xs)) i }
    {
        self.conversation.kept(i)
    }

    /// How many verdicts named a station.
    pub fn tally(&self, station: u8) -> Counts
        ensures { (xs : List Arrival) → IsAfterArrivals C.check self.now xs →
            result ≡ tally self.now.conversation.dictionary (arrival_reports self.now xs) station }
    {
        self.conversation.counts(station)
    }

    /// How many frames the history has: at most its depth, which is at most 1024.
    pub fn history_len(&self) -> usize
        ensures value { (xs : List Arrival) → IsAfterArrivals C.check self.now xs →
            result ≡ length (history self.now.conversation.depth (arrival_reports self.now xs)) }
        ensures depth { result ≤ self.now.conversation.depth }
        ensures bound { self.now.conversation.depth ≤ 1024 }
    {
        self.conversation.kept_len()
    }

    /// What has begun and is not decided yet.
    ///
    /// A piece of the first line goes up to the place of the next bit. One of the second line goes from the
    /// place of its first bit to past that of the line's last bit.
    pub fn ending(&self) -> PairEnding
        ensures first { (xs : List Arrival) → IsAfterArrivals C.check self.now xs →
            result.first ≡ begun_span self.now.first.origin (own First xs) }
        ensures second { (xs : List Arrival) → IsAfterArrivals C.check self.now xs →
            result.second ≡ begun_places self.now.first.origin xs }
        ensures pending { (xs : List Arrival) → IsAfterArrivals C.check self.now xs →
            result.pending ≡ pending self.now.conversation.dictionary (arrival_reports self.now xs) }
    {
        PairEnding {
            first: begun_span(&self.first),
            second: self.begun_second(),
            pending: self.conversation.pending(),
        }
    }

    /// The piece that has begun on the second line, in places.
    fn begun_second(&self) -> Option<Span>
        ensures { (xs : List Arrival) → IsAfterArrivals C.check self.now xs →
            result ≡ begun_places self.now.first.origin xs }
    {
        // Called for its bound.
        let _place = self.first.place();
        match self.second.begun() {
            Some(_) => Some(self.places.open_span(self.second.place())),
            None => None,
        }
    }

    /// The dictionary that was handed in.
    pub fn dictionary(&self) -> &Dictionary
        ensures { result.now ≡ self.now.conversation.dictionary }
    {
        self.conversation.dictionary()
    }

    /// How many octets of a line's open piece are in its frame buffer: at most the dictionary's longest
    /// frame and two, and 0 where no piece is open.
    pub fn buffered(&self, line: Line) -> usize
        ensures bound { result ≤ longest_of self.now.conversation.dictionary + 2 }
        ensures stored { (xs : List Arrival) → IsAfterArrivals C.check self.now xs →
            result ≡ stored_open (longest_of self.now.conversation.dictionary) (own line xs) }
    {
        match line {
            Line::First => self.first.buffered(),
            Line::Second => self.second.buffered(),
        }
    }

    /// The steps so far: those of both lines' ledgers, added up. They are at most four for each bit of
    /// either line, and at most three with a check that costs one.
    pub fn spent(&self) -> Spent
        ensures ledger { (xs : List Arrival) → IsAfterArrivals C.check self.now xs →
            IsClockLedger C.check.cost (longest_of self.now.conversation.dictionary) xs result }
        ensures four { (xs : List Arrival) → IsAfterArrivals C.check self.now xs → total result ≤ 4 * length xs }
        ensures three { C.check.cost ≡ 1 → (xs : List Arrival) → IsAfterArrivals C.check self.now xs →
            (result.folded ≡ result.stored) × (total result ≤ 3 * length xs) }
    {
        steps_are_bounded();
        settled_places();
        reports_grow();
        arrivals_are();
        // Called for their bounds: no more than 2^60 bits each, so that no sum overflows.
        let _first_bits = self.first.place();
        let _second_bits = self.second.place();
        let first = self.first.spent();
        let second = self.second.spent();
        let conversation = self.conversation.spent();
        Spent {
            shifted: first.shifted + second.shifted,
            assembled: first.assembled + second.assembled,
            folded: first.folded + second.folded,
            stored: first.stored + second.stored,
            copied: conversation.copied,
            handled: conversation.handled,
        }
    }

    /// What the analyser holds, and the steps that it took so far.
    ///
    /// The contract is the headline for two clocks. It holds for any run of calls that led here from a new
    /// analyser. What the calls showed, in order, is exactly what is seen of both lines, each decoded from
    /// its own bits. The frame buffers and the history hold what they have to, and no more than their
    /// bounds. The steps are those of both lines' ledgers, at most four for each bit.
    pub fn usage(&self) -> PairUsage
        ensures headline { WholeClockRun C.check self.now result }
        ensures first_bound { result.first_buffered ≤ longest_of self.now.conversation.dictionary + 2 }
        ensures second_bound { result.second_buffered ≤ longest_of self.now.conversation.dictionary + 2 }
        ensures history_bound { result.history_len ≤ self.now.conversation.depth }
    {
        reports_are();
        seen_grows();
        arrivals_are();
        any_cut_of_arrivals::<C>();
        PairUsage {
            first_buffered: self.buffered(Line::First),
            second_buffered: self.buffered(Line::Second),
            history_len: self.history_len(),
            spent: self.spent(),
        }
    }
}
