//! Puts the lines of what is seen on a page.

ghost use Rattle.std.specs.Prelude.{◌≡◌, ◌+◌, ℕ, List, [], ◌∷◌, ◌++◌, ◌≤◌, length, option_map, codes};
ghost use Rattle.std.specs.Option.{option_to_list};
ghost use Rattle.arrayvec.specs.ArrayVec.{array_vec_len};
ghost use Rattle.bus_line.specs.Limits.{most_octets};
ghost use Rattle.bus_line.specs.Shown.{kind_with};
ghost use Rattle.bus_pairing.specs.Shown.{found_on};
ghost use Rattle.bus_pairing.specs.Seen.{type_of};
ghost use Rattle.bus_text.specs.Given.{printer_of};
ghost use Rattle.bus_text.specs.Kinds.{kind_word};
ghost use Rattle.bus_text.specs.Listing.{report_kind, report_line, outcome_kind, frame_line, verdict_line, begun_line};
ghost use Rattle.bus_text.specs.Listing.{begun_lines, pending_lines, strays_at, head_part, text_of, listing, passes};
ghost use Rattle.bus_text.specs.Listing.{station_of, line_of_commands, ending_text, ending_lines, pair_ending_lines};
ghost use Rattle.bus_text.specs.Advances.{AdvancesText, AdvancesPage};
ghost use Rattle.bus_text.specs.Pages.{HasRoomFor};

use crate::filter::Filter;
use crate::head::push_head;
use crate::kind::Kind;
use crate::line::{push_front, push_line_number, push_span, push_station};
use crate::options::Options;
use crate::page::Page;
use crate::text::push_octets;
use arrayvec::ArrayVec;
use bus_dictionary::{Dictionary, Standing};
use bus_line::{EventKind, Span};
use bus_pairing::{Ending, Line, Outcome, PairEnding, Pending, SeenEvent, Verdict};

/// Puts the lines of what is seen on a page.
#[derive(Clone, Copy)]
pub struct Printer {
    /// A dictionary was given: it says what the heads of frames are.
    heads: bool,
    filter: Filter,
}

/// The kind of a report's line.
#[inline(always)]
fn kind_of(kind: EventKind) -> Kind
    ensures { (octets : List ℕ) → result ≡ report_kind (kind_with octets kind) }
{
    match kind {
        EventKind::Frame => Kind::Frame,
        EventKind::Damaged(_) => Kind::Damaged,
        EventKind::Overlong => Kind::Overlong,
        EventKind::Abort => Kind::Abort,
        EventKind::Idle => Kind::Idle,
    }
}

/// The kind of a verdict's line.
#[inline(always)]
fn outcome_kind(outcome: Outcome) -> Kind
    ensures { result ≡ outcome_kind outcome }
{
    match outcome {
        Outcome::Answered => Kind::Answered,
        Outcome::Missing => Kind::Missing,
        Outcome::Spoilt => Kind::Spoilt,
        Outcome::Late => Kind::Late,
    }
}

/// The line on which commands wait, where this is the only line or one of two.
#[inline(always)]
fn line_of_commands(line: Option<Line>) -> Option<Line>
    ensures { result ≡ line_of_commands line }
{
    match line {
        None => None,
        Some(_) => Some(Line::First),
    }
}

/// Appends the word of a line about a frame, and a space.
#[inline(always)]
fn push_kind<const N: usize>(text: &mut ArrayVec<u8, N>, kind: Kind)
    requires { array_vec_len text.old + 9 ≤ N }
    ensures { AdvancesText text.old (kind_word kind ++ codes " ") 9 text.new }
{
    push_octets(text, kind.word().as_bytes());
    text.push(b' ');
}

/// Appends a line about a frame.
#[inline(always)]
fn push_frame(page: &mut Page, line: Option<Line>, kind: Kind, span: Span, station: u8, ftype: u8)
    requires { HasRoomFor 100 page.old }
    ensures { AdvancesPage page.old (frame_line line kind span station ftype).text 100 page.new }
{
    push_line_number(&mut page.text, line);
    push_span(&mut page.text, &mut page.places, span);
    push_kind(&mut page.text, kind);
    push_station(&mut page.text, station, ftype);
    page.text.push(b'\n');
}

/// Appends the line of a piece that has begun.
#[inline(always)]
fn push_begun(page: &mut Page, line: Option<Line>, span: Span)
    requires { HasRoomFor 100 page.old }
    ensures { AdvancesPage page.old (begun_line line span).text 100 page.new }
{
    push_line_number(&mut page.text, line);
    push_span(&mut page.text, &mut page.places, span);
    push_octets(&mut page.text, Kind::Begun.word().as_bytes());
    page.text.push(b'\n');
}

impl Printer {
    /// What the options ask for.
    pub fn of(options: &Options<'_>) -> Self
        ensures { result ≡ printer_of options.now }
    {
        Printer {
            heads: options.dictionary.is_some(),
            filter: Filter::of(options),
        }
    }

    /// Puts the lines of a report on the page, a frame with these octets: its own, that of the verdict,
    /// and that of the stray. `line` is the one of two lines on which it came, or None.
    #[inline(always)]
    pub fn put(
        &self,
        line: Option<Line>,
        seen_event: &SeenEvent,
        octets: &[u8],
        dictionary: &Dictionary,
        page: &mut Page,
    )
        requires room { HasRoomFor 964 page.old }
        requires held { length octets.now ≤ most_octets }
        ensures { AdvancesPage page.old
            (listing self.now dictionary.now (found_on line octets.now seen_event.now ∷ [])) 964 page.new }
    {
        self.put_report(line, seen_event, octets, dictionary, page);
        self.put_verdict(line, seen_event.verdict, page);
        self.put_stray(line, seen_event, page);
    }

    /// Whether the filter passes a report's own line.
    #[inline(always)]
    fn passes(&self, seen_event: &SeenEvent) -> bool
        ensures { (octets : List ℕ) → result ≡ passes self.now.filter
            (report_kind (kind_with octets seen_event.now.event.kind)) (station_of seen_event.now.standing)
            (type_of seen_event.now.standing) }
    {
        self.filter.is_open()
            || self.filter.passes(
                kind_of(seen_event.event.kind),
                seen_event.standing.map(Standing::station),
                seen_event.standing.and_then(Standing::frame_type),
            )
    }

    /// Puts a report's own line on the page.
    #[inline(always)]
    fn put_report(
        &self,
        line: Option<Line>,
        seen_event: &SeenEvent,
        octets: &[u8],
        dictionary: &Dictionary,
        page: &mut Page,
    )
        requires room { HasRoomFor 640 page.old }
        requires held { length octets.now ≤ most_octets }
        ensures { AdvancesPage page.old
            (text_of self.now.filter
            (report_line self.now.heads dictionary.now (found_on line octets.now seen_event.now) ∷ [])) 629
            page.new }
    {
        if !self.passes(seen_event) {
            return;
        }
        push_line_number(&mut page.text, line);
        push_front(&mut page.text, &mut page.places, &seen_event.event, octets);
        self.put_head(seen_event.standing, dictionary, page);
        page.text.push(b'\n');
    }

    /// Puts a space and what the head of a frame says on the page, if there is a dictionary.
    #[inline(always)]
    fn put_head(&self, standing: Option<Standing>, dictionary: &Dictionary, page: &mut Page)
        requires room { HasRoomFor 66 page.old }
        ensures { AdvancesPage page.old (head_part self.now.heads dictionary.now standing) 62 page.new }
    {
        let Some(standing) = standing else {
            return;
        };
        if !self.heads {
            return;
        }
        page.text.push(b' ');
        push_head(&mut page.text, standing, dictionary);
    }

    /// Puts the line of a verdict on the page, if there is one.
    #[inline(always)]
    fn put_verdict(&self, line: Option<Line>, verdict: Option<Verdict>, page: &mut Page)
        requires room { HasRoomFor 100 page.old }
        ensures { AdvancesPage page.old
            (text_of self.now.filter (option_to_list (option_map (verdict_line line) verdict))) 100
            page.new }
    {
        let Some(verdict) = verdict else {
            return;
        };
        let line = line_of_commands(line);
        let kind = outcome_kind(verdict.outcome);
        self.put_frame(
            line,
            kind,
            verdict.span,
            verdict.station,
            verdict.ftype,
            page,
        );
    }

    /// Puts the line of a stray on the page, if there is a dictionary.
    #[inline(always)]
    fn put_stray(&self, line: Option<Line>, seen_event: &SeenEvent, page: &mut Page)
        requires room { HasRoomFor 100 page.old }
        ensures { AdvancesPage page.old
            (text_of self.now.filter
            (strays_at line self.now.heads seen_event.now.stray seen_event.now.event.span seen_event.now.standing)) 100
            page.new }
    {
        if !self.heads {
            return;
        }
        if !seen_event.stray {
            return;
        }
        let Some(standing) = seen_event.standing else {
            return;
        };
        let Some(ftype) = standing.frame_type() else {
            return;
        };
        let span = seen_event.event.span;
        self.put_frame(line, Kind::Stray, span, standing.station(), ftype, page);
    }

    /// Puts a line about a frame on the page.
    #[inline(never)]
    fn put_frame(
        &self,
        line: Option<Line>,
        kind: Kind,
        span: Span,
        station: u8,
        ftype: u8,
        page: &mut Page,
    )
        requires room { HasRoomFor 100 page.old }
        ensures { AdvancesPage page.old (text_of self.now.filter (frame_line line kind span station ftype ∷ [])) 100
            page.new }
    {
        if !self.filter.passes(kind, Some(station), Some(ftype)) {
            return;
        }
        push_frame(page, line, kind, span, station, ftype);
    }

    /// Puts the line of a piece that has begun on the page, if one has.
    fn put_begun(&self, line: Option<Line>, begun: Option<Span>, page: &mut Page)
        requires room { HasRoomFor 100 page.old }
        ensures { AdvancesPage page.old (text_of self.now.filter (begun_lines line begun)) 100 page.new }
    {
        let Some(span) = begun else {
            return;
        };
        if !self.filter.passes(Kind::Begun, None, None) {
            return;
        }
        push_begun(page, line, span);
    }

    /// Puts the line of a command without a verdict on the page, if there is one.
    fn put_pending(&self, line: Option<Line>, pending: Option<Pending>, page: &mut Page)
        requires room { HasRoomFor 100 page.old }
        ensures { AdvancesPage page.old (text_of self.now.filter (pending_lines line pending)) 100 page.new }
    {
        let Some(command) = pending else {
            return;
        };
        self.put_frame(
            line,
            Kind::Pending,
            command.span,
            command.station,
            command.ftype,
            page,
        );
    }

    /// Puts the lines of the end on the page.
    pub fn put_ending(&self, ending: &Ending, page: &mut Page)
        requires room { HasRoomFor 200 page.old }
        ensures { AdvancesPage page.old (ending_text self.now (ending_lines ending.now.begun ending.now.pending)) 200
            page.new }
    {
        self.put_begun(None, ending.begun, page);
        self.put_pending(None, ending.pending, page);
    }

    /// Puts the lines of the end of two lines on the page.
    pub fn put_pair_ending(&self, ending: &PairEnding, page: &mut Page)
        requires room { HasRoomFor 300 page.old }
        ensures { AdvancesPage page.old
            (ending_text self.now (pair_ending_lines ending.now.first ending.now.second ending.now.pending)) 300
            page.new }
    {
        self.put_begun(Some(Line::First), ending.first, page);
        self.put_begun(Some(Line::Second), ending.second, page);
        self.put_pending(Some(Line::First), ending.pending, page);
    }
}
