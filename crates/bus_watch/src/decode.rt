//! Bits on one line, and what follows from them.

ghost use Rattle.std.specs.Prelude.{◌≡◌, ◌+◌, ◌-◌, ◌*◌, ◌≤◌, ◌<◌, ◌↔◌, ℕ, List, Bool, [], ◌∷◌, IsErr, IfOk, OnErr};
ghost use Rattle.std.specs.Prelude.{length, option_copied, Some};
ghost use Rattle.std.specs.Option.{is_some, option_to_list, option_map};
ghost use Rattle.bus_bits.specs.Bits.{bits_from};
ghost use Rattle.bus_bits.specs.Limits.{most_places};
ghost use Rattle.bus_line.specs.After.{Advances, After};
ghost use Rattle.bus_line.specs.LineState.{LineState};
ghost use Rattle.bus_line.specs.Shown.{reported};
ghost use Rattle.bus_line.specs.Limits.{most_octets};
ghost use Rattle.bus_watch.specs.Decodes.{Decided, newest, Decodes, DecodesMany, Stands, KeepsUp, told_on};
ghost use Rattle.bus_pairing.specs.Conversation.{HasRoom};
ghost use Rattle.bus_pairing.specs.Shown.{begun_span, found, found_on, shown_option, IsKeepable};
ghost use Rattle.bus_line.specs.declared.line.Line.{Line};
ghost use Rattle.bus_watch.specs.PairShown.{shown_option_on};

use crate::observer::ReportObserver;
use bus_bits::Span;
use bus_dictionary::Dictionary;
use bus_fcs::Check;
use bus_line::laws::{frame_is_spelled, reports_are, settled_places};
use bus_line::{Consumed, Event, LineDecoder, PlaceLimit};
use bus_pairing::{Conversation, Line, Seen, SeenEvent};

/// The conversation takes the event that the last bit of a line decided, if it decided one. `line` is `None` where
/// there is one line.
#[inline(always)]
pub(crate) fn record<C: Check>(
    decoder: &LineDecoder<C>,
    conversation: &mut Conversation,
    line: Option<Line>,
    event: Option<Event>,
)
    requires decided { Decided decoder.now event }
    requires room { HasRoom conversation.old }
    ensures { (old : LineState C) (bits : List Bool) →
        Advances C.check old bits (option_map (reported decoder.now.octets) event) decoder.now →
        Decodes C.check line old conversation.old bits
        (told_on line decoder.now.octets (is_some event) conversation.new.last) decoder.now conversation.new }
{
    if let Some(event) = event {
        reports_are();
        frame_is_spelled();
        conversation.add_report(line, event, decoder.octets());
    }
}

/// A line takes a bit, and the conversation the report that it decides; what that was found to be, if there is one.
#[inline(always)]
pub(crate) fn decode_bit<C: Check>(
    decoder: &mut LineDecoder<C>,
    conversation: &mut Conversation,
    line: Option<Line>,
    bit: bool,
) -> Result<Option<SeenEvent>, PlaceLimit>
    requires reached { Stands C.check decoder.old }
    requires room { decoder.old.place < most_places → HasRoom conversation.old }
    ensures limit { IsErr result ↔ (most_places ≤ decoder.old.place) }
    ensures reports { IfOk result (λ seen_event. Decodes C.check line decoder.old conversation.old (bit ∷ [])
        (option_map (found_on line decoder.new.octets) seen_event) decoder.new conversation.new) }
    ensures unchanged { OnErr result ((decoder.new ≡ decoder.old) × (conversation.new ≡ conversation.old)) }
{
    let event = decoder.advance(bit)?;
    record(decoder, conversation, line, event);
    Ok(newest(conversation, event.is_some()).copied())
}

/// Shows an observer what a report of a line was found to be, if there was one.
#[inline(always)]
pub fn show<X, L: ReportObserver<X>>(
    line: Option<Line>,
    seen_event: Option<&SeenEvent>,
    octets: &[u8],
    dictionary: &Dictionary,
    observer: &mut L,
    out: &mut X,
)
    requires room { L.has_room observer.old 1 }
    requires fits { length octets.now ≤ most_octets }
    ensures observed { L.observes dictionary.now observer.old out.old
        (option_to_list (option_map (found_on line octets.now) (option_copied seen_event.entry)))
        observer.new out.new }
    ensures left { (more : ℕ) → L.has_room observer.old (1 + more) → L.has_room observer.new more }
{
    if let Some(seen_event) = seen_event {
        observer.observe(line, seen_event, octets, dictionary, out);
    }
}

/// A line takes the bits of these octets from bit `from` on and before bit `past`. The observer is shown all that is
/// seen at them. `line` is `None` where there is one line.
#[inline(never)]
pub fn observe_bits<C: Check, X, L: ReportObserver<X>>(
    decoder: &mut LineDecoder<C>,
    conversation: &mut Conversation,
    line: Option<Line>,
    octets: &[u8],
    from: usize,
    past: usize,
    observer: &mut L,
    out: &mut X,
)
    requires some { from ≤ past }
    requires enough { past ≤ 8 * length octets.now }
    requires places { decoder.old.place + (past - from) ≤ most_places }
    requires keeps_up { KeepsUp C.check decoder.old conversation.old }
    requires room { L.has_room observer.old (past - from) }
    ensures observes { DecodesMany C.check line decoder.old conversation.old
        (bits_from octets.now from (past - from)) decoder.new conversation.new
        (λ ss. L.observes conversation.old.dictionary observer.old out.old ss observer.new out.new) }
    ensures left { (more : ℕ) → L.has_room observer.old (past - from + more) → L.has_room observer.new more }
    ensures keeps_up { KeepsUp C.check decoder.new conversation.new }
{
    settled_places();
    let mut at = from;
    while at < past {
        let Consumed { count, event } = match decoder.scan(octets, at, past) {
            Ok(scanned) => scanned,
            Err(PlaceLimit) => unreachable!(),
        };
        at += count;
        record(decoder, conversation, line, event);
        show(
            line,
            newest(conversation, event.is_some()),
            decoder.octets(),
            conversation.dictionary(),
            observer,
            out,
        );
    }
}

/// What the last report was found to be, if the last bits decided it.
#[inline(always)]
pub fn newest(conversation: &Conversation, is_decided: bool) -> Option<&SeenEvent>
    ensures { option_copied result ≡ newest is_decided conversation.now.last }
{
    if is_decided {
        Some(conversation.last())
    } else {
        None
    }
}

/// What was seen as it is handed out, with the octets of a frame that the line's last bit closed.
#[inline(always)]
pub(crate) fn lent<C: Check>(
    decoder: &LineDecoder<C>,
    seen_event: Option<SeenEvent>,
) -> Option<Seen<'_>>
    ensures only_line { shown_option result ≡ option_map (found decoder.now.octets) seen_event }
    ensures either_line { (line : Line) →
        shown_option_on line result ≡ option_map (found_on (Some line) decoder.now.octets) seen_event }
    ensures fits { IsKeepable result }
{
    match seen_event {
        Some(seen_event) => Some(seen_event.with_octets(decoder.octets())),
        None => None,
    }
}

/// The piece that has begun on a line, up to the place of the next bit.
pub(crate) fn begun_span<C: Check>(decoder: &LineDecoder<C>) -> Option<Span>
    ensures { (b : List Bool) → After C.check decoder.now b → result ≡ begun_span decoder.now.origin b }
{
    let past = decoder.place();
    decoder.begun().map(|first| Span { first, past })
}
