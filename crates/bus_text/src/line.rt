//! Parts of lines.

ghost use Rattle.std.specs.Prelude.{◌+◌, ◌++◌, ◌≤◌, length};
ghost use Rattle.arrayvec.specs.ArrayVec.{array_vec_len};
ghost use Rattle.bus_line.specs.Limits.{most_octets};
ghost use Rattle.bus_line.specs.Shown.{kind_with, reported, span_of};
ghost use Rattle.bus_text.specs.Listing.{cause_word, line_number, span_text, report_word};
ghost use Rattle.bus_text.specs.HeadText.{station_text};
ghost use Rattle.bus_text.specs.Advances.{AdvancesText};

use crate::hex_digits::push_hex;
use crate::number::push_octet_number;
use crate::places::Places;
use crate::text::push_octets;
use arrayvec::ArrayVec;
use bus_line::{Cause, Event, EventKind, Span};
use bus_pairing::Line;

/// A line of a frame that is shown; the longest is shorter.
pub(crate) type FrameLine = ArrayVec<u8, 640>;

/// Appends a station and a type.
#[inline(always)]
pub(crate) fn push_station<const N: usize>(text: &mut ArrayVec<u8, N>, station: u8, ftype: u8)
    requires { array_vec_len text.old + 20 ≤ N }
    ensures { AdvancesText text.old (station_text station ftype) 20 text.new }
{
    push_octets(text, b"station ");
    push_octet_number(text, station);
    push_octets(text, b" type ");
    push_octet_number(text, ftype);
}

/// Appends the number of one of two lines, followed by a space; of the only line nothing is said.
#[inline(always)]
pub(crate) fn push_line_number<const N: usize>(text: &mut ArrayVec<u8, N>, line: Option<Line>)
    requires { array_vec_len text.old + 2 ≤ N }
    ensures { AdvancesText text.old (line_number line) 2 text.new }
{
    match line {
        None => {}
        Some(Line::First) => push_octets(text, b"1 "),
        Some(Line::Second) => push_octets(text, b"2 "),
    }
}

/// Appends two places, each followed by a space.
#[inline(always)]
pub(crate) fn push_span<const N: usize>(text: &mut ArrayVec<u8, N>, places: &mut Places, span: Span)
    requires { array_vec_len text.old + 42 ≤ N }
    ensures { AdvancesText text.old (span_text span) 42 text.new }
{
    places.push(text, span.first);
    places.push(text, span.past);
}

/// Appends why a piece is damaged, in one word.
#[inline(never)]
fn push_cause<const N: usize>(text: &mut ArrayVec<u8, N>, cause: Cause)
    requires { array_vec_len text.old + 9 ≤ N }
    ensures { AdvancesText text.old (cause_word cause) 9 text.new }
{
    match cause {
        Cause::Unstuffed => push_octets(text, b"unstuffed"),
        Cause::Short => push_octets(text, b"short"),
        Cause::Unaligned => push_octets(text, b"unaligned"),
        Cause::Fcs => push_octets(text, b"fcs"),
    }
}

/// Appends what a report is, a frame with these octets.
#[inline(always)]
fn push_word<const N: usize>(text: &mut ArrayVec<u8, N>, kind: EventKind, octets: &[u8])
    requires room { array_vec_len text.old + 522 ≤ N }
    requires held { length octets.now ≤ most_octets }
    ensures { AdvancesText text.old (report_word (kind_with octets.now kind)) 522 text.new }
{
    match kind {
        EventKind::Frame => {
            push_octets(text, b"frame ");
            push_hex(text, octets);
        }
        EventKind::Damaged(cause) => {
            push_octets(text, b"damaged ");
            push_cause(text, cause);
        }
        EventKind::Overlong => push_octets(text, b"overlong"),
        EventKind::Abort => push_octets(text, b"abort"),
        EventKind::Idle => push_octets(text, b"idle"),
    }
}

/// Appends the places of a report and what it is, a frame with these octets, without the end of its
/// line.
#[inline(always)]
pub(crate) fn push_front<const N: usize>(
    text: &mut ArrayVec<u8, N>,
    places: &mut Places,
    event: &Event,
    octets: &[u8],
)
    requires room { array_vec_len text.old + 564 ≤ N }
    requires held { length octets.now ≤ most_octets }
    ensures { AdvancesText text.old
        (span_text (span_of (reported octets.now event.now)) ++ report_word (reported octets.now event.now).kind)
        564 text.new }
{
    push_span(text, places, event.span);
    push_word(text, event.kind, octets);
}
