//! The parts of the report of a check.

ghost use Rattle.std.specs.Prelude.{◌≡◌, ◌+◌, ◌++◌, ◌<◌, ◌≤◌, ◌^◌, ℕ, List, Option, MatchResult, OnOk, length};
ghost use Rattle.std.specs.Prelude.{decimal};
ghost use Rattle.arrayvec.specs.ArrayVec.{array_vec_len};
ghost use Rattle.bus_text.specs.CheckText.{count_text, summary_text, tally_line, has_none, tally_text, last_text};
ghost use Rattle.bus_text.specs.Put.{TextStopsAt};
ghost use Rattle.bus_text.specs.Pages.{HasRoomFor, Pages};
ghost use Rattle.bus_text.specs.Advances.{AdvancesText, AdvancesPage};

use crate::hex_digits::push_hex;
use crate::line::{push_line_number, push_span};
use crate::number::{push_number, push_octet_number};
use crate::page::Page;
use crate::put::ShortWrite;
use crate::summary::Summary;
use crate::text::push_octets;
use arrayvec::ArrayVec;
use bus_pairing::{Counts, Kept, Line};
use std::io::Write;

/// Appends a name and a number.
fn push_named<const N: usize>(text: &mut ArrayVec<u8, N>, name: &[u8], n: u64)
    requires room { array_vec_len text.old + 30 ≤ N }
    requires short { length name.now ≤ 10 }
    ensures { AdvancesText text.old (name.now ++ decimal n) 30 text.new }
{
    push_octets(text, name);
    push_number(text, n);
}

/// Appends a word, a number and the end of the line.
fn push_count<const N: usize>(text: &mut ArrayVec<u8, N>, word: &[u8], count: u64)
    requires room { array_vec_len text.old + 30 ≤ N }
    requires short { length word.now ≤ 8 }
    ensures { AdvancesText text.old (count_text word.now count) 30 text.new }
{
    push_octets(text, word);
    text.push(b' ');
    push_number(text, count);
    text.push(b'\n');
}

/// Appends the ten counts, a line for each.
fn push_summary<const N: usize>(text: &mut ArrayVec<u8, N>, summary: &Summary)
    requires { array_vec_len text.old + 300 ≤ N }
    ensures { AdvancesText text.old (summary_text summary.now) 300 text.new }
{
    push_count(text, b"frames", summary.frames);
    push_count(text, b"damaged", summary.damaged);
    push_count(text, b"overlong", summary.overlong);
    push_count(text, b"aborts", summary.aborts);
    push_count(text, b"idles", summary.idles);
    push_count(text, b"strays", summary.strays);
    push_count(text, b"answered", summary.answered);
    push_count(text, b"missing", summary.missing);
    push_count(text, b"spoilt", summary.spoilt);
    push_count(text, b"late", summary.late);
}

/// Appends the line of a station's verdicts.
fn push_tally<const N: usize>(text: &mut ArrayVec<u8, N>, station: u8, counts: Counts)
    requires { array_vec_len text.old + 140 ≤ N }
    ensures { AdvancesText text.old (tally_line station counts) 140 text.new }
{
    push_octets(text, b"station ");
    push_octet_number(text, station);
    push_named(text, b" answered ", counts.answered);
    push_named(text, b" missing ", counts.missing);
    push_named(text, b" spoilt ", counts.spoilt);
    push_named(text, b" late ", counts.late);
    text.push(b'\n');
}

/// Appends the line of a frame of the history.
fn push_kept(page: &mut Page, line: Option<Line>, kept: &Kept)
    requires { HasRoomFor 572 page.old }
    ensures { AdvancesPage page.old (last_text line kept.now.span kept.now.octets) 572 page.new }
{
    push_octets(&mut page.text, b"last ");
    push_line_number(&mut page.text, line);
    push_span(&mut page.text, &mut page.places, kept.span);
    push_hex(&mut page.text, kept.octets.as_slice());
    page.text.push(b'\n');
}

/// Whether no verdict is counted.
fn has_none(counts: Counts) -> bool
    ensures { result ≡ has_none counts }
{
    counts.answered == 0 && counts.missing == 0 && counts.spoilt == 0 && counts.late == 0
}

/// Puts the ten counts on the page.
pub fn put_summary<W: Write>(
    summary: &Summary,
    page: &mut Page,
    w: &mut W,
) -> Result<(), ShortWrite>
    requires { page.old.written < 2 ^ 100 }
    ensures put { (start : Option (List ℕ)) (text : List ℕ) →
        Pages start (W.contents w.old) page.old.text page.old.written text → MatchResult result
        (λ _. Pages start (W.contents w.new) page.new.text page.new.written (text ++ summary_text summary.now))
        (λ cut. TextStopsAt start (W.contents w.new) (text ++ summary_text summary.now) cut.sent) }
    ensures few { OnOk result
        (page.new.written + array_vec_len page.new.text ≤ page.old.written + array_vec_len page.old.text + 300) }
{
    page.make_room(w)?;
    push_summary(&mut page.text, summary);
    Ok(())
}

/// Puts the line of a station on the page, if it has a verdict.
pub fn put_tally<W: Write>(
    station: u8,
    counts: Counts,
    page: &mut Page,
    w: &mut W,
) -> Result<(), ShortWrite>
    requires { page.old.written < 2 ^ 100 }
    ensures put { (start : Option (List ℕ)) (text : List ℕ) →
        Pages start (W.contents w.old) page.old.text page.old.written text → MatchResult result
        (λ _. Pages start (W.contents w.new) page.new.text page.new.written (text ++ tally_text station counts))
        (λ cut. TextStopsAt start (W.contents w.new) (text ++ tally_text station counts) cut.sent) }
    ensures few { OnOk result
        (page.new.written + array_vec_len page.new.text ≤ page.old.written + array_vec_len page.old.text + 140) }
{
    if has_none(counts) {
        return Ok(());
    }
    page.make_room(w)?;
    push_tally(&mut page.text, station, counts);
    Ok(())
}

/// Puts a frame of the history on the page, of one of two lines or of the only one.
pub fn put_kept<W: Write>(
    line: Option<Line>,
    kept: &Kept,
    page: &mut Page,
    w: &mut W,
) -> Result<(), ShortWrite>
    requires { page.old.written < 2 ^ 100 }
    ensures put { (start : Option (List ℕ)) (text : List ℕ) →
        Pages start (W.contents w.old) page.old.text page.old.written text → MatchResult result
        (λ _. Pages start (W.contents w.new) page.new.text page.new.written
        (text ++ last_text line kept.now.span kept.now.octets))
        (λ cut. TextStopsAt start (W.contents w.new)
        (text ++ last_text line kept.now.span kept.now.octets) cut.sent) }
    ensures few { OnOk result
        (page.new.written + array_vec_len page.new.text ≤ page.old.written + array_vec_len page.old.text + 572) }
{
    page.make_room(w)?;
    push_kept(page, line, kept);
    Ok(())
}
