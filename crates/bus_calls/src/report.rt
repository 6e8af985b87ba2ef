//! The report of a check.

ghost use Rattle.std.specs.Prelude.{◌+◌, ◌*◌, ◌++◌, ◌<◌, ◌≤◌, ◌^◌, ℕ, List, Option, MatchResult, OnOk, length};
ghost use Rattle.arrayvec.specs.ArrayVec.{array_vec_len};
ghost use Rattle.bus_pairing.specs.History.{history, tally};
ghost use Rattle.bus_text.specs.CheckText.{tallies_text, history_text, check_text};
ghost use Rattle.bus_text.specs.Put.{TextStopsAt};
ghost use Rattle.bus_text.specs.Pages.{Pages};
ghost use Rattle.bus_calls.specs.Internal.Watching.{reports_by};

use crate::capture_kind::CaptureKind;
use bus_text::{Page, ShortWrite, Summary, put_summary, put_tally};
use std::io::Write;

/// Puts a line for each station with a verdict on the page, by rising number.
fn put_tallies<T: CaptureKind, W: Write>(
    analyser: &T,
    page: &mut Page,
    w: &mut W,
) -> Result<(), ShortWrite>
    requires { page.old.written + array_vec_len page.old.text < 2 ^ 90 }
    ensures put { (start : Option (List ℕ)) (text : List ℕ) (b : List T.Received) →
        T.kind.watch.is_after analyser.now b →
        Pages start (W.contents w.old) page.old.text page.old.written text → MatchResult result
        (λ _. Pages start (W.contents w.new) page.new.text page.new.written
        (text ++ tallies_text (tally (T.kind.watch.dictionary analyser.now) (reports_by T.kind.watch analyser.now b))
        256))
        (λ cut. TextStopsAt start (W.contents w.new)
        (text ++ tallies_text (tally (T.kind.watch.dictionary analyser.now) (reports_by T.kind.watch analyser.now b))
        256)
        cut.sent) }
    ensures few { OnOk result
        (page.new.written + array_vec_len page.new.text ≤ page.old.written + array_vec_len page.old.text
        + 140 * 256) }
{
    for station in 0..=255u8 {
        put_tally(station, analyser.tally(station), page, w)?;
    }
    Ok(())
}

/// Puts the frames of the history on the page, the oldest first.
fn put_history<T: CaptureKind, W: Write>(
    analyser: &T,
    page: &mut Page,
    w: &mut W,
) -> Result<(), ShortWrite>
    requires { page.old.written + array_vec_len page.old.text < 2 ^ 95 }
    ensures put { (start : Option (List ℕ)) (text : List ℕ) (b : List T.Received) →
        T.kind.watch.is_after analyser.now b →
        Pages start (W.contents w.old) page.old.text page.old.written text → MatchResult result
        (λ _. Pages start (W.contents w.new) page.new.text page.new.written
        (text ++ history_text T.kind.form.is_two
        (history (T.kind.watch.depth analyser.now) (reports_by T.kind.watch analyser.now b))))
        (λ cut. TextStopsAt start (W.contents w.new)
        (text ++ history_text T.kind.form.is_two
        (history (T.kind.watch.depth analyser.now) (reports_by T.kind.watch analyser.now b))) cut.sent) }
    ensures few { OnOk result (page.new.written < 2 ^ 96) }
{
    for i in 0..analyser.history_len() {
        analyser.put_last(i, page, w)?;
    }
    Ok(())
}

/// Puts the whole report on the page.
pub fn put_report<T: CaptureKind, W: Write>(
    summary: &Summary,
    analyser: &T,
    page: &mut Page,
    w: &mut W,
) -> Result<(), ShortWrite>
    requires { page.old.written + array_vec_len page.old.text < 2 ^ 80 }
    ensures put { (start : Option (List ℕ)) (text : List ℕ) (b : List T.Received) →
        T.kind.watch.is_after analyser.now b →
        Pages start (W.contents w.old) page.old.text page.old.written text → MatchResult result
        (λ _. Pages start (W.contents w.new) page.new.text page.new.written
        (text ++ check_text T.kind.form.is_two summary.now
        (tally (T.kind.watch.dictionary analyser.now) (reports_by T.kind.watch analyser.now b))
        (history (T.kind.watch.depth analyser.now) (reports_by T.kind.watch analyser.now b))))
        (λ cut. TextStopsAt start (W.contents w.new)
        (text ++ check_text T.kind.form.is_two summary.now
        (tally (T.kind.watch.dictionary analyser.now) (reports_by T.kind.watch analyser.now b))
        (history (T.kind.watch.depth analyser.now) (reports_by T.kind.watch analyser.now b))) cut.sent) }
    ensures few { OnOk result (page.new.written < 2 ^ 96) }
{
    put_summary(summary, page, w)?;
    put_tallies(analyser, page, w)?;
    put_history(analyser, page, w)
}
