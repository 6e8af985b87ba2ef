//! Lists a capture.

ghost use Rattle.std.specs.Prelude.{◌≡◌, ◌<◌, ◌^◌, ℕ, List, Option, IfSome};
ghost use Rattle.bus_text.specs.Pages.{Pages};
ghost use Rattle.bus_calls.specs.Internal.Closes.{IsNoWrite, PageStopsWith};
ghost use Rattle.std.specs.Io.KnownBytes.{Consumes};
ghost use Rattle.bus_calls.specs.Lists.{Lists, ListsBy};
ghost use Rattle.bus_calls.specs.Known.{ListsKnown, ListsKnownBy};

use crate::arrivals::ClockAnalyser;
use crate::capture_kind::CaptureKind;
use crate::reader::CaptureReader;
use bus_fcs::OctetCheck;
use bus_text::{Lines, Options, Page, Printer, Summary, ToolFault};
use bus_watch::{Analyser, PairAnalyser};
use std::alloc::Global;
use std::io::{Read, Write};

/// Lists a capture: a line for each report as it is decided, with what the dictionary says of a frame,
/// one for each verdict and, where there is a dictionary, for each stray; and at the end one for each open
/// piece and for a command that waits. Of these only the lines that pass the filters of the options are
/// written. Returns how often each thing was seen, whatever the filters.
///
/// The dictionary is read first, then memory is taken for the history, and then the capture is read,
/// by at most `reads` calls of the reader. The lines that one read decided are written before the
/// next; after the last octet the writer is flushed, if anything was written.
///
/// # Errors
///
/// - `Dictionary`, `Depth`, `Origin`: the options can't be met. `Memory`: memory was refused. Up to
///   here nothing was read, and nothing is written.
/// - `BadMark`, `ShortHead`, `Magic`, `TooMany`, `ShortBody`, `PadBits`, `Trailing`, `PlaceLimit`:
///   the first fault of the capture. The lines of the bits before it were written, and none of
///   the end.
/// - `Read`: the reader returned an error. `ReadsLimit`: it did not reach the end. In both the
///   capture had no fault so far, and the lines of its bits were written, and none of the end.
/// - `Write`: a write or the flush failed, or a write took nothing. It comes in place of any other.
pub fn list_capture<R: Read, W: Write>(
    alloc: Global,
    o: &Options<'_>,
    r: &mut R,
    w: &mut W,
) -> Result<Summary, ToolFault>
    ensures listed { (xs : List ℕ) × Consumes (R.remaining r.old) (R.remaining r.new) xs
        × Lists o.now (R.remaining r.new) (W.contents w.old) (W.contents w.new) xs result }
    ensures known { IfSome (R.remaining r.old)
        (λ all. ListsKnown o.now (W.contents w.old) (W.contents w.new) all result) }
{
    match o.lines {
        Lines::One => list_with::<Analyser<OctetCheck>, R, W>(alloc, o, r, w),
        Lines::Two => list_with::<PairAnalyser<OctetCheck>, R, W>(alloc, o, r, w),
        Lines::Arrivals => list_with::<ClockAnalyser<OctetCheck>, R, W>(alloc, o, r, w),
    }
}

/// Lists a capture of one line, of two, or of arrivals.
fn list_with<T: CaptureKind, R: Read, W: Write>(
    alloc: Global,
    o: &Options<'_>,
    r: &mut R,
    w: &mut W,
) -> Result<Summary, ToolFault>
    ensures listed { (xs : List ℕ) × Consumes (R.remaining r.old) (R.remaining r.new) xs
        × ListsBy T.kind.form o.now (R.remaining r.new) (W.contents w.old) (W.contents w.new) xs result }
    ensures known { IfSome (R.remaining r.old)
        (λ all. ListsKnownBy T.kind.form o.now (W.contents w.old) (W.contents w.new) all result) }
{
    T::laws();
    let mut reader = CaptureReader::<T>::new(alloc, o, Some(Printer::of(o)))?;
    match reader.read_to_end(o.reads, r, w) {
        Ok(()) => reader.run.end(w),
        Err(fault) => Err(close_behind(fault, &mut reader.run.reporter.page, w)),
    }
}

/// Writes what is left of the page after a fault, and flushes, unless a write was that fault.
/// Returns the fault, or that a write failed.
fn close_behind<W: Write>(fault: ToolFault, page: &mut Page, w: &mut W) -> ToolFault
    requires { page.old.written < 2 ^ 100 }
    ensures cut { (sent : ℕ) → fault ≡ ToolFault.Write sent →
        (result ≡ ToolFault.Write sent) × (W.contents w.new ≡ W.contents w.old) }
    ensures closed { IsNoWrite fault → (start : Option (List ℕ)) (text : List ℕ) →
        Pages start (W.contents w.old) page.old.text page.old.written text →
        PageStopsWith start (W.contents w.new) text fault result }
{
    if let ToolFault::Write { written } = fault {
        return ToolFault::Write { written };
    }
    match page.close(w) {
        Ok(()) => fault,
        Err(cut) => cut.into(),
    }
}
