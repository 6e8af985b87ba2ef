//! Checks a capture.

ghost use Rattle.std.specs.Prelude.{ℕ, List, IfSome};
ghost use Rattle.std.specs.Io.KnownBytes.{Consumes};
ghost use Rattle.bus_calls.specs.Checks.{Checks, ChecksBy};
ghost use Rattle.bus_calls.specs.Known.{ChecksKnown, ChecksKnownBy};

use crate::arrivals::ClockAnalyser;
use crate::capture_kind::CaptureKind;
use crate::reader::CaptureReader;
use bus_fcs::OctetCheck;
use bus_text::{Lines, Options, Summary, ToolFault};
use bus_watch::{Analyser, PairAnalyser};
use std::alloc::Global;
use std::io::{Read, Write};

/// Checks a capture: reads it to its end, and then writes how often each thing was seen, a line for
/// each station with a verdict, and the last frames, as many as `depth` says. Returns how often each
/// thing was seen.
///
/// The dictionary is read first, then memory is taken for the history, and then the capture is read,
/// by at most `reads` calls of the reader. Nothing is written before its end; after the last octet
/// the writer is flushed. The filters of the options are ignored.
///
/// # Errors
///
/// Those of [`list_capture`](crate::list_capture); with any of them but `Write` nothing was written.
pub fn check_capture<R: Read, W: Write>(
    alloc: Global,
    o: &Options<'_>,
    r: &mut R,
    w: &mut W,
) -> Result<Summary, ToolFault>
    ensures checked { (xs : List ℕ) × Consumes (R.remaining r.old) (R.remaining r.new) xs
        × Checks o.now (R.remaining r.new) (W.contents w.old) (W.contents w.new) xs result }
    ensures known { IfSome (R.remaining r.old)
        (λ all. ChecksKnown o.now (W.contents w.old) (W.contents w.new) all result) }
{
    match o.lines {
        Lines::One => check_with::<Analyser<OctetCheck>, R, W>(alloc, o, r, w),
        Lines::Two => check_with::<PairAnalyser<OctetCheck>, R, W>(alloc, o, r, w),
        Lines::Arrivals => check_with::<ClockAnalyser<OctetCheck>, R, W>(alloc, o, r, w),
    }
}

/// Checks a capture of one line, of two, or of arrivals.
fn check_with<T: CaptureKind, R: Read, W: Write>(
    alloc: Global,
    o: &Options<'_>,
    r: &mut R,
    w: &mut W,
) -> Result<Summary, ToolFault>
    ensures checked { (xs : List ℕ) × Consumes (R.remaining r.old) (R.remaining r.new) xs
        × ChecksBy T.kind.form o.now (R.remaining r.new) (W.contents w.old) (W.contents w.new) xs result }
    ensures known { IfSome (R.remaining r.old)
        (λ all. ChecksKnownBy T.kind.form o.now (W.contents w.old) (W.contents w.new) all result) }
{
    T::laws();
    let mut reader = CaptureReader::<T>::new(alloc, o, None)?;
    reader.read_to_end(o.reads, r, w)?;
    reader.run.report(w)
}
