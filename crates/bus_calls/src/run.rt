//! Follows the bits of one capture.

ghost use Rattle.std.specs.Io.KnownBytes.{Appends};
ghost use Rattle.std.specs.Prelude.{◌≡◌, ◌++◌, ℕ, List, Option, MatchResult};

use crate::capture_kind::CaptureKind;
use crate::report::put_report;
use crate::reporter::Reporter;
use bus_text::{Summary, ToolFault};
use std::io::Write;

/// Follows the symbols of one capture, and tells what is seen.
#[derive(Drop)]
pub struct CaptureRun<T> {
    pub analyser: T,
    pub reporter: Reporter,
}

impl<T: CaptureKind> CaptureRun<T> {
    ghost use Rattle.bus_calls.specs.Internal.Watching.{IsSound, WatchAfter, IsCutIn, lines, last_lines};
    ghost use Rattle.bus_calls.specs.Internal.Watching.{report_text};

    /// Writes the lines of the end of a capture, and what is left of the page, and flushes.
    pub fn end<W: Write>(self, w: &mut W) -> Result<Summary, ToolFault>
        requires { IsSound T.kind self }
        ensures { (start : Option (List ℕ)) (b : List T.Received) →
            WatchAfter T.kind start (W.contents w.old) self b → MatchResult result
            (λ s. Appends start (W.contents w.new) (lines T.kind self b ++ last_lines T.kind self b)
            × (s ≡ self.reporter.summary))
            (λ fault. IsCutIn start (W.contents w.new) (lines T.kind self b ++ last_lines T.kind self b) fault) }
    {
        let CaptureRun { analyser, reporter } = self;
        let Reporter {
            summary,
            printer,
            mut page,
            ..
        } = reporter;
        page.make_room(w)?;
        if let Some(printer) = &printer {
            analyser.put_ending(printer, &mut page);
        }
        page.close(w)?;
        Ok(summary)
    }

    /// Writes the report of a check, and flushes.
    pub fn report<W: Write>(self, w: &mut W) -> Result<Summary, ToolFault>
        requires { IsSound T.kind self }
        ensures { (start : Option (List ℕ)) (b : List T.Received) →
            WatchAfter T.kind start (W.contents w.old) self b → MatchResult result
            (λ s. Appends start (W.contents w.new) (lines T.kind self b ++ report_text T.kind self b)
            × (s ≡ self.reporter.summary))
            (λ fault. IsCutIn start (W.contents w.new) (lines T.kind self b ++ report_text T.kind self b) fault) }
    {
        let CaptureRun { analyser, reporter } = self;
        let Reporter {
            summary,
            mut page,
            ..
        } = reporter;
        put_report(&summary, &analyser, &mut page, w)?;
        page.close(w)?;
        Ok(summary)
    }
}
