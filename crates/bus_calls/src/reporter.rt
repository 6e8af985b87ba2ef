//! Reports what is seen: counts it, and writes its lines.

ghost use Rattle.std.specs.Prelude.{◌≡◌, ◌<◌, ◌≤◌, ℕ, Option, Some, None, Err, List, [], length, MatchResult};
ghost use Rattle.arrayvec.specs.ArrayVec.{array_vec_len};
ghost use Rattle.bus_text.specs.Counting.{IsFew};
ghost use Rattle.bus_text.specs.Pages.{Pages};
ghost use Rattle.bus_text.specs.Summary.{summary_of};
ghost use Rattle.bus_text.specs.declared.put.ShortWrite.{ShortWrite};
ghost use Rattle.bus_text.specs.declared.fault.ToolFault.TheVariants.{PlaceLimit, Write};
ghost use Rattle.bus_calls.specs.Internal.Reporting.{HasReporterRoom, ReportsSeen};
ghost use Rattle.bus_calls.specs.Internal.ReportingLaws.{has-less, reports-more, reports-none};

use bus_dictionary::Dictionary;
use bus_text::{Page, Printer, ShortWrite, Summary, ToolFault};
use bus_watch::{Line, ReportObserver, SeenEvent};
use std::io::Write;

/// Counts what is seen, and writes its lines.
#[derive(Drop)]
pub struct Reporter {
    pub summary: Summary,
    /// Puts the lines on the page; without it there are none.
    pub printer: Option<Printer>,
    pub page: Page,
    /// Where the writer was cut off while reports came. No more of them are counted or written then.
    pub cut: Option<ShortWrite>,
}

impl Reporter {
    /// No report yet.
    pub fn new(printer: Option<Printer>) -> Self
        ensures printer { result.printer ≡ printer }
        ensures none { result.summary ≡ summary_of [] }
        ensures few { IsFew 0 result.summary }
        ensures blank { (start : Option (List ℕ)) → Pages start start result.page.text result.page.written [] }
        ensures empty { (result.page.written ≡ 0) × (array_vec_len result.page.text ≡ 0) }
    {
        Reporter {
            summary: Summary::none(),
            printer,
            page: Page::new(),
            cut: None,
        }
    }

    /// How the scan of so many symbols ended that took so many of them.
    #[inline(always)]
    pub fn scanned(&self, taken: usize, given: usize) -> Result<(), ToolFault>
        ensures cut { (cut : ShortWrite) → self.now.cut ≡ Some cut → result ≡ Err (Write cut.sent) }
        ensures placed { self.now.cut ≡ None → MatchResult result (λ _. given ≤ taken)
            (λ fault. (taken < given) × (fault ≡ PlaceLimit)) }
    {
        if let Some(cut) = self.cut {
            return Err(ToolFault::from(cut));
        }
        if taken < given {
            return Err(ToolFault::PlaceLimit);
        }
        Ok(())
    }
}

impl<W: Write> ReportObserver<W> for Reporter {
    ghost observes = { λ d l w seen m v. ReportsSeen d l (W.contents w) seen m (W.contents v) };

    ghost has_room = { HasReporterRoom };

    #[inline(always)]
    fn observe(
        &mut self,
        line: Option<Line>,
        seen_event: &SeenEvent,
        octets: &[u8],
        dictionary: &Dictionary,
        w: &mut W,
    ) {
        if self.cut.is_some() {
            return;
        }
        self.summary.count(seen_event);
        let Some(printer) = &self.printer else {
            return;
        };
        if let Err(cut) = self.page.make_room(w) {
            self.cut = Some(cut);
            return;
        }
        printer.put(line, seen_event, octets, dictionary, &mut self.page);
    }

    ghost observes_none = { λ d l w. reports-none d l (W.contents w) };

    ghost observes_more = { λ d k l m u v w seen more told further.
        reports-more d k l m (W.contents u) (W.contents v) (W.contents w) seen more told further };

    ghost has_less = { has-less };
}
