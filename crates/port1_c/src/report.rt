//! A report in a caller's memory.

ghost use Rattle.std.specs.Prelude.{◌≡◌, ◌≢◌, ◌≤◌, ◌↔◌, ℕ, List, Option, None, Some, IsSome, IfSome, length};
ghost use Rattle.std.specs.Option.{option_map};
ghost use Rattle.bus_line.specs.Shown.{reported};
ghost use Rattle.port1_c.specs.Line.{IsCoded, cause_told, report_told};
ghost use Rattle.port1_c.specs.Pair.{CanBeReport, line_report_told};

use bus_bits::Span;
use bus_line::{Cause, Event, EventKind};

/// The kinds of a report. The numbers are those of `c/include/port1.h`, with PORT1_ before each name.
pub(crate) const NONE: u32 = 0;

const FRAME: u32 = 1;

const DAMAGED: u32 = 2;

const OVERLONG: u32 = 3;

const ABORT: u32 = 4;

const IDLE: u32 = 5;

/// The causes of a damaged piece, likewise.
const UNSTUFFED: u32 = 1;

const SHORT: u32 = 2;

const UNALIGNED: u32 = 3;

const FCS: u32 = 4;

/// What a bit decided. Its layout is that of `c/include/port1.h`.
#[repr(C)]
#[derive(Clone, Copy)]
pub struct Port1Report {
    /// NONE, FRAME, DAMAGED, OVERLONG, ABORT or IDLE.
    pub kind: u32,
    /// Of a damaged piece UNSTUFFED, SHORT, UNALIGNED or FCS, and else 0.
    pub cause: u32,
    /// The place of the first bit.
    pub first: u64,
    /// The place just past the last bit.
    pub past: u64,
}

impl Port1Report {
    /// A report of a span.
    fn of_span(kind: u32, cause: u32, span: Span) -> Self
        ensures { result ≡ record { kind = kind; cause = cause; first = span.first; past = span.past } }
    {
        Port1Report {
            kind,
            cause,
            first: span.first,
            past: span.past,
        }
    }

    /// The report of an event.
    pub(crate) fn of_event(event: Event) -> Self
        ensures decides { (octets : List ℕ) → report_told result octets ≡ Some (reported octets event) }
        ensures some { result.kind ≢ 0 }
        ensures coded { IsCoded result }
    {
        let span = event.span;
        match event.kind {
            EventKind::Frame => Port1Report::of_span(FRAME, 0, span),
            EventKind::Damaged(Cause::Unstuffed) => Port1Report::of_span(DAMAGED, UNSTUFFED, span),
            EventKind::Damaged(Cause::Short) => Port1Report::of_span(DAMAGED, SHORT, span),
            EventKind::Damaged(Cause::Unaligned) => Port1Report::of_span(DAMAGED, UNALIGNED, span),
            EventKind::Damaged(Cause::Fcs) => Port1Report::of_span(DAMAGED, FCS, span),
            EventKind::Overlong => Port1Report::of_span(OVERLONG, 0, span),
            EventKind::Abort => Port1Report::of_span(ABORT, 0, span),
            EventKind::Idle => Port1Report::of_span(IDLE, 0, span),
        }
    }

    /// The report of an event, if there is one.
    pub(crate) fn of(event: Option<Event>) -> Self
        ensures decides { (octets : List ℕ) → report_told result octets ≡ option_map (reported octets) event }
        ensures none { result.kind ≡ 0 → event ≡ None }
        ensures coded { IsCoded result }
    {
        match event {
            Some(event) => Port1Report::of_event(event),
            None => Port1Report::none(),
        }
    }

    /// The event that it tells, if there can be such a one; that of a frame has four octets or more.
    pub(crate) fn event(&self, octets: &[u8]) -> Option<Event>
        ensures some { IsSome result ↔ CanBeReport self.now octets.now }
        ensures value { IfSome result (λ e. reported octets.now e ≡ (line_report_told 0 self.now octets.now).report) }
        ensures frame { IfSome result (λ e. e.kind ≡ EventKind.Frame → 4 ≤ length octets.now) }
    {
        let kind = match self.kind {
            FRAME if octets.len() >= 4 => EventKind::Frame,
            DAMAGED => EventKind::Damaged(self.cause()?),
            OVERLONG => EventKind::Overlong,
            ABORT => EventKind::Abort,
            IDLE => EventKind::Idle,
            _ => return None,
        };
        Some(Event {
            kind,
            span: Span {
                first: self.first,
                past: self.past,
            },
        })
    }

    /// The cause of damage, if it is one.
    fn cause(&self) -> Option<Cause>
        ensures some { IsSome result ↔ (1 ≤ self.now.cause) × (self.now.cause ≤ 4) }
        ensures value { IfSome result (λ c. c ≡ cause_told self.now.cause) }
    {
        match self.cause {
            UNSTUFFED => Some(Cause::Unstuffed),
            SHORT => Some(Cause::Short),
            UNALIGNED => Some(Cause::Unaligned),
            FCS => Some(Cause::Fcs),
            _ => None,
        }
    }

    /// No report.
    pub(crate) fn none() -> Self
        ensures kind { result.kind ≡ 0 }
        ensures decides { (octets : List ℕ) → report_told result octets ≡ None }
        ensures coded { IsCoded result }
    {
        Port1Report {
            kind: NONE,
            cause: 0,
            first: 0,
            past: 0,
        }
    }
}
