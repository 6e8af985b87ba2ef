//! How often each thing was seen.

ghost use Rattle.std.specs.Prelude.{◌≡◌, ◌↔◌, ◌<◌, ◌^◌, ◌+◌, List, [], ◌∷◌, ◌++◌, ℕ, IsTrue};
ghost use Rattle.bus_line.specs.Shown.{kind_with};
ghost use Rattle.bus_pairing.specs.Seen.{SeenReport};
ghost use Rattle.bus_pairing.specs.Shown.{found};
ghost use Rattle.bus_text.specs.Summary.{summary_of};
ghost use Rattle.bus_text.specs.Counting.{with_kind, with_verdict, with_seen, IsFew};

use bus_line::EventKind;
use bus_pairing::{Outcome, SeenEvent, Verdict};

/// How often each thing was seen, on one line or on two.
#[derive(Clone, Copy, Debug, PartialEq, Eq)]
pub struct Summary {
    /// Frames with a good check.
    pub frames: u64,
    /// Pieces between two flags that are no frame.
    pub damaged: u64,
    /// Pieces with more data than the longest frame and its check.
    pub overlong: u64,
    /// Pieces that seven 1 bits ended.
    pub aborts: u64,
    /// Idle lines, each counted once.
    pub idles: u64,
    /// Frames of a type of 128 or more that answer no command.
    pub strays: u64,
    /// Commands that were answered in time.
    pub answered: u64,
    /// Commands that were followed by another frame.
    pub missing: u64,
    /// Commands that were followed by what is no frame.
    pub spoilt: u64,
    /// Commands that were answered late.
    pub late: u64,
}

impl Summary {
    /// Whether no piece was damaged or overlong, and no verdict missing, spoilt or late.
    pub fn is_clean(&self) -> bool
        ensures { IsTrue result ↔
            ((self.now.damaged ≡ 0) × (self.now.overlong ≡ 0) × (self.now.missing ≡ 0) × (self.now.spoilt ≡ 0)
            × (self.now.late ≡ 0)) }
    {
        self.damaged == 0
            && self.overlong == 0
            && self.missing == 0
            && self.spoilt == 0
            && self.late == 0
    }

    /// Nothing was seen.
    pub fn none() -> Self
        ensures none { result ≡ summary_of [] }
        ensures few { IsFew 0 result }
    {
        Summary {
            frames: 0,
            damaged: 0,
            overlong: 0,
            aborts: 0,
            idles: 0,
            strays: 0,
            answered: 0,
            missing: 0,
            spoilt: 0,
            late: 0,
        }
    }

    /// Counts a report, and what follows from it.
    #[inline(always)]
    pub fn count(&mut self, seen_event: &SeenEvent)
        requires { (most : ℕ) × IsFew most self.old × (most < 2 ^ 62) }
        ensures counted { (before : List SeenReport) (octets : List ℕ) → self.old ≡ summary_of before →
            self.new ≡ summary_of (before ++ found octets seen_event.now ∷ []) }
        ensures adds { (octets : List ℕ) → self.new ≡ with_seen (found octets seen_event.now) self.old }
        ensures few { (most : ℕ) → IsFew most self.old → IsFew (most + 1) self.new }
    {
        self.count_kind(seen_event.event.kind);
        self.count_verdict(seen_event.verdict);
        if seen_event.stray {
            self.strays += 1;
        }
    }

    /// Counts a report by what it is of.
    fn count_kind(&mut self, kind: EventKind)
        requires { IsFew (2 ^ 63) self.old }
        ensures { self.new ≡ with_kind (kind_with [] kind) self.old }
    {
        match kind {
            EventKind::Frame => self.frames += 1,
            EventKind::Damaged(_) => self.damaged += 1,
            EventKind::Overlong => self.overlong += 1,
            EventKind::Abort => self.aborts += 1,
            EventKind::Idle => self.idles += 1,
        }
    }

    /// Counts a verdict, if there is one.
    fn count_verdict(&mut self, verdict: Option<Verdict>)
        requires { IsFew (2 ^ 63) self.old }
        ensures { self.new ≡ with_verdict verdict self.old }
    {
        let Some(verdict) = verdict else {
            return;
        };
        match verdict.outcome {
            Outcome::Answered => self.answered += 1,
            Outcome::Missing => self.missing += 1,
            Outcome::Spoilt => self.spoilt += 1,
            Outcome::Late => self.late += 1,
        }
    }
}
