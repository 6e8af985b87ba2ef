//! Commands and answers, without a tally and without a history.

ghost use Rattle.std.specs.Prelude.{◌≡◌, ◌≤◌, List, ℕ, Option, length, true, None, option_map};
ghost use Rattle.bus_line.specs.Shown.{kind_with, reported};
ghost use Rattle.bus_pairing.specs.Conversation.{AdvancesPairing, IsWhole};
ghost use Rattle.bus_line.specs.LineReport.{line_report};
ghost use Rattle.bus_pairing.specs.Internal.Damage.{is_damage};
ghost use Rattle.bus_pairing.specs.Shown.{found_on};
ghost use Rattle.bus_pairing.specs.Talk.{verdict};

mod decide;
mod stray;

use crate::pending::Pending;
use crate::seen_event::SeenEvent;
use bus_dictionary::{Rules, Standing};
use bus_line::{Event, EventKind, Line};
pub(crate) use decide::{command, verdict};
pub(crate) use stray::is_stray;

/// Pairs commands with answers, by rules in any memory. All that it keeps is the command that waits.
///
/// It is given the reports of one line, or of two in the order in which they are decided, and takes no memory.
#[derive(Clone, Copy, Debug, PartialEq, Eq)]
pub struct Pairing {
    /// The command that waits, if there is one.
    pub waiting: Option<Pending>,
}

impl Pairing {
    /// Before any report.
    pub fn new() -> Self
        ensures { result.waiting ≡ None }
    {
        Pairing { waiting: None }
    }

    /// Takes a report of a line, a frame with these octets, and returns what follows from it. `line` is `None`
    /// where there is one line.
    pub fn pair<R: Rules>(
        &mut self,
        rules: &R,
        line: Option<Line>,
        event: Event,
        octets: &[u8],
    ) -> SeenEvent
        requires whole { IsWhole event.kind octets.now }
        ensures advances { AdvancesPairing (R.entries rules.now) self.old.waiting
            (line_report line (reported octets.now event)) (found_on line octets.now result) self.new.waiting }
    {
        let mut found = SeenEvent::nothing();
        self.judge(rules, line, event, octets, &mut found);
        found
    }

    /// Takes a report of a line, and writes what follows from it where the last one stood.
    #[inline(always)]
    pub(crate) fn judge<R: Rules>(
        &mut self,
        rules: &R,
        line: Option<Line>,
        event: Event,
        octets: &[u8],
        found: &mut SeenEvent,
    )
        requires whole { IsWhole event.kind octets.now }
        ensures advances { AdvancesPairing (R.entries rules.now) self.old.waiting
            (line_report line (reported octets.now event)) (found_on line octets.now found.new) self.new.waiting }
        ensures event { found.new.event ≡ event }
    {
        found.event = event;
        match event.kind {
            EventKind::Frame => self.judge_frame(rules, line, octets, found),
            EventKind::Idle => {
                found.standing = None;
                found.verdict = None;
                found.stray = false;
            }
            EventKind::Damaged(_) | EventKind::Overlong | EventKind::Abort => {
                self.judge_damage(rules, found);
            }
        }
    }

    /// What follows from a piece that is no frame.
    #[inline(always)]
    fn judge_damage<R: Rules>(&mut self, rules: &R, found: &mut SeenEvent)
        requires damage { (octets : List ℕ) → is_damage (kind_with octets found.old.event.kind) ≡ true }
        ensures advances { (line : Option Line) (octets : List ℕ) →
            AdvancesPairing (R.entries rules.now) self.old.waiting
            (line_report line (reported octets found.old.event)) (found_on line octets found.new) self.new.waiting }
        ensures event { found.new.event ≡ found.old.event }
    {
        self.decide(rules, None, found);
        found.standing = None;
        found.stray = false;
    }

    /// What follows from a frame of a line.
    #[inline(always)]
    fn judge_frame<R: Rules>(
        &mut self,
        rules: &R,
        line: Option<Line>,
        octets: &[u8],
        found: &mut SeenEvent,
    )
        requires frame { found.old.event.kind ≡ EventKind.Frame }
        requires whole { 4 ≤ length octets.now }
        ensures advances { AdvancesPairing (R.entries rules.now) self.old.waiting
            (line_report line (reported octets.now found.old.event)) (found_on line octets.now found.new)
            self.new.waiting }
        ensures event { found.new.event ≡ found.old.event }
    {
        let span = found.event.span;
        let standing = Standing::read(octets, rules);
        self.decide(rules, Some((line, span.first, standing)), found);
        found.standing = Some(standing);
        found.stray = is_stray(standing, found.verdict);
        if let Some(command) = command(rules, line, span, standing) {
            self.waiting = Some(command);
        }
    }

    /// Decides the command that waits, if there is one, by the line, the place of the first bit and the
    /// standing of the frame that came next: `None` for a piece that is no frame.
    #[inline(always)]
    fn decide<R: Rules>(
        &mut self,
        rules: &R,
        right: Option<(Option<Line>, u64, Standing)>,
        found: &mut SeenEvent,
    )
        ensures value { found.new
            ≡ record found.old { verdict = option_map (verdict (R.entries rules.now) right) self.old.waiting } }
        ensures none { self.new.waiting ≡ None }
    {
        let Some(pending) = self.waiting else {
            found.verdict = None;
            return;
        };
        self.waiting = None;
        found.verdict = Some(verdict(rules, pending, right));
    }
}
