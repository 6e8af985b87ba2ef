//! Which frames are commands that wait, and what becomes of them.

ghost use Rattle.std.specs.Prelude.{◌≡◌, ◌+◌, Some, None, if◌then◌else◌};
ghost use Rattle.bus_dictionary.specs.Dictionary.{entry_at};
ghost use Rattle.bus_pairing.specs.Talk.{command_on, is_late, outcome, verdict, window_of};
ghost use Rattle.bus_pairing.specs.declared.outcome.Outcome.TheVariants.{Answered, Late};

use crate::line::{carries_answers, carries_commands};
use crate::outcome::Outcome;
use crate::pending::Pending;
use crate::verdict::Verdict;
use bus_bits::Span;
use bus_dictionary::{Rules, Standing};
use bus_line::Line;

/// The address of all stations (ISO/IEC 13239, all-station address).
const ALL_STATIONS: u8 = 255;

/// The command that a frame is, if it waits for an answer: known, of a type below 128 that is to
/// be answered, and to one station, on a line where commands wait.
#[inline(always)]
pub(crate) fn command<R: Rules>(
    rules: &R,
    line: Option<Line>,
    span: Span,
    standing: Standing,
) -> Option<Pending>
    ensures { result ≡ command_on line (R.entries rules.now) span standing }
{
    let Standing::Known { station, ftype } = standing else {
        return None;
    };
    if ftype >= 128 || station == ALL_STATIONS || !carries_commands(line) {
        return None;
    }
    match rules.rule(ftype) {
        Some(rule) if rule.answered => Some(Pending {
            span,
            station,
            ftype,
        }),
        _ => None,
    }
}

/// An answer whose first bit has this place: in time, or late by the window of the command's entry.
#[inline(always)]
fn answer<R: Rules>(rules: &R, pending: Pending, first: u64) -> Outcome
    ensures { result
        ≡ (if is_late (window_of (entry_at pending.ftype (R.entries rules.now))) pending.span first
        then Late else Answered) }
{
    let window = match rules.rule(pending.ftype) {
        Some(rule) => rule.window,
        None => None,
    };
    match window {
        Some(window) if first.saturating_sub(pending.span.past) > u64::from(window) => {
            Outcome::Late
        }
        _ => Outcome::Answered,
    }
}

/// What becomes of a command, by the line, the place of the first bit and the standing of the frame
/// that came next: `None` for a piece that is no frame.
#[inline(always)]
fn outcome<R: Rules>(
    rules: &R,
    pending: Pending,
    right: Option<(Option<Line>, u64, Standing)>,
) -> Outcome
    ensures { result ≡ outcome (R.entries rules.now) pending right }
{
    match right {
        None => Outcome::Spoilt,
        Some((line, first, Standing::Known { station, ftype }))
            if carries_answers(line)
                && station == pending.station
                && u16::from(ftype) == u16::from(pending.ftype) + 128 => {
            answer(rules, pending, first)
        }
        Some(_) => Outcome::Missing,
    }
}

/// The verdict on a command, by the line, the place of the first bit and the standing of the frame that
/// came next: `None` for a piece that is no frame.
#[inline(always)]
pub(crate) fn verdict<R: Rules>(
    rules: &R,
    pending: Pending,
    right: Option<(Option<Line>, u64, Standing)>,
) -> Verdict
    ensures { result ≡ verdict (R.entries rules.now) right pending }
{
    Verdict {
        outcome: outcome(rules, pending, right),
        span: pending.span,
        station: pending.station,
        ftype: pending.ftype,
    }
}
