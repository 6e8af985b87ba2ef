//! What C calls to pair commands with answers.

ghost use Rattle.std.specs.Prelude.{◌≡◌, ◌≢◌, ◌<◌, ◌↔◌, ◌⊎◌, List, [], ◌∷◌, ◌++◌, Some, IsSome, IfSome};
ghost use Rattle.bus_line.specs.LineReport.{LineReport};
ghost use Rattle.bus_pairing.specs.Seen.{seen_of};
ghost use Rattle.port1_c.specs.Pair.{CanBeReport, IsCodedSeen, PairAfter, entries_told, line_report_told, line_told};
ghost use Rattle.port1_c.specs.Pair.{no_reports, seen_told};
ghost use Rattle.port1_c.specs.declared.status.TheConstants.{OK, BAD_ARGUMENT};

use crate::entry::{Port1Entry, Table};
use crate::pair::Port1Pair;
use crate::report::Port1Report;
use crate::seen::Port1Seen;
use crate::status::{BAD_ARGUMENT, OK};
use bus_line::Line;

/// The line of a number, if it is that of one.
fn line_of(number: u32) -> Option<Option<Line>>
    ensures some { IsSome result ↔ (number < 3) }
    ensures value { IfSome result (λ line. line ≡ line_told number) }
{
    match number {
        0 => Some(None),
        1 => Some(Some(Line::First)),
        2 => Some(Some(Line::Second)),
        _ => None,
    }
}

/// Makes a pairing of no reports, whatever the memory holds. Returns OK.
#[unsafe(no_mangle)]
pub extern "C" fn port1_pair_init(pair: &mut Port1Pair) -> u32
    ensures status { result ≡ OK }
    ensures value { pair.new ≡ no_reports }
    ensures waits { (entries : List Port1Entry) → PairAfter pair.new entries [] }
{
    *pair = Port1Pair::new();
    OK
}

/// Takes a report of a line, a frame with these octets, and says what follows from it by a table of the frame
/// types. `line` is 0 where there is one line, and else 1 for the controller's and 2 for that of the answers.
///
/// Returns OK, or BAD_ARGUMENT where there is no such line or no such report, and nothing has changed.
#[unsafe(no_mangle)]
pub extern "C" fn port1_pair_take(
    pair: &mut Port1Pair,
    entries: &[Port1Entry],
    line: u32,
    report: &Port1Report,
    octets: &[u8],
    seen: &mut Port1Seen,
) -> u32
    ensures status { (result ≡ OK) ⊎ (result ≡ BAD_ARGUMENT) }
    ensures taken { result ≡ OK ↔ (line < 3) × CanBeReport report.now octets.now }
    ensures kept { result ≢ OK → (pair.new ≡ pair.old) × (seen.new ≡ seen.old) }
    ensures coded { result ≡ OK → IsCodedSeen seen.new }
    ensures waits { result ≡ OK → (hs : List LineReport) → PairAfter pair.old entries.now hs →
        PairAfter pair.new entries.now (hs ++ line_report_told line report.now octets.now ∷ []) }
    ensures says { result ≡ OK → (hs : List LineReport) → PairAfter pair.old entries.now hs →
        seen_told seen.new (line_report_told line report.now octets.now)
        ≡ seen_of (entries_told 0 entries.now) hs (line_report_told line report.now octets.now) }
{
    let Some(line) = line_of(line) else {
        return BAD_ARGUMENT;
    };
    let Some(event) = report.event(octets) else {
        return BAD_ARGUMENT;
    };
    let mut pairing = pair.load();
    let seen_event = pairing.pair(&Table { entries }, line, event, octets);
    *pair = Port1Pair::of(pairing);
    *seen = Port1Seen::of(&seen_event);
    OK
}
