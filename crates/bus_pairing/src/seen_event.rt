//! A report without the octets of a frame, and what follows from it.

ghost use Rattle.std.specs.Prelude.{◌≡◌, Some};
ghost use Rattle.bus_pairing.specs.Shown.{shown, found, shown_on, found_on};
ghost use Rattle.bus_line.specs.declared.line.Line.{Line};

use crate::seen::Seen;
use crate::verdict::Verdict;
use bus_bits::Span;
use bus_dictionary::Standing;
use bus_line::{Event, EventKind};

/// One report, and what follows from it for the talk on the line, without the octets of a frame, which
/// whoever decoded it lends, as `LineDecoder::octets` of `bus_line` does.
#[derive(Clone, Copy, Debug, PartialEq, Eq)]
pub struct SeenEvent {
    /// The report itself, with its bit places.
    pub event: Event,
    /// How a frame's head matches the dictionary; nothing else has a standing.
    pub standing: Option<Standing>,
    /// The verdict on the command before, which this report decides.
    pub verdict: Option<Verdict>,
    /// A frame of a type of 128 or more that answers no command.
    pub stray: bool,
}

impl SeenEvent {
    /// What stands where there was no report.
    pub(crate) fn nothing() -> Self {
        SeenEvent {
            event: Event {
                span: Span { first: 0, past: 0 },
                kind: EventKind::Idle,
            },
            standing: None,
            verdict: None,
            stray: false,
        }
    }

    /// The same as it is handed out; a frame's piece borrows `octets`.
    pub fn with_octets<'a>(self, octets: &'a [u8]) -> Seen<'a>
        ensures only_line { shown result ≡ found octets.now self }
        ensures either_line { (line : Line) → shown_on (Some line) result ≡ found_on (Some line) octets.now self }
    {
        Seen {
            piece: self.event.with_octets(octets),
            standing: self.standing,
            verdict: self.verdict,
            stray: self.stray,
        }
    }
}
