//! Commands and replies among the reports of a decoder of your own, as an HDLC controller.

ghost use Rattle.std.specs.Prelude.{◌↔◌, IfErr, IsTrue, MatchResult, length, take};
ghost use Rattle.bus_pairing.specs.Conversation.{IsWhole};
ghost use Rattle.bus_examples.specs.Pairing.{IsRefused, Takes, taken_of};

use arrayvec::ArrayVec;
use bus_line::{Event, EventKind};
use bus_pairing::{Conversation, Line};

/// What a decoder reports.
#[derive(Drop)]
pub struct Received {
    /// On which of two lines; `None` where there is one.
    pub line: Option<Line>,
    pub event: Event,
    /// Those of a frame, from the address through the check.
    pub octets: ArrayVec<u8, 258>,
}

/// Why reports were not taken: those before number `taken` were.
#[derive(Clone, Copy, Debug, PartialEq, Eq)]
pub enum PairFault {
    /// This report is a frame of fewer than four octets.
    ShortFrame { taken: usize },
    /// The counters of the conversation have no room for this report.
    NoRoom { taken: usize },
}

/// Whether a frame has its address, its control and its check.
fn is_whole(kind: EventKind, octets: &[u8]) -> bool
    ensures { IsTrue result ↔ IsWhole kind octets.now }
{
    match kind {
        EventKind::Frame => octets.len() >= 4,
        EventKind::Damaged(_) | EventKind::Overlong | EventKind::Abort | EventKind::Idle => true,
    }
}

/// Pairs commands with replies among these reports, in the order in which they are decided. The conversation then has
/// the verdicts of each station, the last frames and the command that waits.
///
/// # Errors
///
/// - `ShortFrame`: a frame has fewer than four octets.
/// - `NoRoom`: the counters of the conversation are full.
pub fn pair_reports(conversation: &mut Conversation, reports: &[Received]) -> Result<(), PairFault>
    ensures takes { MatchResult result (λ _. Takes conversation.old reports.now conversation.new)
        (λ fault. Takes conversation.old (take (taken_of fault) reports.now) conversation.new) }
    ensures refused { IfErr result (λ fault. IsRefused fault reports.now conversation.new) }
{
    for (taken, report) in reports.iter().enumerate() {
        if !is_whole(report.event.kind, &report.octets) {
            return Err(PairFault::ShortFrame { taken });
        }
        if !conversation.has_room() {
            return Err(PairFault::NoRoom { taken });
        }
        conversation.add_report(report.line, report.event, &report.octets);
    }
    Ok(())
}
