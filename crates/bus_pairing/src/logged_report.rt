//! A report of a log.

ghost use Rattle.std.specs.Prelude.{◌≡◌, ◌≤◌, length};
ghost use Rattle.bus_line.specs.Ledger.{octet_count};
ghost use Rattle.bus_line.specs.Limits.{most_octets};
ghost use Rattle.bus_pairing.specs.Shown.{shown};
ghost use Rattle.bus_pairing.specs.LoggedReport.{logged_report};

use crate::seen::Seen;
use crate::verdict::Verdict;
use arrayvec::ArrayVec;
use bus_bits::Span;
use bus_dictionary::Standing;
use bus_line::{Cause, Piece};

/// A piece of a log: a [`Piece`] with a copy of a frame's octets.
#[derive(Debug, Drop)]
pub enum LoggedPiece {
    /// A frame with a good check.
    Frame {
        span: Span,
        octets: ArrayVec<u8, 258>,
    },
    /// A piece between two flags that is no frame, and why.
    Damaged {
        span: Span,
        cause: Cause,
    },
    /// A piece with more data than the longest frame and its check.
    Overlong {
        span: Span,
    },
    /// A piece that seven 1 bits ended.
    Abort {
        span: Span,
    },
    /// The first fifteen 1 bits of an idle line.
    Idle {
        span: Span,
    },
}

/// A report of a log: a [`Seen`] with a copy of a frame's octets.
#[derive(Debug, Drop)]
pub struct LoggedReport {
    /// The report itself, with its bit places.
    pub piece: LoggedPiece,
    /// How a frame stands to the dictionary; nothing else has a standing.
    pub standing: Option<Standing>,
    /// The verdict on the command before, which this report decides.
    pub verdict: Option<Verdict>,
    /// A frame of a type of 128 or more that answers no command.
    pub stray: bool,
}

/// A copy of a frame's octets.
fn copied(octets: &[u8]) -> ArrayVec<u8, 258>
    requires { length octets.now ≤ most_octets }
    ensures { result.items ≡ octets.now }
{
    let mut copy = ArrayVec::new();
    if copy.try_extend_from_slice(octets).is_err() {
        unreachable!();
    }
    copy
}

impl LoggedReport {
    /// A copy of what is seen.
    pub fn of(seen: &Seen<'_>) -> Self
        requires { octet_count (shown seen.now).report ≤ most_octets }
        ensures { logged_report result ≡ shown seen.now }
    {
        let piece = match seen.piece {
            Piece::Frame { span, octets } => LoggedPiece::Frame {
                span,
                octets: copied(octets),
            },
            Piece::Damaged { span, cause } => LoggedPiece::Damaged { span, cause },
            Piece::Overlong { span } => LoggedPiece::Overlong { span },
            Piece::Abort { span } => LoggedPiece::Abort { span },
            Piece::Idle { span } => LoggedPiece::Idle { span },
        };
        LoggedReport {
            piece,
            standing: seen.standing,
            verdict: seen.verdict,
            stray: seen.stray,
        }
    }
}
