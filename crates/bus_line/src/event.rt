//! A report without the octets of a frame.

ghost use Rattle.std.specs.Prelude.{◌≡◌};
ghost use Rattle.bus_line.specs.Shown.{report_of, reported};

use crate::cause::Cause;
use crate::piece::Piece;
use bus_bits::Span;

/// What a report is (ISO/IEC 13239, frame structure).
#[derive(Clone, Copy, Debug, PartialEq, Eq)]
pub enum EventKind {
    /// A frame with a good check.
    Frame,
    /// A piece between two flags that is no frame, and why (invalid frame).
    Damaged(Cause),
    /// A piece between two flags with more data than the longest frame and its check.
    Overlong,
    /// A piece that seven 1 bits in a row ended before a flag did (frame abortion).
    Abort,
    /// Fifteen 1 bits in a row: the line is idle. It is reported once, however long that lasts.
    Idle,
}

/// One report without the octets of a frame, which
/// [`LineDecoder::octets`](crate::LineDecoder::octets) lends.
#[derive(Clone, Copy, Debug, PartialEq, Eq)]
pub struct Event {
    /// The places of its bits, without the flags or the abort that bound a piece; of an idle line those
    /// of the fifteen.
    pub span: Span,
    /// What the report is.
    pub kind: EventKind,
}

impl Event {
    /// The same report; if it is a frame, with these octets.
    pub fn with_octets<'a>(self, octets: &'a [u8]) -> Piece<'a>
        ensures { report_of result ≡ reported octets.now self }
    {
        let span = self.span;
        match self.kind {
            EventKind::Frame => Piece::Frame { span, octets },
            EventKind::Damaged(cause) => Piece::Damaged { span, cause },
            EventKind::Overlong => Piece::Overlong { span },
            EventKind::Abort => Piece::Abort { span },
            EventKind::Idle => Piece::Idle { span },
        }
    }
}
