//! Reports as texts.

use bus_line::{Cause, Piece};
use std::process::Abort;

/// Appends a report: its places, its kind, and its octets or cause.
pub(super) fn push_report(rt: &impl Abort, text: &mut String, piece: &Piece) {
    let span = piece.span();
    write!(text, "{} {} ", span.first, span.past).expect(rt, "memory");
    match piece {
        Piece::Frame { octets, .. } => push_frame(rt, text, octets),
        Piece::Damaged { cause, .. } => text.push_str(damaged(*cause)).expect(rt, "memory"),
        Piece::Overlong { .. } => text.push_str("overlong").expect(rt, "memory"),
        Piece::Abort { .. } => text.push_str("abort").expect(rt, "memory"),
        Piece::Idle { .. } => text.push_str("idle").expect(rt, "memory"),
    }
}

fn push_frame(rt: &impl Abort, text: &mut String, octets: &[u8]) {
    text.push_str("frame ").expect(rt, "memory");
    for octet in octets {
        write!(text, "{octet:02x}").expect(rt, "memory");
    }
}

fn damaged(cause: Cause) -> &'static str {
    match cause {
        Cause::Unstuffed => "damaged unstuffed",
        Cause::Short => "damaged short",
        Cause::Unaligned => "damaged unaligned",
        Cause::Fcs => "damaged fcs",
    }
}
