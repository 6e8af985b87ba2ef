//! What is seen, as a line of text.

use crate::standing::push_break;
use bus_dictionary::Standing;
use bus_line::{Cause, Piece, Span};
use bus_pairing::{Line, Outcome, Seen, Verdict};
use std::alloc::{AllocError, Global};

fn outcome_word(outcome: Outcome) -> &'static str {
    match outcome {
        Outcome::Answered => "answered",
        Outcome::Missing => "missing",
        Outcome::Spoilt => "spoilt",
        Outcome::Late => "late",
    }
}

fn piece_word(piece: &Piece) -> &'static str {
    match piece {
        Piece::Frame { .. } => "frame",
        Piece::Damaged { cause, .. } => match cause {
            Cause::Unstuffed => "unstuffed",
            Cause::Short => "short",
            Cause::Unaligned => "unaligned",
            Cause::Fcs => "fcs",
        },
        Piece::Overlong { .. } => "overlong",
        Piece::Abort { .. } => "abort",
        Piece::Idle { .. } => "idle",
    }
}

fn push_standing(text: &mut String, standing: Standing) -> Result<(), AllocError> {
    match standing {
        Standing::OtherControl { station, control } => {
            write!(text, " station {station} control {control}")
        }
        Standing::Untyped { station } => write!(text, " station {station} untyped"),
        Standing::Unknown { station, ftype } => {
            write!(text, " station {station} type {ftype} unknown")
        }
        Standing::WrongLength { station, ftype } => {
            write!(text, " station {station} type {ftype} length")
        }
        Standing::Known { station, ftype } => write!(text, " station {station} type {ftype}"),
    }
}

fn push_verdict(text: &mut String, verdict: Verdict) -> Result<(), AllocError> {
    let outcome = outcome_word(verdict.outcome);
    let (first, past) = (verdict.span.first, verdict.span.past);
    let (station, ftype) = (verdict.station, verdict.ftype);
    write!(
        text,
        ", {outcome} {first} {past} station {station} type {ftype}"
    )
}

/// What is seen, after what the text has.
pub fn push_seen(text: &mut String, seen: &Seen) -> Result<(), AllocError> {
    let word = piece_word(&seen.piece);
    let Span { first, past } = seen.piece.span();
    push_break(text)?;
    write!(text, "{first} {past} {word}")?;
    if let Piece::Frame { octets, .. } = seen.piece {
        text.push(' ')?;
        for octet in octets {
            write!(text, "{octet:02x}")?;
        }
    }
    if let Some(standing) = seen.standing {
        push_standing(text, standing)?;
    }
    if let Some(verdict) = seen.verdict {
        push_verdict(text, verdict)?;
    }
    if seen.stray {
        text.push_str(", stray")?;
    }
    Ok(())
}

/// What is seen on a line, after what the text has.
pub fn push_seen_on(text: &mut String, line: Line, seen: &Seen<'_>) -> Result<(), AllocError> {
    push_seen(text, seen)?;
    text.push_str(match line {
        Line::First => " on 1",
        Line::Second => " on 2",
    })
}
