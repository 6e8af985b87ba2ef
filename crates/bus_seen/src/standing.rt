//! What stands at the end of a list, as a line of text.

use bus_line::Span;
use bus_pairing::{Counts, Ending, PairEnding, Pending};
use std::alloc::AllocError;

/// A `; ` after what the text has.
pub(super) fn push_break(text: &mut String) -> Result<(), AllocError> {
    if text.is_empty() {
        return Ok(());
    }
    text.push_str("; ")
}

/// An open piece, of one line or on one of two.
fn push_begun(text: &mut String, begun: Span, on: &str) -> Result<(), AllocError> {
    let Span { first, past } = begun;
    push_break(text)?;
    write!(text, "begun {first} {past}{on}")
}

fn push_pending(text: &mut String, pending: Pending) -> Result<(), AllocError> {
    let (first, past) = (pending.span.first, pending.span.past);
    let (station, ftype) = (pending.station, pending.ftype);
    push_break(text)?;
    write!(
        text,
        "pending {first} {past} station {station} type {ftype}"
    )
}

/// What is open and what is pending at the end, after what the text has.
pub fn push_ending(text: &mut String, ending: Ending) -> Result<(), AllocError> {
    if let Some(begun) = ending.begun {
        push_begun(text, begun, "")?;
    }
    if let Some(pending) = ending.pending {
        push_pending(text, pending)?;
    }
    Ok(())
}

/// The same of two lines.
pub fn push_pair_ending(text: &mut String, ending: PairEnding) -> Result<(), AllocError> {
    if let Some(begun) = ending.first {
        push_begun(text, begun, " on 1")?;
    }
    if let Some(begun) = ending.second {
        push_begun(text, begun, " on 2")?;
    }
    if let Some(pending) = ending.pending {
        push_pending(text, pending)?;
    }
    Ok(())
}

/// How many verdicts there are of a kind, after what the text has; nothing where there are none.
fn push_count(text: &mut String, word: &str, count: u64) -> Result<(), AllocError> {
    if count == 0 {
        return Ok(());
    }
    push_break(text)?;
    write!(text, "{word} {count}")
}

/// The verdicts on a station, after what the text has.
pub fn push_counts(text: &mut String, counts: Counts) -> Result<(), AllocError> {
    push_count(text, "answered", counts.answered)?;
    push_count(text, "missing", counts.missing)?;
    push_count(text, "spoilt", counts.spoilt)?;
    push_count(text, "late", counts.late)
}
