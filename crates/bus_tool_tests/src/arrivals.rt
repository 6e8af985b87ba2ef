//! Captures of two lines with a clock each.

use crate::expect::same;
use crate::worked::{
    CALL_ON_FIRST, REPLY_ON_SECOND, TWO_LINES_REPORT, TWO_LINES_TEXT, joined, of_text, run_over,
};
use bus_rows::CALLS;
use bus_tool::{Lines, Options};
use std::alloc::{AllocError, Global};

/// The text of two lines whose bits arrive in turn, first one of the first line.
fn in_turn(alloc: Global, first: &[&str], second: &[&str]) -> Result<Vec<u8>, AllocError> {
    let first = joined(alloc, first)?;
    let second = joined(alloc, second)?;
    let mut capture = Vec::new(alloc);
    for (bit, other) in first.iter().zip(second.iter()) {
        capture.push(*bit)?;
        capture.push(if *other == b'0' { b'o' } else { b'i' })?;
    }
    Ok(capture)
}

/// They are listed and checked as with one clock.
#[test]
fn bits_in_turn(rt: HostRuntime) {
    let capture = in_turn(rt.alloc(), &CALL_ON_FIRST, &REPLY_ON_SECOND).expect(&rt, "memory");
    for (checks, text) in [(false, TWO_LINES_TEXT), (true, TWO_LINES_REPORT)] {
        let options = Options {
            lines: Lines::Arrivals,
            ..of_text(Some(CALLS))
        };
        let case = format_args!("arrivals, checks: {checks}");
        let mut reader = capture.as_slice();
        let mut out = Vec::new(rt.alloc());
        let ending = run_over(checks, rt.alloc(), &options, &mut reader, &mut out);
        same(&rt, ending.is_ok(), true, &case);
        same(&rt, out.as_slice(), text.as_bytes(), &case);
    }
}
