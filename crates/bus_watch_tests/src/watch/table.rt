//! Worked lists, and what is seen of their bits by calls of several sizes.

use super::{bits_of, new_analyser};
use crate::expect::same;
use bus_bits::bits_number;
use bus_fcs::Check;
use bus_rows::row_of;
use bus_seen::{Writing, push_ending, push_seen};
use bus_watch::Analyser;
use std::alloc::Global;
use std::process::Abort;

/// A worked list.
#[derive(Drop)]
pub(super) struct WorkedList<'a> {
    /// The text of its dictionary.
    pub(super) dictionary: &'static str,
    pub(super) bits: Vec<bool>,
    /// What is seen of the bits, and what is open or pending at their end.
    pub(super) want: &'a str,
}

impl WorkedList<'_> {
    /// A new analyser for the list, with a history of sixteen frames.
    pub(super) fn analyser<C: Check>(&self, rt: &impl Abort, alloc: Global) -> Analyser<C> {
        new_analyser(rt, alloc, self.dictionary, 16, 0)
    }
}

/// The list of a line of a table.
pub(super) fn worked_list<'a>(rt: &impl Abort, alloc: Global, line: &'a str) -> WorkedList<'a> {
    let row = row_of(line).expect(rt, "a row");
    WorkedList {
        dictionary: row.dictionary,
        bits: bits_of(rt, alloc, row.words),
        want: row.want,
    }
}

/// What is seen of bits that are pushed one by one, and the ending.
pub(super) fn pushed<C: Check>(
    rt: &impl Abort,
    alloc: Global,
    analyser: &mut Analyser<C>,
    bits: &[bool],
) -> String {
    let mut text = String::new(alloc);
    for bit in bits {
        if let Some(seen) = analyser.push(*bit).expect(rt, "a place") {
            push_seen(&mut text, &seen).expect(rt, "text");
        }
    }
    push_ending(&mut text, analyser.ending()).expect(rt, "text");
    text
}

/// The same where up to `size` bits are scanned with each call.
pub(super) fn scanned<C: Check>(
    rt: &impl Abort,
    alloc: Global,
    analyser: &mut Analyser<C>,
    bits: &[bool],
    size: usize,
) -> String {
    let mut text = String::new(alloc);
    let mut rest = bits;
    for _ in bits {
        if rest.is_empty() {
            break;
        }
        let (front, behind) = rest.split_at(rest.len().min(size));
        assert!(rt; front.len() <= 48, "bits of eight octets");
        let octets = bits_number(front).to_le_bytes();
        let taken = analyser.scan(&octets, 0, front.len(), &mut Writing, &mut text);
        same(rt, taken, front.len(), "bits scanned");
        rest = behind;
    }
    push_ending(&mut text, analyser.ending()).expect(rt, "text");
    text
}
