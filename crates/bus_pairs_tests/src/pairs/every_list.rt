//! Every short list of pairs: what is seen of either line is the reports of the whole list of its bits.

ghost use Rattle.std.specs.Prelude.{◌-◌, ◌<◌};

use super::{bits_of, new_analyser, pairs_of};
use crate::expect::same;
use bus_dictionary::Dictionary;
use bus_fcs::{Check, OctetCheck};
use bus_line::{OwnedPiece, Piece, reports_whole};
use bus_rows::{bits_of_pattern, octets_of};
use bus_watch::{Line, PairAnalyser, PairSink, ReportObserver, Seen, SeenEvent, SinkRefused};
use std::alloc::Global;
use std::process::Abort;

/// The bits of one line, and for each place the report that is due there.
#[derive(Drop)]
pub(super) struct Side {
    bits: Vec<bool>,
    due: Vec<Option<OwnedPiece>>,
}

/// The place of the bit that decides a report: the last of the flag, of the seven ones or of the fifteen.
fn due_place(piece: &Piece) -> usize {
    let span = piece.span();
    let place = match piece {
        Piece::Abort { .. } => span.past.saturating_add(6),
        Piece::Idle { .. } => span.first.saturating_add(14),
        _ => span.past.saturating_add(7),
    };
    place as usize
}

/// A place for the report that is due at each bit.
fn places_of(rt: &impl Abort, alloc: Global, bits: &[bool]) -> Vec<Option<OwnedPiece>> {
    let mut due = Vec::new(alloc);
    for _ in bits {
        due.push(None).expect(rt, "memory");
    }
    due
}

/// The reports of the whole list of these bits, where a frame has at most `longest` octets and its check.
pub(super) fn side_of(rt: &impl Abort, alloc: Global, bits: Vec<bool>, longest: usize) -> Side {
    assert!(rt;
        bits.len() <= 10000 && 3 <= longest && longest <= 256,
        "a list"
    );
    let mut due = places_of(rt, alloc, &bits);
    for owned in reports_whole(alloc, &bits, longest).expect(rt, "memory") {
        let place = due_place(&owned.as_piece());
        *due.get_mut(place).expect(rt, "a place") = Some(owned);
    }
    Side { bits, due }
}

/// A report, and the line that it is of.
type OnLine<'a> = (Line, Piece<'a>);

/// Appends the report of a line that is due at one place, if there is one.
fn push_due<'a>(
    rt: &impl Abort,
    all: &mut Vec<OnLine<'a>>,
    line: Line,
    due: &'a Option<OwnedPiece>,
) {
    if let Some(owned) = due {
        all.push((line, owned.as_piece())).expect(rt, "memory");
    }
}

/// The reports of both lines by due place, the first line's first.
fn merged<'a>(
    rt: &impl Abort,
    alloc: Global,
    first: &'a Side,
    second: &'a Side,
) -> Vec<OnLine<'a>> {
    let mut all = Vec::new(alloc);
    for (one, other) in first.due.iter().zip(second.due.iter()) {
        push_due(rt, &mut all, Line::First, one);
        push_due(rt, &mut all, Line::Second, other);
    }
    all
}

/// Whether what was seen is the report that is due.
fn is_due(seen: &Option<Seen<'_>>, due: Option<&Option<OwnedPiece>>) -> bool {
    match (seen, due) {
        (Some(seen), Some(Some(owned))) => seen.piece == owned.as_piece(),
        (None, Some(None)) => true,
        _ => false,
    }
}

/// The first place at which pairs that are pushed decide other reports than those that are due.
pub(super) fn differing_place<C: Check>(
    rt: &impl Abort,
    analyser: &mut PairAnalyser<C>,
    first: &Side,
    second: &Side,
) -> Option<usize> {
    for (place, bit) in first.bits.iter().enumerate() {
        let other = second.bits.get(place).expect(rt, "a bit");
        let seen = analyser.push(*bit, *other).expect(rt, "a place");
        if !is_due(&seen.first, first.due.get(place))
            || !is_due(&seen.second, second.due.get(place))
        {
            return Some(place);
        }
    }
    None
}

/// Compares what it takes with the reports that are due.
#[derive(Drop)]
struct Comparing<'a> {
    due: &'a [OnLine<'a>],
    /// How many it took.
    taken: usize,
    /// One was not the next of those that are due.
    differs: bool,
}

impl PairSink for Comparing<'_> {
    ghost use Rattle.std.specs.Prelude.{None};

    ghost sink = { record { taken = λ s. None; room = λ s. None; refusals = λ s. 0 } };

    fn refused(&self) -> u64 {
        0
    }

    fn take(&mut self, line: Line, seen: &Seen<'_>) -> Result<(), SinkRefused> {
        let is_next = match self.due.get(self.taken) {
            Some((due, piece)) => *due == line && *piece == seen.piece,
            None => false,
        };
        self.differs = self.differs || !is_next;
        self.taken = self.taken.saturating_add(1);
        Ok(())
    }
}

impl ReportObserver<u64> for Comparing<'_> {
    ghost use Rattle.std.specs.Prelude.{⊤};

    ghost observes = { λ d l x ss m y. ⊤ };

    ghost has_room = { λ l more. ⊤ };

    /// Counts the reports in what it writes to.
    fn observe(
        &mut self,
        line: Option<Line>,
        seen_event: &SeenEvent,
        octets: &[u8],
        dictionary: &Dictionary,
        out: &mut u64,
    ) {
        *out = out.saturating_add(1);
        let seen = seen_event.with_octets(octets);
        let is_taken = line.is_some_and(|line| self.take(line, &seen).is_ok());
        self.differs = !is_taken || self.differs;
    }

    ghost observes_none = { λ d l x. tt };

    ghost observes_more = { λ d k l m x y z ss ts a b. tt };

    ghost has_less = { λ l more less h r. tt };
}

/// Scans so many pairs from one on to an observer.
fn scan_part<C: Check>(
    rt: &impl Abort,
    alloc: Global,
    analyser: &mut PairAnalyser<C>,
    sides: [&Side; 2],
    from: usize,
    count: usize,
    observer: &mut Comparing<'_>,
) -> u64 {
    let bits = octets_from(rt, alloc, &sides[0].bits, from);
    let others = octets_from(rt, alloc, &sides[1].bits, from);
    assert!(rt; bits.len() <= 10000 && others.len() <= 10000);
    assert!(rt; count <= 8 * bits.len() && count <= 8 * others.len());
    let mut observed = 0;
    let taken = analyser.scan(&bits, &others, count, observer, &mut observed);
    same(rt, taken, count, "how many pairs are scanned");
    observed
}

/// Whether the pairs, scanned from octets of either line in two calls, are shown as the merged reports in order and
/// nothing else.
pub(super) fn reports<C: Check>(
    rt: &impl Abort,
    alloc: Global,
    analyser: &mut PairAnalyser<C>,
    first: &Side,
    second: &Side,
) -> bool {
    let due = merged(rt, alloc, first, second);
    let mut observer = Comparing {
        due: &due,
        taken: 0,
        differs: false,
    };
    let third = first.bits.len() / 3;
    let rest = first.bits.len().saturating_sub(third);
    let sides = [first, second];
    let one = scan_part(rt, alloc, analyser, sides, 0, third, &mut observer);
    let other = scan_part(rt, alloc, analyser, sides, third, rest, &mut observer);
    let observed = one.saturating_add(other);
    !observer.differs && observer.taken == due.len() && observed == due.len() as u64
}

/// These bits from one on in octets, the first the lowest.
fn octets_from(rt: &impl Abort, alloc: Global, bits: &[bool], from: usize) -> Vec<u8> {
    octets_of(alloc, bits.get(from..).expect(rt, "a bit")).expect(rt, "memory")
}

/// Whether the pairs, all fed at once, tell the merged reports in order and nothing else.
pub(super) fn tells<C: Check>(
    rt: &impl Abort,
    alloc: Global,
    analyser: &mut PairAnalyser<C>,
    first: &Side,
    second: &Side,
) -> bool {
    let pairs = pairs_of(rt, alloc, &first.bits, &second.bits);
    let due = merged(rt, alloc, first, second);
    let mut sink = Comparing {
        due: &due,
        taken: 0,
        differs: false,
    };
    analyser.feed(&pairs, &mut sink).expect(rt, "room");
    !sink.differs && sink.taken == due.len()
}

/// An analyser without a dictionary.
fn plain_analyser(rt: &impl Abort, alloc: Global) -> PairAnalyser<OctetCheck> {
    new_analyser(rt, alloc, Dictionary::empty(alloc), 1)
}

/// The first of the second line's lists beside which the two lines differ from their merged reports.
fn differing_second(
    rt: &impl Abort,
    alloc: Global,
    first: &Side,
    seconds: &[Side],
) -> Option<usize> {
    for (pattern, second) in seconds.iter().enumerate() {
        let mut pushed = plain_analyser(rt, alloc);
        let mut fed = plain_analyser(rt, alloc);
        if differing_place(rt, &mut pushed, first, second).is_some()
            || !tells(rt, alloc, &mut fed, first, second)
        {
            return Some(pattern);
        }
    }
    None
}

/// Each list of `count` bits after these.
fn sides(rt: &impl Abort, alloc: Global, before: &str, count: u32) -> Vec<Side> {
    let before = bits_of(rt, alloc, before);
    let patterns: u32 = 1 << count.min(16);
    let mut sides = Vec::new(alloc);
    for pattern in 0..patterns {
        let bits = bits_of_pattern(alloc, &before, pattern, count).expect(rt, "memory");
        sides
            .push(side_of(rt, alloc, bits, 256))
            .expect(rt, "memory");
    }
    sides
}

/// Every list of `count` pairs after these bits of the two lines.
fn none_differs(rt: &impl Abort, alloc: Global, first: &str, second: &str, count: u32) {
    let firsts = sides(rt, alloc, first, count);
    let seconds = sides(rt, alloc, second, count);
    for (pattern, side) in firsts.iter().enumerate() {
        let found = differing_second(rt, alloc, side, &seconds);
        same(
            rt,
            found,
            None,
            format_args!("{count} pairs, {pattern} behind {first}"),
        );
    }
}

/// Words of two lines, as many bits on both.
///
/// A flag or an abort mark ends a short piece, on the second line a bit later. A frame on either line may end at one
/// place; so may a frame on the first line, and on the second fifteen ones. Last, fifteen ones or a flag, on the second
/// line two bits later.
const BEHIND: &str = "\
    flag 000 0111 | flag 0000 011\n\
    flag call 01111 | flag reply 01111\n\
    flag call 01111 | short 000000000000000000 111111111111\n\
    0 1111111111111 | 000 11111111111";

/// Behind a flag on both lines, every list of at most seven pairs.
#[test]
fn seven_pairs_behind_flags(rt: HostRuntime) {
    for count in 0..=7 {
        none_differs(&rt, rt.alloc(), "flag", "flag", count);
    }
}

/// And every list of eight.
#[test]
fn eight_pairs_behind_flags(rt: HostRuntime) {
    none_differs(&rt, rt.alloc(), "flag", "flag", 8);
}

/// Every list of at most six pairs where reports are near.
#[test]
fn six_pairs_near_reports(rt: HostRuntime) {
    for line in BEHIND.lines() {
        let (first, second) = line.split_once('|').expect(&rt, "two lines");
        for count in 0..=6 {
            none_differs(&rt, rt.alloc(), first, second, count);
        }
    }
}
