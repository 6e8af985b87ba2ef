//! Worked lists of two lines: what is seen, the end and the tally, however the pairs are cut.

ghost use Rattle.std.specs.Prelude.{◌<◌};

mod every_list;
mod limits;
mod memory;
mod random_lists;
mod runs;
mod sinks;

use crate::expect::{holds, same};
use bus_bits::bits_number;
use bus_dictionary::Dictionary;
use bus_fcs::{BitCheck, Check, OctetCheck};
use bus_rows::{CALLS, DAMAGE, FRAMES, PairRow, pair_row_of, row_of};
use bus_seen::{Writing, push_counts, push_ending, push_pair_ending, push_seen, push_seen_on};
use bus_watch::{Ending, FeedFault, Line, PairAnalyser, PairSink, PairUsage, Seen, SinkRefused};
use std::alloc::Global;
use std::process::Abort;

/// The dictionary of a text.
fn read(rt: &impl Abort, alloc: Global, text: &str) -> Dictionary {
    Dictionary::read(alloc, text).expect(rt, "a dictionary")
}

/// The bits of words.
fn bits_of(rt: &impl Abort, alloc: Global, words: &str) -> Vec<bool> {
    bus_rows::bits_of(alloc, words).expect(rt, "memory")
}

/// The words of two lists of bits, of which the shorter goes on with ones, and what is seen of them with the example
/// dictionary of calls. Behind `@` is what is open or pending at the end, and the verdicts on station 16.
///
/// The reply comes on the second line, after the call; on the first line it answers nothing. Both end at one place: the
/// first line's comes first. A call on the second line waits for nothing, and damage on it spoils a call on the first.
/// A frame of the first line between the two leaves the call without an answer. Last the call waits still.
const PAIR_ROWS: &str = "\
    flag call flag | ones-57 flag reply flag => 0 15 idle on 2; \
        8 49 frame 108300fde5 station 16 type 0 on 1; 57 72 idle on 1; \
        65 106 frame 108380f561 station 16 type 128, answered 8 49 station 16 type 0 on 2 @ answered 1\n\
    flag call flag reply flag | => 0 15 idle on 2; 8 49 frame 108300fde5 station 16 type 0 on 1; \
        57 98 frame 108380f561 station 16 type 128, missing 8 49 station 16 type 0, stray on 1 @ missing 1\n\
    flag call flag | flag reply flag => 8 49 frame 108300fde5 station 16 type 0 on 1; \
        8 49 frame 108380f561 station 16 type 128, answered 8 49 station 16 type 0 on 2 @ answered 1\n\
    flag | flag call flag => 8 23 idle on 1; 8 49 frame 108300fde5 station 16 type 0 on 2 @\n\
    flag call flag | flag short short flag => 8 49 frame 108300fde5 station 16 type 0 on 1; \
        8 56 overlong, spoilt 8 49 station 16 type 0 on 2 @ spoilt 1\n\
    flag call flag notice flag | ones-57 ones-57 flag reply flag => \
        0 15 idle on 2; 8 49 frame 108300fde5 station 16 type 0 on 1; \
        57 99 frame ff83095a3b station 255 type 9, missing 8 49 station 16 type 0 on 1; \
        107 122 idle on 1; 122 163 frame 108380f561 station 16 type 128, stray on 2 @ missing 1\n\
    flag call flag 000 | => 0 15 idle on 2; 8 49 frame 108300fde5 station 16 type 0 on 1 \
        @ begun 57 60 on 1; pending 8 49 station 16 type 0";

/// Two lists of bits of one length, and their pairs.
#[derive(Drop)]
struct TwoLines {
    first: Vec<bool>,
    second: Vec<bool>,
    pairs: Vec<(bool, bool)>,
}

/// The pairs of the bits of two lines, as many on both.
fn pairs_of(rt: &impl Abort, alloc: Global, first: &[bool], second: &[bool]) -> Vec<(bool, bool)> {
    bus_rows::pairs_of(alloc, first, second).expect(rt, "memory")
}

/// The lists of these words, the shorter going on with one bit value.
fn two_lines(rt: &impl Abort, alloc: Global, first: &str, second: &str, rest: bool) -> TwoLines {
    let mut first = bits_of(rt, alloc, first);
    let mut second = bits_of(rt, alloc, second);
    let length = first.len().max(second.len());
    first.resize(length, rest).expect(rt, "memory");
    second.resize(length, rest).expect(rt, "memory");
    let pairs = pairs_of(rt, alloc, &first, &second);
    TwoLines {
        first,
        second,
        pairs,
    }
}

/// Collects the texts of what it takes, and refuses some reports, counted from 1.
#[derive(Drop)]
struct PairCollector {
    text: String,
    refuses: [u64; 2],
    count: u64,
    refusals: u64,
    /// Memory was refused for a text.
    lacks: bool,
}

impl PairCollector {
    fn new(alloc: Global, refuses: [u64; 2]) -> Self {
        PairCollector {
            text: String::new(alloc),
            refuses,
            count: 0,
            refusals: 0,
            lacks: false,
        }
    }
}

impl PairSink for PairCollector {
    ghost use Rattle.std.specs.Prelude.{None};

    ghost sink = { record { taken = λ s. None; room = λ s. None; refusals = λ s. s.refusals } };

    fn refused(&self) -> u64 {
        self.refusals
    }

    fn take(&mut self, line: Line, seen: &Seen<'_>) -> Result<(), SinkRefused> {
        self.count = self.count.saturating_add(1);
        if self.count == self.refuses[0] || self.count == self.refuses[1] {
            self.refusals += 1;
            return Err(SinkRefused);
        }
        if push_seen_on(&mut self.text, line, seen).is_err() {
            self.lacks = true;
        }
        Ok(())
    }
}

/// An analyser of a dictionary, with a history of `depth` frames.
fn new_analyser<C: Check>(
    rt: &impl Abort,
    alloc: Global,
    dictionary: Dictionary,
    depth: usize,
) -> PairAnalyser<C> {
    PairAnalyser::new(alloc, dictionary, depth, 0).expect(rt, "an analyser")
}

/// An analyser of the example dictionary of calls, with a history of two frames.
fn analyser<C: Check>(rt: &impl Abort, alloc: Global) -> PairAnalyser<C> {
    new_analyser(rt, alloc, read(rt, alloc, CALLS), 2)
}

/// FeedAfter pairs to a sink whose count of refusals has room for two more.
fn feed<C: Check>(
    rt: &impl Abort,
    analyser: &mut PairAnalyser<C>,
    pairs: &[(bool, bool)],
    sink: &mut PairCollector,
) -> Result<(), FeedFault> {
    assert!(rt; sink.refused() < u64::MAX - 1);
    analyser.feed(pairs, sink)
}

/// What is seen of pairs that are pushed one by one.
fn pushed<C: Check>(
    rt: &impl Abort,
    alloc: Global,
    analyser: &mut PairAnalyser<C>,
    pairs: &[(bool, bool)],
) -> String {
    let mut text = String::new(alloc);
    for pair in pairs {
        let seen = analyser.push(pair.0, pair.1).expect(rt, "a place");
        if let Some(first) = &seen.first {
            push_seen_on(&mut text, Line::First, first).expect(rt, "text");
        }
        if let Some(second) = &seen.second {
            push_seen_on(&mut text, Line::Second, second).expect(rt, "text");
        }
    }
    text
}

/// Scans up to `size` of these pairs with one call, and what is seen at them goes after what the text has; how many
/// these are.
fn scan_some<C: Check>(
    rt: &impl Abort,
    text: &mut String,
    analyser: &mut PairAnalyser<C>,
    first: &[bool],
    second: &[bool],
    size: u32,
) -> usize {
    let count = first.len().min(second.len()).min(size as usize);
    assert!(rt; count <= 48, "bits of eight octets");
    let one = bits_number(&first[..count]).to_le_bytes();
    let other = bits_number(&second[..count]).to_le_bytes();
    analyser.scan(&one, &other, count, &mut Writing, text)
}

/// The same where up to `size` pairs are scanned with each call.
fn scanned<C: Check>(
    rt: &impl Abort,
    alloc: Global,
    analyser: &mut PairAnalyser<C>,
    lines: &TwoLines,
    size: u32,
) -> String {
    let mut text = String::new(alloc);
    let mut first: &[bool] = &lines.first;
    let mut second: &[bool] = &lines.second;
    for _ in &lines.pairs {
        if first.is_empty() {
            break;
        }
        let taken = scan_some(rt, &mut text, analyser, first, second, size);
        first = &first[first.len().min(taken)..];
        second = &second[second.len().min(taken)..];
    }
    text
}

/// What is open or pending at the end, and the verdicts on station 16; there are none on station 17.
fn standing<C: Check>(rt: &impl Abort, alloc: Global, analyser: &PairAnalyser<C>) -> String {
    let mut text = String::new(alloc);
    push_pair_ending(&mut text, analyser.ending()).expect(rt, "text");
    push_counts(&mut text, analyser.tally(16)).expect(rt, "text");
    push_counts(&mut text, analyser.tally(17)).expect(rt, "text");
    text
}

fn check_row<C: Check>(rt: &impl Abort, alloc: Global, row: &PairRow<'_>) {
    let lines = two_lines(rt, alloc, row.first, row.second, true);
    let mut one_by_one = analyser::<C>(rt, alloc);
    let text = pushed(rt, alloc, &mut one_by_one, &lines.pairs);
    same(rt, text.as_str(), row.want, row.first);
    let text = standing(rt, alloc, &one_by_one);
    same(rt, text.as_str(), row.standing, row.first);
    for size in [1, 5, 8, 48] {
        check_scanned::<C>(rt, alloc, row, &lines, size, one_by_one.usage());
    }
    for cut in 0..=lines.pairs.len() {
        check_cut::<C>(rt, alloc, row, &lines.pairs, cut, one_by_one.usage());
    }
}

/// The pairs of a row, scanned.
fn check_scanned<C: Check>(
    rt: &impl Abort,
    alloc: Global,
    row: &PairRow<'_>,
    lines: &TwoLines,
    size: u32,
    usage: PairUsage,
) {
    let case = format_args!("{size} pairs at most a call");
    let mut by_octets = analyser::<C>(rt, alloc);
    let text = scanned(rt, alloc, &mut by_octets, lines, size);
    same(rt, text.as_str(), row.want, &case);
    let text = standing(rt, alloc, &by_octets);
    same(rt, text.as_str(), row.standing, &case);
    same(rt, by_octets.usage(), usage, &case);
}

/// The pairs of a row, fed in two lists.
fn check_cut<C: Check>(
    rt: &impl Abort,
    alloc: Global,
    row: &PairRow<'_>,
    pairs: &[(bool, bool)],
    cut: usize,
    usage: PairUsage,
) {
    let (front, rest) = pairs.split_at_checked(cut).expect(rt, "a cut");
    let mut fed = analyser::<C>(rt, alloc);
    let mut sink = PairCollector::new(alloc, [0, 0]);
    feed(rt, &mut fed, front, &mut sink).expect(rt, "room");
    feed(rt, &mut fed, rest, &mut sink).expect(rt, "room");
    let case = format_args!("cut at {cut}");
    same(rt, sink.text.as_str(), row.want, &case);
    same(rt, fed.usage(), usage, &case);
    holds(rt, !sink.lacks, &case);
}

/// Each row by calls of every kind, with both checks.
#[test]
fn rows_of_two_lines(rt: HostRuntime) {
    let alloc = rt.alloc();
    for line in PAIR_ROWS.lines() {
        let row = pair_row_of(line).expect(&rt, "a row");
        check_row::<BitCheck>(&rt, alloc, &row);
        check_row::<OctetCheck>(&rt, alloc, &row);
    }
}

/// What is seen of words on the first line where the second is silent.
fn seen_beside_silence(
    rt: &impl Abort,
    alloc: Global,
    analyser: &mut PairAnalyser<OctetCheck>,
    words: &str,
) -> String {
    let mut text = String::new(alloc);
    for bit in &bits_of(rt, alloc, words) {
        let seen = analyser.push(*bit, false).expect(rt, "a place");
        holds(rt, seen.second.is_none(), words);
        if let Some(first) = &seen.first {
            push_seen(&mut text, first).expect(rt, "text");
        }
    }
    text
}

/// A row of one line as the first of two, the second of which is silent: what is seen is the same
/// but for answers, which come on the second line alone.
fn check_first(rt: &impl Abort, alloc: Global, line: &str) {
    if line.contains("answered") || line.contains("late") {
        return;
    }
    let row = row_of(line).expect(rt, "a row");
    let dictionary = read(rt, alloc, row.dictionary);
    let mut analyser = new_analyser::<OctetCheck>(rt, alloc, dictionary, 16);
    let mut text = seen_beside_silence(rt, alloc, &mut analyser, row.words);
    let ending = analyser.ending();
    let of_first = Ending {
        begun: ending.first,
        pending: ending.pending,
    };
    push_ending(&mut text, of_first).expect(rt, "text");
    same(rt, text.as_str(), row.want, line);
    same(rt, ending.second, None, line);
}

#[test]
fn rows_of_one_line_beside_silence(rt: HostRuntime) {
    let alloc = rt.alloc();
    for line in FRAMES.lines() {
        check_first(&rt, alloc, line);
    }
    for line in DAMAGE.lines() {
        check_first(&rt, alloc, line);
    }
}
