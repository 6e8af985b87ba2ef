//! Worked arrivals on two lines with a clock each: what is seen, the end and the tally, however they are cut.

ghost use Rattle.std.specs.Prelude.{◌<◌, ◌-◌, ◌^◌};

mod blocks;
mod rests;
mod runs;
mod samples;
mod scans;

use crate::expect::{holds, same};
use bus_clocks::{Arrival, TwoClockAnalyser};
use bus_dictionary::Dictionary;
use bus_fcs::{BitCheck, Check, OctetCheck};
use bus_rows::pair_row_of;
use bus_seen::{push_counts, push_pair_ending, push_seen_on};
use bus_watch::{FeedFault, Line, PairSink, PairUsage, Seen, SinkRefused};
use std::alloc::Global;
use std::process::Abort;

/// Calls and replies, within forty bits.
const CALLS: &str = "version = 2
[[frame]]
type = 0
name = \"call\"
length = 0
answered = true
window = 40
[[frame]]
type = 128
name = \"reply\"
length = 0
";

const CALL: &str = "flag call flag";

const REPLY: &str = "flag reply flag";

/// How many bits the first line of a row has.
const LENGTH: usize = 200;

/// The name of a row. Then how bits arrive: so many of the first line, then so many of the second, and this so many
/// times. After these turns come the rest of the first line and that of the second. Then the words of the first line,
/// which goes on with ones, those of the second, and what is seen. Behind `@` is what is open or pending at the end,
/// and the verdicts on station 16.
///
/// The reply that is broken off has its first bit at place 68, and its last one at place 87.
const CLOCK_ROWS: &str = "\
    in turn, as with one clock # 1 1 200 # \
        flag call flag | ones-57 111 flag reply flag ones-57 11111111111111111111111111 => \
        0 15 idle on 2; 8 49 frame 108300fde5 station 16 type 0 on 1; 57 72 idle on 1; \
        68 109 frame 108380f561 station 16 type 128, answered 8 49 station 16 type 0 on 2; 117 132 idle on 2 \
        @ answered 1\n\
    the second clock runs while the reply is sent # 60 0 1, 1 1 57 # flag call flag | flag reply flag => \
        8 49 frame 108300fde5 station 16 type 0 on 1; 57 72 idle on 1; \
        68 109 frame 108380f561 station 16 type 128, answered 8 49 station 16 type 0 on 2 @ answered 1\n\
    it stops for eighty places within the frame # 60 0 1, 1 1 28, 80 0 1, 1 1 29 # \
        flag call flag | flag reply flag => \
        8 49 frame 108300fde5 station 16 type 0 on 1; 57 72 idle on 1; \
        68 189 frame 108380f561 station 16 type 128, answered 8 49 station 16 type 0 on 2 @ answered 1\n\
    it is quicker: 51 bits in 50 places # 61 2 1, 1 1 49, 1 2 1, 1 1 4 # flag call flag | flag reply flag => \
        8 49 frame 108300fde5 station 16 type 0 on 1; 57 72 idle on 1; \
        67 108 frame 108380f561 station 16 type 128, answered 8 49 station 16 type 0 on 2 @ answered 1\n\
    it is slower: 50 bits in 51 places # 60 0 1, 1 1 50, 2 1 1, 1 1 6 # flag call flag | flag reply flag => \
        8 49 frame 108300fde5 station 16 type 0 on 1; 57 72 idle on 1; \
        68 109 frame 108380f561 station 16 type 128, answered 8 49 station 16 type 0 on 2 @ answered 1\n\
    the first clock stands while the reply comes # 66 57 1 # flag call flag | flag reply flag => \
        8 49 frame 108300fde5 station 16 type 0 on 1; \
        65 66 frame 108380f561 station 16 type 128, answered 8 49 station 16 type 0 on 2; 57 72 idle on 1 \
        @ answered 1\n\
    the last place of the window # 81 0 1, 1 1 57 # flag call flag | flag reply flag => \
        8 49 frame 108300fde5 station 16 type 0 on 1; 57 72 idle on 1; \
        89 130 frame 108380f561 station 16 type 128, answered 8 49 station 16 type 0 on 2 @ answered 1\n\
    one place past the window # 82 0 1, 1 1 57 # flag call flag | flag reply flag => \
        8 49 frame 108300fde5 station 16 type 0 on 1; 57 72 idle on 1; \
        90 131 frame 108380f561 station 16 type 128, late 8 49 station 16 type 0 on 2 @ late 1\n\
    the second line's bits before the first's # 0 57 1 # flag call flag | flag reply flag => \
        0 1 frame 108380f561 station 16 type 128, stray on 2; \
        8 49 frame 108300fde5 station 16 type 0 on 1; 57 72 idle on 1 @ pending 8 49 station 16 type 0\n\
    a reply that is broken off # 60 0 1, 1 1 28 # flag call flag | flag 00001000 11000001 0000 => \
        8 49 frame 108300fde5 station 16 type 0 on 1; 57 72 idle on 1 \
        @ begun 68 88 on 2; pending 8 49 station 16 type 0";

/// The bits of words.
fn bits_of(rt: &impl Abort, alloc: Global, words: &str) -> Vec<bool> {
    bus_rows::bits_of(alloc, words).expect(rt, "memory")
}

/// The next bits of a line arrive, as far as it has any.
fn push_bits<'a>(
    rt: &impl Abort,
    arrivals: &mut Vec<Arrival>,
    line: Line,
    bits: &'a [bool],
    count: usize,
) -> &'a [bool] {
    let (now, rest) = bits.split_at(count.min(bits.len()));
    for bit in now {
        arrivals.push((line, *bit)).expect(rt, "memory");
    }
    rest
}

/// A number of a turn.
fn number_of(rt: &impl Abort, word: Option<&str>) -> usize {
    word.expect(rt, "a number")
        .parse::<usize>()
        .expect(rt, "a number")
}

/// The bits of two lines as they arrive in these turns, and then the rest of the first and of the second.
fn arrivals_of(
    rt: &impl Abort,
    alloc: Global,
    mut first: &[bool],
    mut second: &[bool],
    turns: &str,
) -> Vec<Arrival> {
    let mut arrivals = Vec::new(alloc);
    for turn in turns.split(',') {
        let mut words = turn.split_whitespace();
        let one = number_of(rt, words.next());
        let other = number_of(rt, words.next());
        for _ in 0..number_of(rt, words.next()) {
            first = push_bits(rt, &mut arrivals, Line::First, first, one);
            second = push_bits(rt, &mut arrivals, Line::Second, second, other);
        }
    }
    push_bits(rt, &mut arrivals, Line::First, first, first.len());
    push_bits(rt, &mut arrivals, Line::Second, second, second.len());
    arrivals
}

/// The bits of these words, as they arrive in these turns; the first line goes on with ones.
fn arrivals_in(
    rt: &impl Abort,
    alloc: Global,
    first: &str,
    second: &str,
    turns: &str,
) -> Vec<Arrival> {
    let mut first = bits_of(rt, alloc, first);
    first.resize(LENGTH, true).expect(rt, "memory");
    let second = bits_of(rt, alloc, second);
    arrivals_of(rt, alloc, &first, &second, turns)
}

/// An analyser of calls and replies, with a history of two frames.
fn analyser<C: Check>(rt: &impl Abort, alloc: Global) -> TwoClockAnalyser<C> {
    let dictionary = Dictionary::read(alloc, CALLS).expect(rt, "a dictionary");
    TwoClockAnalyser::new(alloc, dictionary, 2, 0).expect(rt, "an analyser")
}

/// A bit is pushed, and what is seen at it comes after what the text has.
fn push<C: Check>(
    rt: &impl Abort,
    analyser: &mut TwoClockAnalyser<C>,
    arrival: Arrival,
    text: &mut String,
) {
    let (line, bit) = arrival;
    if let Some(seen) = analyser.push(line, bit).expect(rt, "a place") {
        push_seen_on(text, line, &seen).expect(rt, "text");
    }
}

/// What is seen of arrivals that are pushed one by one.
fn pushed<C: Check>(
    rt: &impl Abort,
    alloc: Global,
    analyser: &mut TwoClockAnalyser<C>,
    arrivals: &[Arrival],
) -> String {
    let mut text = String::new(alloc);
    for arrival in arrivals {
        push(rt, analyser, *arrival, &mut text);
    }
    text
}

/// Collects the texts of the reports that it is offered, and refuses one of them, counted from 1.
#[derive(Drop)]
struct Collector {
    text: String,
    refuses: u64,
    count: u64,
    refusals: u64,
    /// Memory was refused for a text.
    lacks: bool,
}

impl Collector {
    fn new(alloc: Global, refuses: u64) -> Self {
        Collector {
            text: String::new(alloc),
            refuses,
            count: 0,
            refusals: 0,
            lacks: false,
        }
    }
}

impl PairSink for Collector {
    ghost use Rattle.std.specs.Prelude.{None};

    ghost sink = { record { taken = λ s. None; room = λ s. None; refusals = λ s. s.refusals } };

    fn refused(&self) -> u64 {
        self.refusals
    }

    fn take(&mut self, line: Line, seen: &Seen<'_>) -> Result<(), SinkRefused> {
        self.count = self.count.saturating_add(1);
        if self.count == self.refuses {
            self.refusals += 1;
            return Err(SinkRefused);
        }
        if push_seen_on(&mut self.text, line, seen).is_err() {
            self.lacks = true;
        }
        Ok(())
    }
}

/// FeedAfter arrivals to a sink whose count of refusals has room for one more.
fn feed<C: Check>(
    rt: &impl Abort,
    analyser: &mut TwoClockAnalyser<C>,
    arrivals: &[Arrival],
    sink: &mut Collector,
) -> Result<(), FeedFault> {
    assert!(rt; sink.refused() < u64::MAX);
    analyser.feed(arrivals, sink)
}

/// What is open or pending at the end, and the verdicts on station 16; there are none on station 17.
fn standing<C: Check>(rt: &impl Abort, alloc: Global, analyser: &TwoClockAnalyser<C>) -> String {
    let mut text = String::new(alloc);
    push_pair_ending(&mut text, analyser.ending()).expect(rt, "text");
    push_counts(&mut text, analyser.tally(16)).expect(rt, "text");
    push_counts(&mut text, analyser.tally(17)).expect(rt, "text");
    text
}

/// The name of a row, its arrivals, and what is wanted of them.
#[derive(Drop)]
struct ClockRow<'a> {
    name: &'a str,
    arrivals: Vec<Arrival>,
    want: &'a str,
    standing: &'a str,
}

fn clock_row<'a>(rt: &impl Abort, alloc: Global, line: &'a str) -> ClockRow<'a> {
    let (name, rest) = line.split_once('#').expect(rt, "a name");
    let (turns, rest) = rest.split_once('#').expect(rt, "turns");
    let row = pair_row_of(rest).expect(rt, "a row");
    ClockRow {
        name,
        arrivals: arrivals_in(rt, alloc, row.first, row.second, turns),
        want: row.want,
        standing: row.standing,
    }
}

fn check_row<C: Check>(rt: &impl Abort, alloc: Global, row: &ClockRow<'_>) {
    let mut one_by_one = analyser::<C>(rt, alloc);
    let text = pushed(rt, alloc, &mut one_by_one, &row.arrivals);
    same(rt, text.as_str(), row.want, row.name);
    let text = standing(rt, alloc, &one_by_one);
    same(rt, text.as_str(), row.standing, row.name);
    for cut in 0..=row.arrivals.len() {
        if cut % 8 == 0 {
            check_cut::<C>(rt, alloc, row, cut, one_by_one.usage());
        }
    }
}

/// The arrivals of a row, fed in two lists.
fn check_cut<C: Check>(
    rt: &impl Abort,
    alloc: Global,
    row: &ClockRow<'_>,
    cut: usize,
    usage: PairUsage,
) {
    let case = format_args!("{}, cut at {cut}", row.name);
    let (front, rest) = row.arrivals.split_at_checked(cut).expect(rt, "a cut");
    let mut fed = analyser::<C>(rt, alloc);
    let mut sink = Collector::new(alloc, 0);
    feed(rt, &mut fed, front, &mut sink).expect(rt, "room");
    feed(rt, &mut fed, rest, &mut sink).expect(rt, "room");
    same(rt, sink.text.as_str(), row.want, &case);
    same(rt, fed.usage(), usage, &case);
    holds(rt, !sink.lacks, &case);
}

/// Each row, pushed and fed in two lists, with both checks.
#[test]
fn rows_of_two_clocks(rt: HostRuntime) {
    let alloc = rt.alloc();
    for line in CLOCK_ROWS.lines() {
        let row = clock_row(&rt, alloc, line);
        check_row::<BitCheck>(&rt, alloc, &row);
        check_row::<OctetCheck>(&rt, alloc, &row);
    }
}
