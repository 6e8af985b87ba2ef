//! The places of many bits of the second line.

ghost use Rattle.std.specs.Prelude.{◌≡◌, ◌+◌, ◌-◌, ◌<◌, ◌≤◌, ℕ, List, Bool, Some, length};
ghost use Rattle.bus_bits.specs.Limits.{most_places};
ghost use Rattle.bus_line.specs.After.{After};
ghost use Rattle.bus_watch.specs.Decodes.{Stands};
ghost use Rattle.bus_clocks.specs.Internal.Stretch.{NotesMany, Opens, TakesNoted, place_after};

use crate::parted::Parted;
use bus_fcs::Check;
use bus_line::laws::reports_are;
use bus_line::{Consumed, Event, EventKind, LineDecoder, PlaceLimit};
use bus_tap::BitPlaces;
use std::cmp::min;

/// Where the bits of a block's second line stand.
#[derive(Drop)]
pub(crate) struct Standing {
    /// The place of the first bit of the first line.
    origin: u64,
    /// How many bits the first line has had.
    taken: u64,
    /// How many of these are of the block.
    ahead: u64,
}

impl Standing {
    /// The place of a bit of the second line that came after so many bits of the block's first line.
    #[inline(always)]
    fn after(&self, before: u16) -> u64
        requires { self.now.origin + self.now.taken ≤ most_places }
        ensures { result ≡ place_after self.now before }
    {
        let more = u64::from(before).saturating_sub(self.ahead);
        self.origin + (self.taken + more).saturating_sub(1)
    }
}

/// Where bits of the second line stand now, after so many bits of the block's first line.
pub(crate) fn standing_behind<C: Check>(first: &LineDecoder<C>, ahead: usize) -> Standing
    requires reached { Stands C.check first.now }
    ensures origin { result.origin ≡ first.now.place - result.taken }
    ensures taken { (b : List Bool) → After C.check first.now b → result.taken ≡ length b }
    ensures ahead { result.ahead ≡ ahead }
    ensures fits { result.origin + result.taken ≤ most_places }
{
    let taken = first.spent().shifted;
    Standing {
        origin: first.place() - taken,
        taken,
        ahead: ahead as u64,
    }
}

/// The number of the first bit of the piece whose report is decided, and else of the piece that has begun.
pub(crate) fn opening<C: Check>(decoder: &LineDecoder<C>, event: Option<Event>) -> Option<u64>
    ensures { Opens C.check decoder.now event result }
{
    match event {
        None => decoder.begun(),
        Some(event) => match event.kind {
            EventKind::Idle => decoder.begun(),
            _ => Some(event.span.first),
        },
    }
}

/// Notes the places of bits of the second line. The first has this number, and each came after so many bits of the
/// block's first line. Noted are the last sixteen, and where a piece opens with one.
pub(crate) fn note_bits(
    places: &mut BitPlaces,
    number: u64,
    before: &[u16],
    opening: Option<u64>,
    standing: &Standing,
)
    requires some { 1 ≤ length before.now }
    requires numbers { number + length before.now ≤ most_places }
    requires opening { (k : ℕ) → opening ≡ Some k → k < number + length before.now }
    requires standing { standing.now.origin + standing.now.taken ≤ most_places }
    ensures { NotesMany places.old places.new number before.now opening standing.now }
{
    if let Some(first) = opening {
        if first >= number {
            places.reach(standing.after(before[(first - number) as usize]));
            places.note(first, true);
        }
    }
    let mut at = before.len() - min(before.len(), 16);
    while at < before.len() {
        places.reach(standing.after(before[at]));
        places.note(number + at as u64, false);
        at += 1;
    }
}

/// The second line takes its bits of a block from this one on, up to the first that decides a report, and the places
/// of those are noted.
pub(crate) fn scan_noted<C: Check>(
    second: &mut LineDecoder<C>,
    places: &mut BitPlaces,
    parted: &Parted,
    from: usize,
    standing: &Standing,
) -> Consumed
    requires some { from < length parted.now.second }
    requires reached { Stands C.check second.old }
    requires places { second.old.place + (length parted.now.second - from) ≤ most_places }
    requires standing { standing.now.origin + standing.now.taken ≤ most_places }
    ensures { TakesNoted C.check second.old places.old parted.now from standing.now result second.new places.new }
{
    reports_are();
    let number = second.place();
    let bits = &parted.second;
    let scanned = match second.scan(bits.octets(), from, bits.count()) {
        Ok(scanned) => scanned,
        Err(PlaceLimit) => unreachable!(),
    };
    let opening = opening(second, scanned.event);
    let before = &parted.before[from..from + scanned.count];
    note_bits(places, number, before, opening, standing);
    scanned
}
