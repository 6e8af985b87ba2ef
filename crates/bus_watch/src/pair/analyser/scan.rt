//! Many pairs of bits at once, from octets of both lines.

ghost use Rattle.std.specs.Prelude.{◌≡◌, ◌+◌, ◌-◌, ◌*◌, ◌≤◌, ◌<◌, length, min, zip};
ghost use Rattle.bus_bits.specs.Bits.{bits_from};
ghost use Rattle.bus_bits.specs.Limits.{most_places};
ghost use Rattle.bus_watch.specs.Watch.{AdvancesWatchShown};
ghost use Rattle.bus_watch.specs.Pairs.{two_lines};

use crate::decode::{newest, observe_bits, record, show};
use crate::feed::PLACES;
use crate::observer::ReportObserver;
use crate::pair::analyser::PairAnalyser;
use bus_fcs::Check;
use bus_line::PlaceLimit;
use bus_line::laws::{reports_grow, settled_places};
use bus_pairing::Line;
use std::cmp::min;

impl<C: Check> PairAnalyser<C> {
    /// Takes `count` pairs of bits, those of the first line from the octets `first` and those of the second from
    /// `second`, the least significant bit of each octet first. All that is seen at them is shown to the observer, by
    /// place, and where both lines report at one place the first line's report and then the second's. Returns how many
    /// pairs it took: it stops in front of one whose place would be 2^60.
    ///
    /// Each line is decoded up to its own next report.
    pub fn scan<X, L: ReportObserver<X>>(
        &mut self,
        first: &[u8],
        second: &[u8],
        count: usize,
        observer: &mut L,
        out: &mut X,
    ) -> usize
        requires enough { (count ≤ 8 * length first.now) × (count ≤ 8 * length second.now) }
        requires room { L.has_room observer.old (2 * min count (most_places - self.old.first.place)) }
        ensures taken { result ≡ min count (most_places - self.old.first.place) }
        ensures told { AdvancesWatchShown (two_lines C.check) self.old
            (zip (bits_from first.now 0 result) (bits_from second.now 0 result)) self.new
            (λ ss. L.observes self.old.conversation.dictionary observer.old out.old ss observer.new out.new) }
    {
        let places = PLACES - self.place();
        let end = min(count as u64, places) as usize;
        let mut at = 0;
        while at < end {
            at = self.scan_some(first, second, at, end, observer, out);
        }
        end
    }

    /// The second line takes bits up to the first that decides a report, and the first line as many. What is seen at
    /// them is shown. Returns where the next bits are.
    fn scan_some<X, L: ReportObserver<X>>(
        &mut self,
        first: &[u8],
        second: &[u8],
        from: usize,
        end: usize,
        observer: &mut L,
        out: &mut X,
    ) -> usize
        requires some { from < end }
        requires enough { (end ≤ 8 * length first.now) × (end ≤ 8 * length second.now) }
        requires places { self.old.first.place + (end - from) ≤ most_places }
        requires room { L.has_room observer.old (2 * (end - from)) }
        ensures within { (from < result) × (result ≤ end) }
        ensures told { AdvancesWatchShown (two_lines C.check) self.old
            (zip (bits_from first.now from (result - from)) (bits_from second.now from (result - from))) self.new
            (λ ss. L.observes self.old.conversation.dictionary observer.old out.old ss observer.new out.new) }
        ensures left { L.has_room observer.new (2 * (end - result)) }
    {
        settled_places();
        reports_grow();
        let scanned = match self.second.scan(second, from, end) {
            Ok(scanned) => scanned,
            Err(PlaceLimit) => unreachable!(),
        };
        let past = from + scanned.count;
        observe_bits(
            &mut self.first,
            &mut self.conversation,
            Some(Line::First),
            first,
            from,
            past,
            observer,
            out,
        );
        record(
            &self.second,
            &mut self.conversation,
            Some(Line::Second),
            scanned.event,
        );
        show(
            Some(Line::Second),
            newest(&self.conversation, scanned.event.is_some()),
            self.second.octets(),
            self.conversation.dictionary(),
            observer,
            out,
        );
        past
    }
}
