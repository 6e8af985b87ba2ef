//! Many arrivals at once, shown to an observer.

ghost use Rattle.std.specs.Prelude.{◌≡◌, ◌+◌, ◌-◌, ◌*◌, ◌≤◌, ◌<◌, ◌^◌, ℕ, List, length, min};
ghost use Rattle.bus_bits.specs.Limits.{most_places};
ghost use Rattle.bus_tap.specs.Arrival.{Arrival, arrivals_from, own};
ghost use Rattle.bus_clocks.specs.Clocks.{two_clocks, bits_taken};
ghost use Rattle.bus_clocks.specs.Internal.Parts.{Parts, upto, beyond};
ghost use Rattle.bus_watch.specs.Watch.{AdvancesWatchShown};

use crate::analyser::{TwoClockAnalyser, enter};
use crate::feed::PLACES;
use crate::laws::arrivals_are;
use crate::line_bits::BLOCK;
use crate::parted::{Parted, part};
use crate::stretch::{scan_noted, standing_behind};
use bus_fcs::Check;
use bus_line::laws::{frame_is_spelled, reports_are, reports_grow, settled_places};
use bus_pairing::Line;
use bus_watch::{ReportObserver, newest, observe_bits, show};
use std::cmp::min;

impl<C: Check> TwoClockAnalyser<C> {
    /// Takes bits in their order of arrival, from one on and before another, and shows the observer what is seen at
    /// them. Of the octets of `lines` a bit is 1 where that of `bits` arrives on the second line; the lowest of each
    /// octet is the first. Returns how many it took: the origin and the bits of both lines together never come to more
    /// than 2^60.
    pub fn scan<X, L: ReportObserver<X>>(
        &mut self,
        bits: &[u8],
        lines: &[u8],
        from: usize,
        end: usize,
        observer: &mut L,
        out: &mut X,
    ) -> usize
        requires some { from ≤ end }
        requires enough { (end ≤ 8 * length bits.now) × (end ≤ 8 * length lines.now) }
        requires room { L.has_room observer.old (min (end - from) (most_places - bits_taken self.old)) }
        ensures taken { result ≡ min (end - from) (most_places - bits_taken self.old) }
        ensures told { AdvancesWatchShown (two_clocks C.check) self.old (arrivals_from bits.now lines.now from result)
            self.new (λ ss. L.observes self.old.conversation.dictionary observer.old out.old ss observer.new out.new) }
    {
        let places = PLACES.saturating_sub(
            self.place_on(Line::First) + self.place_on(Line::Second),
        );
        let count = min((end - from) as u64, places) as usize;
        let mut taken = 0;
        while taken < count {
            let some = min(BLOCK, count - taken);
            self.scan_block(bits, lines, from + taken, some, observer, out);
            taken += some;
        }
        count
    }

    /// Takes these arrivals, at most 512 from one on.
    fn scan_block<X, L: ReportObserver<X>>(
        &mut self,
        bits: &[u8],
        lines: &[u8],
        from: usize,
        count: usize,
        observer: &mut L,
        out: &mut X,
    )
        requires few { count ≤ 512 }
        requires fits { from + count < 2 ^ 64 }
        requires enough { (from + count ≤ 8 * length bits.now) × (from + count ≤ 8 * length lines.now) }
        requires places { bits_taken self.old + count ≤ most_places }
        requires room { L.has_room observer.old count }
        ensures told { AdvancesWatchShown (two_clocks C.check) self.old
            (arrivals_from bits.now lines.now from count) self.new
            (λ ss. L.observes self.old.conversation.dictionary observer.old out.old ss observer.new out.new) }
        ensures left { (more : ℕ) → L.has_room observer.old (count + more) → L.has_room observer.new more }
    {
        let parted = part(bits, lines, from, count);
        let mut taken = 0;
        while taken < parted.second.count() {
            taken = self.scan_some(&parted, taken, observer, out);
        }
        self.follow(&parted, observer, out);
    }

    /// The second line takes bits up to the first that decides a report, and the first line those that came before
    /// it. What is seen at them is shown. Returns how many bits of the second line are taken then.
    fn scan_some<X, L: ReportObserver<X>>(
        &mut self,
        parted: &Parted,
        from: usize,
        observer: &mut L,
        out: &mut X,
    ) -> usize
        requires some { from < length parted.now.second }
        requires parts { (ys : List Arrival) × Parts ys parted.now
            × (bits_taken self.old + length (beyond from ys) ≤ most_places)
            × L.has_room observer.old (length (beyond from ys)) }
        ensures within { (from < result) × (result ≤ length parted.now.second) }
        ensures told { (ys : List Arrival) → Parts ys parted.now →
            AdvancesWatchShown (two_clocks C.check) self.old (upto (result - from) (beyond from ys)) self.new
            (λ ss. L.observes self.old.conversation.dictionary observer.old out.old ss observer.new out.new) }
        ensures left { (ys : List Arrival) → Parts ys parted.now → (more : ℕ) →
            L.has_room observer.old (length (upto (result - from) (beyond from ys)) + more) →
            L.has_room observer.new more }
    {
        settled_places();
        reports_grow();
        reports_are();
        frame_is_spelled();
        arrivals_are();
        let ahead = parted.ahead(from);
        let standing = standing_behind(&self.first, ahead);
        let scanned = scan_noted(&mut self.second, &mut self.places, parted, from, &standing);
        let past = from + scanned.count;
        observe_bits(
            &mut self.first,
            &mut self.conversation,
            Some(Line::First),
            parted.first.octets(),
            ahead,
            parted.ahead(past),
            observer,
            out,
        );
        let event = self.places.located_option(scanned.event);
        let octets = self.second.octets();
        let is_decided = enter(&mut self.conversation, Line::Second, event, octets);
        show(
            Some(Line::Second),
            newest(&self.conversation, is_decided),
            octets,
            self.conversation.dictionary(),
            observer,
            out,
        );
        past
    }

    /// The first line takes its bits that came after the last of the second line.
    fn follow<X, L: ReportObserver<X>>(&mut self, parted: &Parted, observer: &mut L, out: &mut X)
        requires parts { (ys : List Arrival) × Parts ys parted.now
            × (bits_taken self.old + length (beyond (length parted.now.second) ys) ≤ most_places)
            × L.has_room observer.old (length (beyond (length parted.now.second) ys)) }
        ensures told { (ys : List Arrival) → Parts ys parted.now →
            AdvancesWatchShown (two_clocks C.check) self.old (beyond (length parted.now.second) ys) self.new
            (λ ss. L.observes self.old.conversation.dictionary observer.old out.old ss observer.new out.new) }
        ensures left { (ys : List Arrival) → Parts ys parted.now → (more : ℕ) →
            L.has_room observer.old (length (beyond (length parted.now.second) ys) + more) →
            L.has_room observer.new more }
    {
        settled_places();
        reports_grow();
        reports_are();
        arrivals_are();
        // Called for its bound.
        let _bits = self.second.place();
        let from = parted.ahead(parted.second.count());
        let past = parted.first.count();
        if from == past {
            return;
        }
        self.places
            .reach(self.first.place() + (past - from) as u64 - 1);
        observe_bits(
            &mut self.first,
            &mut self.conversation,
            Some(Line::First),
            parted.first.octets(),
            from,
            past,
            observer,
            out,
        );
    }
}
