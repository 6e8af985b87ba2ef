//! Many arrivals at once.

ghost use Rattle.std.specs.Prelude.{◌≡◌, ◌-◌, ◌<◌, ◌≤◌, ◌^◌, ◌↔◌, ◌∷◌, [], IsErrOf, IfErr, OnOk, OnErr, IsTrue, length};
ghost use Rattle.bus_bits.specs.Limits.{most_places};
ghost use Rattle.bus_tap.specs.Arrival.{own};
ghost use Rattle.bus_clocks.specs.Clocks.{two_clocks, decoder_on, CountsOn, ExceedsPlaces};
ghost use Rattle.bus_pairing.specs.Sink.{SinkTook};
ghost use Rattle.bus_line.specs.declared.line.Line.TheVariants.{First};
ghost use Rattle.bus_watch.specs.Fed.{FedBy, RefusedBy, RefusedByAt, ForSink};

use crate::analyser::TwoClockAnalyser;
use bus_fcs::Check;
use bus_line::{PlaceLimit, SinkRefused};
use bus_pairing::{Line, PairSink};
use bus_watch::FeedFault;

/// A bit, and the line that it arrives on.
pub type Arrival = (Line, bool);

/// The first place that no bit can have.
pub(crate) const PLACES: u64 = 1 << 60;

/// How many of these bits arrive on the first line.
fn count_first(arrivals: &[Arrival]) -> usize
    ensures { result ≡ length (own First arrivals.now) }
{
    let mut count: usize = 0;
    for arrival in arrivals {
        count += match arrival.0 {
            Line::First => 1,
            Line::Second => 0,
        };
    }
    count
}

impl<C: Check> TwoClockAnalyser<C> {
    /// Pushes these bits in their order of arrival, and hands the sink what is seen at them.
    ///
    /// # Errors
    ///
    /// - `PlaceLimit`: some bits of the first line would have places of 2^60 or more, or the second line
    ///   would get more than 2^60 bits. Nothing was pushed.
    /// - `Sink`: the sink refused a report. The bits up to the one that decided it were pushed; what was
    ///   seen at them was handed over, but for that report.
    pub fn feed<S: PairSink>(&mut self, arrivals: &[Arrival], sink: &mut S) -> Result<(), FeedFault>
        requires { S.sink.refusals sink.old < 2 ^ 64 - 1 }
        ensures limit { IsErrOf result FeedFault.PlaceLimit ↔ ExceedsPlaces self.old arrivals.now }
        ensures unchanged { IsErrOf result FeedFault.PlaceLimit → (self.new ≡ self.old) × (sink.new ≡ sink.old) }
        ensures fed { OnOk result
            (FedBy (two_clocks C.check) S.sink self.old arrivals.now self.new sink.old sink.new) }
        ensures none_refused { OnOk result (SinkTook S.sink 0 sink.old sink.new) }
        ensures refused { IfErr result (λ fault. ForSink fault (λ consumed.
            SinkTook S.sink 1 sink.old sink.new
            × RefusedByAt (two_clocks C.check) S.sink 1 self.old arrivals.now consumed self.new
            sink.old sink.new)) }
    {
        if !self.has_room(arrivals) {
            return Err(FeedFault::PlaceLimit);
        }
        let mut consumed: usize = 0;
        while consumed < arrivals.len() {
            let arrival = arrivals[consumed];
            consumed += 1;
            if self.feed_one(arrival.0, arrival.1, sink).is_err() {
                return Err(FeedFault::Sink { consumed });
            }
        }
        Ok(())
    }

    /// Whether all these bits have a place.
    fn has_room(&self, arrivals: &[Arrival]) -> bool
        ensures { IsTrue result ↔ (ExceedsPlaces self.now arrivals.now → ⊥) }
    {
        let first = count_first(arrivals);
        let second = arrivals.len() - first;
        first as u64 <= PLACES - self.place_on(Line::First)
            && second as u64 <= PLACES - self.place_on(Line::Second)
    }

    /// Pushes a bit, and hands the sink what is seen at it, if anything.
    fn feed_one<S: PairSink>(
        &mut self,
        line: Line,
        bit: bool,
        sink: &mut S,
    ) -> Result<(), SinkRefused>
        requires place { (decoder_on self.old line).place < most_places }
        requires refusals { S.sink.refusals sink.old < 2 ^ 64 - 1 }
        ensures fed { OnOk result
            (FedBy (two_clocks C.check) S.sink self.old ((line, bit) ∷ []) self.new sink.old sink.new) }
        ensures none_refused { OnOk result (SinkTook S.sink 0 sink.old sink.new) }
        ensures counts { CountsOn self.old (line, bit) self.new }
        ensures refused { OnErr result (SinkTook S.sink 1 sink.old sink.new
            × RefusedBy (two_clocks C.check) S.sink 1 self.old ((line, bit) ∷ []) self.new sink.old sink.new) }
    {
        let is_decided = match self.step(line, bit) {
            Ok(is_decided) => is_decided,
            Err(PlaceLimit) => unreachable!(),
        };
        match self.lent(line, is_decided) {
            None => Ok(()),
            Some(seen) => sink.take(line, &seen),
        }
    }
}
