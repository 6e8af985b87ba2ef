//! Many pairs of bits at once.

ghost use Rattle.std.specs.Prelude.{◌≡◌, ◌+◌, ◌-◌, ◌≤◌, ◌<◌, ◌^◌, ◌↔◌, ℕ, IsErrOf, IfErr, OnOk, OnErr, [], ◌∷◌, length};
ghost use Rattle.std.specs.Option.{option_to_list};
ghost use Rattle.bus_bits.specs.Limits.{most_places};
ghost use Rattle.bus_watch.specs.Fed.{FedBy, RefusedBy, RefusedByAt, ForSink, Offered};
ghost use Rattle.bus_watch.specs.PairShown.{shown_option_on, shown_pair};
ghost use Rattle.bus_watch.specs.Pairs.{two_lines};
ghost use Rattle.bus_pairing.specs.Shown.{IsKeepable};
ghost use Rattle.bus_pairing.specs.Sink.{SinkTook};

use crate::fault::FeedFault;
use crate::feed::PLACES;
use crate::pair::analyser::PairAnalyser;
use crate::pair::seen::PairSeen;
use bus_fcs::Check;
use bus_line::{PlaceLimit, SinkRefused};
use bus_pairing::{Line, PairSink, Seen};

/// Offers a sink a report of a line, if there is one.
fn offer<S: PairSink>(line: Line, seen: Option<Seen<'_>>, sink: &mut S) -> Result<(), SinkRefused>
    requires count { S.sink.refusals sink.old < 2 ^ 64 - 1 }
    requires fits { IsKeepable seen }
    ensures ok { OnOk result
        (Offered S.sink (option_to_list (shown_option_on line seen.entry)) 0 sink.old sink.new) }
    ensures err { OnErr result
        (Offered S.sink (option_to_list (shown_option_on line seen.entry)) 1 sink.old sink.new) }
{
    match seen {
        None => Ok(()),
        Some(seen) => sink.take(line, &seen),
    }
}

/// Offers a sink what is seen at a pair, the second line's report also where the first was refused.
fn offer_both<S: PairSink>(seen: PairSeen<'_>, sink: &mut S) -> Result<(), SinkRefused>
    requires count { S.sink.refusals sink.old < 2 ^ 64 - 2 }
    requires first_fits { IsKeepable seen.first }
    requires second_fits { IsKeepable seen.second }
    ensures ok { OnOk result (Offered S.sink (shown_pair seen.entry) 0 sink.old sink.new) }
    ensures err { OnErr result ((n : ℕ) × (0 < n) × (n ≤ 2)
        × Offered S.sink (shown_pair seen.entry) n sink.old sink.new) }
{
    match offer(Line::First, seen.first, sink) {
        Ok(()) => offer(Line::Second, seen.second, sink),
        Err(SinkRefused) => {
            let _ = offer(Line::Second, seen.second, sink);
            Err(SinkRefused)
        }
    }
}

impl<C: Check> PairAnalyser<C> {
    /// Takes these pairs, and hands the sink what is seen at them, in order: at a place where both lines
    /// report, the first line's report and then the second's, also where the first was refused.
    ///
    /// # Errors
    ///
    /// - `PlaceLimit`: some of the pairs would have places of 2^60 or more. Nothing was taken.
    /// - `Sink`: the sink refused one report or both at a place. The pairs up to that one were taken;
    ///   what was seen at them was handed over, but for what was refused.
    pub fn feed<S: PairSink>(
        &mut self,
        pairs: &[(bool, bool)],
        sink: &mut S,
    ) -> Result<(), FeedFault>
        requires { S.sink.refusals sink.old < 2 ^ 64 - 2 }
        ensures limit { IsErrOf result FeedFault.PlaceLimit ↔ (most_places < self.old.first.place + length pairs.now) }
        ensures unchanged { IsErrOf result FeedFault.PlaceLimit → (self.new ≡ self.old) × (sink.new ≡ sink.old) }
        ensures fed { OnOk result
            (FedBy (two_lines C.check) S.sink self.old pairs.now self.new sink.old sink.new) }
        ensures none_refused { OnOk result (SinkTook S.sink 0 sink.old sink.new) }
        ensures refused { IfErr result (λ fault. ForSink fault (λ consumed.
            (n : ℕ) × (n ≤ 2) × SinkTook S.sink n sink.old sink.new
            × RefusedByAt (two_lines C.check) S.sink n self.old pairs.now consumed self.new
            sink.old sink.new)) }
    {
        if pairs.len() as u64 > PLACES - self.place() {
            return Err(FeedFault::PlaceLimit);
        }
        let mut consumed: usize = 0;
        while consumed < pairs.len() {
            let told = self.feed_pair(pairs[consumed], sink);
            consumed += 1;
            if told.is_err() {
                return Err(FeedFault::Sink { consumed });
            }
        }
        Ok(())
    }

    /// Takes a pair, and hands the sink what is seen at it.
    fn feed_pair<S: PairSink>(
        &mut self,
        pair: (bool, bool),
        sink: &mut S,
    ) -> Result<(), SinkRefused>
        requires place { self.old.first.place < most_places }
        requires refusals { S.sink.refusals sink.old < 2 ^ 64 - 2 }
        ensures fed { OnOk result
            (FedBy (two_lines C.check) S.sink self.old (pair ∷ []) self.new sink.old sink.new) }
        ensures none_refused { OnOk result (SinkTook S.sink 0 sink.old sink.new) }
        ensures refused { OnErr result ((n : ℕ) × (n ≤ 2) × SinkTook S.sink n sink.old sink.new
            × RefusedBy (two_lines C.check) S.sink n self.old (pair ∷ []) self.new sink.old sink.new) }
    {
        match self.advance(pair.0, pair.1) {
            Ok(found) => offer_both(self.lent(found), sink),
            Err(PlaceLimit) => unreachable!(),
        }
    }
}
