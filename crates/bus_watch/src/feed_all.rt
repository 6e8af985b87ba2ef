//! Many pieces at once.

ghost use Rattle.std.specs.Prelude.{◌≡◌, ◌+◌, ◌-◌, ◌≤◌, ◌<◌, ◌^◌, ◌↔◌, IsErrOf, IsTrue, IfErr, OnOk, length};
ghost use Rattle.bus_bits.specs.Limits.{most_places};
ghost use Rattle.bus_watch.specs.Fed.{Fed, RefusedAt, ForSink};
ghost use Rattle.bus_pairing.specs.Sink.{SinkTook};
ghost use Rattle.bus_watch.specs.Headline.{bits_in};

use crate::analyser::Analyser;
use crate::fault::FeedFault;
use crate::feed::PLACES;
use bus_fcs::Check;
use bus_pairing::ReportSink;

/// Whether the bits of all pieces are at most `places`.
fn fits(pieces: &[&[bool]], places: u64) -> bool
    ensures { IsTrue result ↔ (length (bits_in pieces.now) ≤ places) }
{
    let mut left = places;
    for piece in pieces {
        let count = piece.len() as u64;
        if count > left {
            return false;
        }
        left -= count;
    }
    true
}

impl<C: Check> Analyser<C> {
    /// Takes the bits of some pieces, one piece after the other, as [`Analyser::feed`] takes those of
    /// one: the places of all bits are looked at first, and `consumed` counts from the first piece on.
    pub fn feed_all<S: ReportSink>(
        &mut self,
        pieces: &[&[bool]],
        sink: &mut S,
    ) -> Result<(), FeedFault>
        requires { S.sink.refusals sink.old < 2 ^ 64 - 1 }
        ensures limit { IsErrOf result FeedFault.PlaceLimit ↔
            (most_places < self.old.decoder.place + length (bits_in pieces.now)) }
        ensures unchanged { IsErrOf result FeedFault.PlaceLimit → (self.new ≡ self.old) × (sink.new ≡ sink.old) }
        ensures fed { OnOk result (
            Fed C.check S.sink self.old (bits_in pieces.now) self.new sink.old sink.new) }
        ensures none_refused { OnOk result (SinkTook S.sink 0 sink.old sink.new) }
        ensures refused { IfErr result (λ fault. ForSink fault (λ consumed.
            RefusedAt C.check S.sink self.old (bits_in pieces.now) consumed self.new sink.old sink.new)) }
        ensures one_refused { IfErr result (λ fault. ForSink fault (λ consumed.
            SinkTook S.sink 1 sink.old sink.new)) }
    {
        if !fits(pieces, PLACES - self.place()) {
            return Err(FeedFault::PlaceLimit);
        }
        let mut before: usize = 0;
        for piece in pieces {
            match self.feed(piece, sink) {
                Ok(()) => before += piece.len(),
                Err(FeedFault::Sink { consumed }) => {
                    return Err(FeedFault::Sink {
                        consumed: before + consumed,
                    });
                }
                Err(FeedFault::PlaceLimit) => unreachable!(),
            }
        }
        Ok(())
    }
}
