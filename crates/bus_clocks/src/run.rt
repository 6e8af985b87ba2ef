//! Whole runs over two lines with a clock each: all arrivals from first to last.

ghost use Rattle.std.specs.Prelude.{◌≡◌, ◌-◌, ◌<◌, ◌^◌, List, IfOk, IfErr, OnOk};
ghost use Rattle.bus_clocks.specs.Clocks.{IsAfterArrivals};
ghost use Rattle.bus_clocks.specs.Headline.{ClockHeadline, ClockFails, HavePlaces, StoppedAtArrival};
ghost use Rattle.bus_line.specs.Told.{told};
ghost use Rattle.bus_pairing.specs.Seen.{SeenReport};
ghost use Rattle.bus_pairing.specs.Sink.{SinkTook};
ghost use Rattle.bus_watch.specs.Headline.{CanBeMade, UnlessStopped};

use crate::analyser::TwoClockAnalyser;
use crate::feed::Arrival;
use crate::laws::arrivals_are;
use bus_dictionary::Dictionary;
use bus_fcs::Check;
use bus_pairing::PairSink;
use bus_watch::laws::seen_grows;
use bus_watch::{PairUsage, RunFault};
use std::alloc::Global;

/// What is there after a whole run over two lines with a clock each.
#[derive(Drop)]
pub struct ClockRun<C: Check> {
    /// The analyser that got all bits.
    pub analyser: TwoClockAnalyser<C>,
    /// What it holds, and its counted steps.
    pub usage: PairUsage,
}

/// Makes an analyser of two lines with a clock each, and feeds it these bits in their order of arrival.
///
/// The headline for two clocks: the sink gets exactly what is seen of both lines, each decoded from its own
/// bits; the frame buffers and the history are within their bounds; and the steps are those of both ledgers,
/// at most four for each bit.
///
/// # Errors
///
/// The first of these that holds; but where memory is refused, `New(Memory)` may come in place of `Feed`.
///
/// - `New(DepthRange)`, `New(Origin)`: as [`TwoClockAnalyser::new`].
/// - `Feed(PlaceLimit)`: the origin and the bits of the first line come to more than 2^60, or the second line
///   has more than 2^60 bits. Nothing was fed.
/// - `Feed(Sink)`: the sink refused a report.
pub fn run_clocks<C: Check, S: PairSink>(
    alloc: Global,
    dictionary: Dictionary,
    depth: usize,
    origin: u64,
    arrivals: &[Arrival],
    sink: &mut S,
) -> Result<ClockRun<C>, RunFault>
    requires { S.sink.refusals sink.old < 2 ^ 64 - 1 }
    ensures headline { IfOk result (λ run.
        (reports : List SeenReport) × (S.sink.taken sink.new ≡ told (S.sink.taken sink.old) reports)
        × ClockHeadline C.check.cost dictionary depth origin arrivals.now reports run.analyser.conversation.history
        run.usage) }
    ensures is_after { IfOk result (λ run. IsAfterArrivals C.check run.analyser arrivals.now) }
    ensures within_limits { OnOk result (CanBeMade depth origin × HavePlaces origin arrivals.now) }
    ensures none_refused { OnOk result (SinkTook S.sink 0 sink.old sink.new) }
    ensures fails { IfErr result (ClockFails depth origin arrivals.now (λ consumed.
        SinkTook S.sink 1 sink.old sink.new
        × StoppedAtArrival S.sink dictionary origin arrivals.now sink.old sink.new consumed)) }
    ensures untouched { IfErr result (UnlessStopped (sink.new ≡ sink.old)) }
{
    let mut analyser = match TwoClockAnalyser::new(alloc, dictionary, depth, origin) {
        Ok(analyser) => analyser,
        Err(fault) => return Err(RunFault::New(fault)),
    };
    seen_grows();
    arrivals_are();
    match analyser.feed(arrivals, sink) {
        Ok(()) => {
            let usage = analyser.usage();
            Ok(ClockRun { analyser, usage })
        }
        Err(fault) => Err(RunFault::Feed(fault)),
    }
}
