//! Whole runs over two lines: all pairs of bits from first to last.

ghost use Rattle.std.specs.Prelude.{◌≡◌, ◌+◌, ◌-◌, ◌<◌, ◌≤◌, ◌^◌, ℕ, List, IfOk, IfErr, OnOk, length};
ghost use Rattle.bus_bits.specs.Limits.{most_places};
ghost use Rattle.bus_watch.specs.Headline.{Fails, CanBeMade, UnlessStopped};
ghost use Rattle.bus_watch.specs.PairHeadline.{PairHeadline, StoppedAtPair};
ghost use Rattle.bus_watch.specs.Pairs.{IsAfterPairs};
ghost use Rattle.bus_pairing.specs.Seen.{SeenReport};
ghost use Rattle.bus_line.specs.Told.{told};
ghost use Rattle.bus_pairing.specs.Sink.{SinkTook};

use crate::fault::RunFault;
use crate::pair::analyser::PairAnalyser;
use crate::pair::usage::PairUsage;
use bus_dictionary::Dictionary;
use bus_fcs::Check;
use bus_pairing::PairSink;
use std::alloc::Global;

/// What is there after a whole run over two lines.
#[derive(Drop)]
pub struct PairRun<C: Check> {
    /// The analyser that took all pairs.
    pub analyser: PairAnalyser<C>,
    /// What it holds, and the steps that it took.
    pub usage: PairUsage,
}

/// Makes an analyser of two lines and hands it these pairs of bits.
///
/// The headline for two lines: the sink is told exactly what is seen of both lines; the frame buffers and the history
/// are within their bounds; and the steps are those of both ledgers, at most seventeen for each bit of either line.
///
/// # Errors
///
/// The first of these that holds; but where memory is refused, `New(Memory)` may come in place of `Feed`.
///
/// - `New(DepthRange)`, `New(Origin)`: as [`PairAnalyser::new`].
/// - `Feed(PlaceLimit)`: the origin and the number of pairs come to more than 2^60. Nothing was told.
/// - `Feed(Sink)`: the sink refused a report, or both reports of a place.
pub fn run_pairs<C: Check, S: PairSink>(
    alloc: Global,
    dictionary: Dictionary,
    depth: usize,
    origin: u64,
    pairs: &[(bool, bool)],
    sink: &mut S,
) -> Result<PairRun<C>, RunFault>
    requires { S.sink.refusals sink.old < 2 ^ 64 - 2 }
    ensures headline { IfOk result (λ run.
        (reports : List SeenReport) × (S.sink.taken sink.new ≡ told (S.sink.taken sink.old) reports)
        × PairHeadline C.check.cost dictionary depth origin pairs.now reports run.analyser.conversation.history
        run.usage) }
    ensures is_after { IfOk result (λ run. IsAfterPairs C.check run.analyser pairs.now) }
    ensures within_limits { OnOk result (CanBeMade depth origin × (origin + length pairs.now ≤ most_places)) }
    ensures none_refused { OnOk result (SinkTook S.sink 0 sink.old sink.new) }
    ensures fails { IfErr result (Fails depth origin (length pairs.now) (λ consumed.
        (n : ℕ) × (n ≤ 2) × SinkTook S.sink n sink.old sink.new
        × StoppedAtPair S.sink n dictionary origin pairs.now sink.old sink.new consumed)) }
    ensures untouched { IfErr result (UnlessStopped (sink.new ≡ sink.old)) }
{
    let mut analyser = match PairAnalyser::new(alloc, dictionary, depth, origin) {
        Ok(analyser) => analyser,
        Err(fault) => return Err(RunFault::New(fault)),
    };
    match analyser.feed(pairs, sink) {
        Ok(()) => {
            let usage = analyser.usage();
            Ok(PairRun { analyser, usage })
        }
        Err(fault) => Err(RunFault::Feed(fault)),
    }
}
