//! Whole runs: all bits from first to last.

ghost use Rattle.std.specs.Prelude.{◌≡◌, ◌+◌, ◌-◌, ◌<◌, ◌≤◌, ◌^◌, List, IfOk, IfErr, OnOk, length};
ghost use Rattle.bus_bits.specs.Limits.{most_places};
ghost use Rattle.bus_watch.specs.Headline.{Headline, Fails, StoppedAt, CanBeMade, UnlessStopped, all_seen, bits_in};
ghost use Rattle.bus_watch.specs.Headline.{kept_frames};
ghost use Rattle.bus_pairing.specs.Seen.{SeenReport};
ghost use Rattle.bus_line.specs.Told.{told};
ghost use Rattle.bus_pairing.specs.Sink.{SinkTook};
ghost use Rattle.bus_watch.specs.After.{IsAfter};

use crate::analyser::Analyser;
use crate::fault::{FeedFault, NewFault, RunFault};
use crate::laws::seen_grows;
use crate::usage::Usage;
use bus_dictionary::Dictionary;
use bus_fcs::{Check, OctetCheck};
use bus_line::laws::reports_grow;
use bus_pairing::{ReportLog, ReportSink};
use std::alloc::Global;

/// What is there after a whole run.
#[derive(Drop)]
pub struct Run<C: Check> {
    /// The analyser that took all bits.
    pub analyser: Analyser<C>,
    /// What it holds, and the steps that it took.
    pub usage: Usage,
}

/// Makes an analyser and hands it the bits of all pieces, one piece after the other.
///
/// The headline: however the bits are cut into pieces, the sink is told exactly what is seen of all
/// of them; the frame buffer and the history are within their bounds; and the steps are those of the
/// ledger, at most seventeen for each bit.
///
/// # Errors
///
/// The first of these that holds; but where memory is refused, `New(Memory)` may come in place of `Feed`.
///
/// - `New(DepthRange)`, `New(Origin)`: as [`Analyser::new`].
/// - `Feed(PlaceLimit)`: the origin and the number of all bits come to more than 2^60. Nothing was told.
/// - `Feed(Sink)`: the sink refused a report.
pub fn run_all<C: Check, S: ReportSink>(
    alloc: Global,
    dictionary: Dictionary,
    depth: usize,
    origin: u64,
    pieces: &[&[bool]],
    sink: &mut S,
) -> Result<Run<C>, RunFault>
    requires { S.sink.refusals sink.old < 2 ^ 64 - 1 }
    ensures headline { IfOk result (λ run.
        (reports : List SeenReport) × (S.sink.taken sink.new ≡ told (S.sink.taken sink.old) reports)
        × Headline C.check.cost dictionary depth origin (bits_in pieces.now) reports (kept_frames run.analyser)
        run.usage) }
    ensures is_after { IfOk result (λ run. IsAfter C.check run.analyser (bits_in pieces.now)) }
    ensures within_limits { OnOk result (CanBeMade depth origin
        × (origin + length (bits_in pieces.now) ≤ most_places)) }
    ensures none_refused { OnOk result (SinkTook S.sink 0 sink.old sink.new) }
    ensures fails { IfErr result (Fails depth origin (length (bits_in pieces.now)) (λ consumed.
        SinkTook S.sink 1 sink.old sink.new
        × StoppedAt S.sink dictionary origin (bits_in pieces.now) sink.old sink.new consumed)) }
    ensures untouched { IfErr result (UnlessStopped (sink.new ≡ sink.old)) }
{
    let mut analyser = match Analyser::new(alloc, dictionary, depth, origin) {
        Ok(analyser) => analyser,
        Err(fault) => return Err(RunFault::New(fault)),
    };
    match analyser.feed_all(pieces, sink) {
        Ok(()) => {
            let usage = analyser.usage();
            Ok(Run { analyser, usage })
        }
        Err(fault) => Err(RunFault::Feed(fault)),
    }
}

/// All that is seen of these bits, the first of which has the place `origin`, if there are no more
/// than `room` reports.
///
/// # Errors
///
/// The first of these that holds; but where memory is refused, `New(Memory)` may come in place of `Feed`.
///
/// - `New(Origin)`: the origin is above 2^60.
/// - `Feed(PlaceLimit)`: the origin and the number of bits come to more than 2^60.
/// - `Feed(Sink)`: more than `room` reports are seen.
pub fn reports_of(
    alloc: Global,
    dictionary: Dictionary,
    origin: u64,
    bits: &[bool],
    room: usize,
) -> Result<ReportLog, RunFault>
    ensures reports { IfOk result (λ log. log.reports ≡ all_seen dictionary origin bits.now) }
    ensures room { IfOk result (λ log. log.room ≡ room) }
    ensures within_limits { OnOk result ((origin + length bits.now ≤ most_places)
        × (length (all_seen dictionary origin bits.now) ≤ room)) }
    ensures fails { IfErr result (Fails 1 origin (length bits.now) (λ consumed.
        room < length (all_seen dictionary origin bits.now))) }
{
    seen_grows();
    reports_grow();
    let mut analyser = match Analyser::<OctetCheck>::new(alloc, dictionary, 1, origin) {
        Ok(analyser) => analyser,
        Err(fault) => return Err(RunFault::New(fault)),
    };
    let mut log = match ReportLog::new(alloc, room) {
        Ok(log) => log,
        Err(_) => return Err(RunFault::New(NewFault::Memory)),
    };
    match analyser.feed(bits, &mut log) {
        Ok(()) => Ok(log),
        Err(fault) => Err(RunFault::Feed(fault)),
    }
}
