//! Commands and replies: an analyser with a dictionary, and a log of what it sees.

ghost use Rattle.std.specs.Prelude.{◌≡◌, ◌<◌, ◌≤◌, IfOk, IfErr, OnOk, length};
ghost use Rattle.bus_bits.specs.Limits.{most_places};
ghost use Rattle.bus_watch.specs.Headline.{Fails, all_seen};
ghost use Rattle.bus_examples.specs.Watching.{run_fault};
ghost use Rattle.bus_examples.specs.declared.watching.WatchFault.TheVariants.{New, Feed};

use bus_dictionary::Dictionary;
use bus_fcs::OctetCheck;
use bus_line::laws::reports_grow;
use bus_watch::laws::seen_grows;
use bus_watch::{Analyser, FeedFault, NewFault, ReportLog};
use std::alloc::Global;

/// How many frames the history of the analyser keeps.
const HISTORY_FRAMES: usize = 16;

/// Why a line was not watched to its end.
#[derive(Clone, Copy, Debug, PartialEq, Eq)]
pub enum WatchFault {
    /// The analyser or the log was not made.
    New(NewFault),
    /// Not all bits were taken.
    Feed(FeedFault),
}

impl From<NewFault> for WatchFault {
    ghost from_gives = { λ fault given. given ≡ New fault };

    fn from(fault: NewFault) -> Self {
        WatchFault::New(fault)
    }
}

impl From<FeedFault> for WatchFault {
    ghost from_gives = { λ fault given. given ≡ Feed fault };

    fn from(fault: FeedFault) -> Self {
        WatchFault::Feed(fault)
    }
}

/// Watches these bits, and keeps what is seen, at most `room` reports.
///
/// # Errors
///
/// - `New(Memory)`: memory was refused. It may come in place of `Feed`; `New` has no other fault.
/// - `Feed(PlaceLimit)`: there are more than 2^60 bits.
/// - `Feed(Sink)`: there are no more than that, but more than `room` reports are seen.
pub fn watch(
    alloc: Global,
    dictionary: Dictionary,
    bits: &[bool],
    room: usize,
) -> Result<ReportLog, WatchFault>
    ensures seen { IfOk result (λ log. log.reports ≡ all_seen dictionary 0 bits.now) }
    ensures room { IfOk result (λ log. log.room ≡ room) }
    ensures within_limits { OnOk result ((length bits.now ≤ most_places)
        × (length (all_seen dictionary 0 bits.now) ≤ room)) }
    ensures fails { IfErr result (λ fault. Fails 16 0 (length bits.now) (λ consumed.
        room < length (all_seen dictionary 0 bits.now)) (run_fault fault)) }
{
    // The laws that the proof needs; calling them does nothing.
    seen_grows();
    reports_grow();
    let mut analyser = Analyser::<OctetCheck>::new(alloc, dictionary, HISTORY_FRAMES, 0)?;
    let Ok(mut log) = ReportLog::new(alloc, room) else {
        return Err(WatchFault::New(NewFault::Memory));
    };
    analyser.feed(bits, &mut log)?;
    Ok(log)
}
