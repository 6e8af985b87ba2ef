//! A sink of two lines that keeps what it takes.

ghost use Rattle.std.specs.Prelude.{◌≡◌, ◌+◌, ◌-◌, ◌<◌, ◌≤◌, ◌^◌, ◌↔◌, [], ◌∷◌, ◌++◌, length, IfOk, IsErr, OnOk, OnErr};
ghost use Rattle.std.specs.Prelude.{Some};
ghost use Rattle.bus_line.specs.Ledger.{octet_count};
ghost use Rattle.bus_line.specs.Limits.{most_octets};
ghost use Rattle.bus_pairing.specs.LoggedReport.{logged_pairs};
ghost use Rattle.bus_pairing.specs.Shown.{shown_on};

use crate::logged_report::LoggedReport;
use crate::pair_sink::PairSink;
use crate::seen::Seen;
use bus_line::{Line, SinkRefused};
use std::alloc::{AllocError, Global};
use std::marker::Model;

/// A report of one of two lines.
#[derive(Debug, Drop)]
pub struct PairLogged {
    /// The line that it is of.
    pub line: Line,
    /// The report.
    pub logged: LoggedReport,
}

/// Keeps the reports of two lines that it takes, in order, and refuses a report exactly where it is full.
///
/// It takes memory once, when it is made.
#[derive(Drop)]
pub struct PairLog {
    reports: Vec<PairLogged>,
    refusals: u64,
}

impl Model for PairLog {
    ghost use Rattle.bus_pairing.specs.LogState.{LogState};

    ghost Value = { LogState };

    ghost use Rattle.bus_pairing.specs.Internal.LogView.{pair_log_state};

    ghost view = { pair_log_state };
}

impl PairLog {
    /// An empty log with room for `room` reports. Fails only where memory was refused.
    pub fn new(alloc: Global, room: usize) -> Result<Self, AllocError>
        ensures { IfOk result (λ log. log ≡ record { reports = []; room = room; refusals = 0 }) }
    {
        let reports = Vec::with_capacity(alloc, room)?;
        Ok(PairLog {
            reports,
            refusals: 0,
        })
    }

    /// The reports of both lines, in the order in which they were taken.
    pub fn reports(&self) -> &[PairLogged]
        ensures { logged_pairs result.now ≡ self.now.reports }
    {
        self.reports.as_slice()
    }

    /// How many reports it has room for in all.
    pub fn room(&self) -> usize
        ensures { result ≡ self.now.room }
    {
        self.reports.capacity()
    }
}

impl PairSink for PairLog {
    ghost use Rattle.bus_pairing.specs.LogState.{log_sink};

    ghost sink = { log_sink };

    fn refused(&self) -> u64 {
        self.refusals
    }

    /// Takes a report of a line, or refuses it, exactly where the log is full.
    fn take(&mut self, line: Line, seen: &Seen<'_>) -> Result<(), SinkRefused>
        requires count { self.old.refusals < 2 ^ 64 - 1 }
        requires fits { octet_count (shown_on (Some line) seen.now).report ≤ most_octets }
        ensures exact { IsErr result ↔ (length self.old.reports ≡ self.old.room) }
        ensures taken { OnOk result (self.new.reports ≡ self.old.reports ++ shown_on (Some line) seen.now ∷ []) }
        ensures counted { OnOk result (self.new.refusals ≡ self.old.refusals) }
        ensures not_taken { OnErr result (self.new.reports ≡ self.old.reports) }
        ensures refused { OnErr result (self.new.refusals ≡ self.old.refusals + 1) }
        ensures same_room { self.new.room ≡ self.old.room }
        ensures within { OnOk result (length self.new.reports ≤ self.new.room) }
    {
        if self.reports.len() == self.reports.capacity() {
            self.refusals += 1;
            return Err(SinkRefused);
        }
        self.reports.push_reserved(PairLogged {
            line,
            logged: LoggedReport::of(seen),
        });
        Ok(())
    }
}
