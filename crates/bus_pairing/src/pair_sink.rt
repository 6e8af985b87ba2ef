//! Where the reports of two lines go.

ghost use Rattle.std.specs.Prelude.{◌≡◌, ◌+◌, ◌-◌, ◌<◌, ◌≤◌, ◌^◌, [], ◌∷◌, Some, OnOk, OnErr};
ghost use Rattle.bus_line.specs.Ledger.{octet_count};
ghost use Rattle.bus_line.specs.Limits.{most_octets};
ghost use Rattle.bus_line.specs.Told.{told};
ghost use Rattle.bus_pairing.specs.Shown.{shown_on};
ghost use Rattle.bus_pairing.specs.Sink.{SinkView, IsFull, IsWithinRoom};

use crate::seen::Seen;
use bus_line::{Line, SinkRefused};

/// Takes what is seen on two lines, one report after another.
pub trait PairSink {
    /// The reports that it took, how many it has room for in all, and how often it refused. A sink may leave the first
    /// two untold.
    ghost sink: { SinkView Self };

    /// How often it refused.
    fn refused(&self) -> u64
        ensures { result ≡ sink.refusals self.now };

    /// Takes a report of a line, or refuses it: then it was not taken, and the count of refusals is
    /// one more. A sink that tells both its room and what it took refuses exactly where it is full.
    fn take(&mut self, line: Line, seen: &Seen<'_>) -> Result<(), SinkRefused>
        requires count { sink.refusals self.old < 2 ^ 64 - 1 }
        requires fits { octet_count (shown_on (Some line) seen.now).report ≤ most_octets }
        ensures taken { OnOk result (sink.taken self.new
            ≡ told (sink.taken self.old) (shown_on (Some line) seen.now ∷ [])) }
        ensures counted { OnOk result (sink.refusals self.new ≡ sink.refusals self.old) }
        ensures not_taken { OnErr result (sink.taken self.new ≡ sink.taken self.old) }
        ensures refused { OnErr result (sink.refusals self.new ≡ sink.refusals self.old + 1) }
        ensures same_room { sink.room self.new ≡ sink.room self.old }
        ensures full { OnErr result (IsFull (sink.room self.old) (sink.taken self.old)) }
        ensures within { OnOk result (IsWithinRoom (sink.room self.new) (sink.taken self.new)) };
}
