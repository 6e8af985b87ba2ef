//! What an analyser holds and how much it did.

ghost use Rattle.std.specs.Prelude.{◌+◌, ◌≤◌};
ghost use Rattle.bus_dictionary.specs.Dictionary.{longest_of};
ghost use Rattle.bus_watch.specs.Headline.{WholeRun};

use crate::analyser::Analyser;
use crate::laws::{any_cut, seen_grows};
use bus_bits::Spent;
use bus_fcs::Check;
use bus_line::laws::reports_are;

/// What an analyser holds, and the steps that it took, after some bits.
#[derive(Clone, Copy, Debug, PartialEq, Eq)]
pub struct Usage {
    /// How many octets of the open piece are in the frame buffer; 0 where no piece is open.
    pub buffered: usize,
    /// How many frames the history has.
    pub history_len: usize,
    /// The counted steps.
    pub spent: Spent,
}

impl<C: Check> Analyser<C> {
    /// What the analyser holds, and the steps that it took so far.
    ///
    /// The contract is the headline, for calls of any kind. Take any run of calls that led here from
    /// an analyser that took no bit, and all bits that they took: what the calls told, in order, is
    /// exactly what is seen of these bits; the frame buffer and the history hold what they have to and
    /// no more than their bounds; and the steps are those of the ledger, at most seventeen for each bit.
    pub fn usage(&self) -> Usage
        ensures headline { WholeRun C.check self.now result }
        ensures buffer_bound { result.buffered ≤ longest_of self.now.conversation.dictionary + 2 }
        ensures history_bound { result.history_len ≤ self.now.conversation.depth }
    {
        reports_are();
        seen_grows();
        any_cut::<C>();
        Usage {
            buffered: self.buffered(),
            history_len: self.history_len(),
            spent: self.spent(),
        }
    }
}
