//! What an analyser of two lines holds and how much it did.

ghost use Rattle.std.specs.Prelude.{◌+◌, ◌≤◌};
ghost use Rattle.bus_dictionary.specs.Dictionary.{longest_of};
ghost use Rattle.bus_watch.specs.PairHeadline.{WholePairRun};

use crate::laws::{any_cut_of_pairs, pairs_grow, seen_grows};
use crate::pair::analyser::PairAnalyser;
use bus_bits::Spent;
use bus_fcs::Check;
use bus_line::laws::reports_are;
use bus_pairing::Line;

/// What an analyser of two lines holds, and the steps that it took, after some pairs of bits.
#[derive(Clone, Copy, Debug, PartialEq, Eq)]
pub struct PairUsage {
    /// How many octets of the first line's open piece are in its frame buffer.
    pub first_buffered: usize,
    /// How many of the second line's.
    pub second_buffered: usize,
    /// How many frames the history has.
    pub history_len: usize,
    /// The counted steps of both lines.
    pub spent: Spent,
}

impl<C: Check> PairAnalyser<C> {
    /// What the analyser holds, and the steps that it took so far.
    ///
    /// The contract is the headline for two lines, for calls of any kind. Take any run of calls that led
    /// here from an analyser that took no pair, and all pairs that they took: what the calls told, in order,
    /// is exactly what is seen of the merged reports of both lines; the frame buffers and the history hold
    /// what they have to and no more than their bounds; and the steps are those of both lines' ledgers, at
    /// most seventeen for each bit of either line.
    pub fn usage(&self) -> PairUsage
        ensures headline { WholePairRun C.check self.now result }
        ensures first_bound { result.first_buffered ≤ longest_of self.now.conversation.dictionary + 2 }
        ensures second_bound { result.second_buffered ≤ longest_of self.now.conversation.dictionary + 2 }
        ensures history_bound { result.history_len ≤ self.now.conversation.depth }
    {
        reports_are();
        seen_grows();
        pairs_grow();
        any_cut_of_pairs::<C>();
        PairUsage {
            first_buffered: self.buffered(Line::First),
            second_buffered: self.buffered(Line::Second),
            history_len: self.history_len(),
            spent: self.spent(),
        }
    }
}
