//! The tally of verdicts.

ghost use Rattle.std.specs.Prelude.{◌≡◌, ◌+◌, ◌<◌, ◌^◌};

use crate::conversation::Conversation;
use crate::counts::Counts;
use crate::outcome::Outcome;
use crate::verdict::Verdict;

impl Conversation {
    ghost use Rattle.bus_pairing.specs.Internal.Counted.{Counted};

    /// Counts a verdict for its station, if there is one, and the step.
    #[inline(always)]
    pub(crate) fn count(&mut self, verdict: Option<Verdict>)
        requires { self.old.handled + 1 < 2 ^ 64 }
        ensures tally { Counted verdict self.old.tally self.new.tally }
        ensures kept { self.new ≡ record self.old { tally = self.new.tally; handled = self.old.handled + 1 } }
    {
        self.spent.tick_handled();
        if let Some(verdict) = verdict {
            let station = usize::from(verdict.station);
            self.tally[station] = self.tally[station].counted(verdict.outcome);
        }
    }
}

impl Counts {
    ghost use Rattle.bus_pairing.specs.Internal.Counted.{one_more};

    /// One verdict more.
    #[inline(always)]
    fn counted(self, outcome: Outcome) -> Counts
        requires answered { self.answered + 1 < 2 ^ 64 }
        requires missing { self.missing + 1 < 2 ^ 64 }
        requires spoilt { self.spoilt + 1 < 2 ^ 64 }
        requires late { self.late + 1 < 2 ^ 64 }
        ensures { result ≡ one_more outcome self }
    {
        match outcome {
            Outcome::Answered => Counts {
                answered: self.answered + 1,
                ..self
            },
            Outcome::Missing => Counts {
                missing: self.missing + 1,
                ..self
            },
            Outcome::Spoilt => Counts {
                spoilt: self.spoilt + 1,
                ..self
            },
            Outcome::Late => Counts {
                late: self.late + 1,
                ..self
            },
        }
    }
}
