//! Laws over the definitions.

ghost use Rattle.bus_watch.specs.Cut.{CutLosesNothing, CutLosesVerdict, FlagLosesNothing};
ghost use Rattle.bus_watch.specs.Laws.{SeenGrows, SeenAreReports, SeenDecides, StepsWithinFour, StepsWithinThree};
ghost use Rattle.bus_watch.specs.Laws.{BitCosts, PairCosts, ClosedPaid, AnyCut, AnyCutOfPairs, PairsGrow};
ghost use Rattle.bus_watch.specs.Laws.{MergedIsMerged};

use bus_fcs::Check;
use bus_line::laws::{
    cut_at_flag, frame_is_spelled, reports_are, reports_grow, reports_own_bits, settled_places,
};

/// What is seen of a list of bits is its reports, each with what follows from it: one bit more adds
/// what is seen at it, and the verdicts are those of the talk.
pub fn seen_grows()
    ensures grows { SeenGrows }
    ensures reports { SeenAreReports }
    ensures decides { SeenDecides }
{
    reports_are();
    reports_grow();
}

/// What is reported of two lines is the reports of each by itself and no others, by due place, the first
/// line's first where both have one: one pair of bits more adds what is seen at it.
pub fn pairs_grow()
    ensures grows { PairsGrow }
    ensures merged { MergedIsMerged }
{
    reports_are();
    reports_grow();
}

/// Where a list of reports is cut in two and each part is watched by itself, what is seen is the same, but where a
/// command waits at the cut: then its verdict is lost, and with it whether its answer is a stray. Bits may be cut right
/// after a flag up to which no command waits, and watched again from that flag on; cut inside a frame, they lose it.
pub fn cut_loses_a_verdict()
    ensures nothing { CutLosesNothing }
    ensures verdict { CutLosesVerdict }
    ensures flag { FlagLosesNothing }
{
    cut_at_flag();
}

/// The counted steps are at most four for each bit, and three where the check costs one an octet.
pub fn steps_are_bounded()
    ensures four { StepsWithinFour }
    ensures three { StepsWithinThree }
{
    reports_are();
    reports_own_bits();
    settled_places();
}

/// One bit costs at most seventeen steps and the octets of the frame that it closes, for each of
/// which eight bits of that frame came before; a pair of bits costs what its bits cost on either line.
pub fn one_bit_is_bounded()
    ensures costs { BitCosts }
    ensures pairs { PairCosts }
    ensures paid { ClosedPaid }
{
    reports_are();
    reports_grow();
    settled_places();
    frame_is_spelled();
}

/// For every list of bits, however it is cut into calls of `push`, `take`, `feed` and `feed_all`, what
/// they tell is what is seen of the whole list, in order.
pub fn any_cut<C: Check>()
    ensures { AnyCut C.check }
{}

/// The same for every list of pairs of bits.
pub fn any_cut_of_pairs<C: Check>()
    ensures { AnyCutOfPairs C.check }
{}
