//! Laws over the definitions.

ghost use Rattle.bus_clocks.specs.Laws.{InTurnIsMerged, LinesApart, AnyCutOfArrivals};
ghost use Rattle.bus_tap.specs.Laws.{ArrivalsGrow};
ghost use Rattle.bus_tap.specs.Laws.{CountedIsIt, RestLeavesFirst, SameSamplesBringNothing};

use bus_fcs::Check;
use bus_line::laws::{reports_are, reports_grow};

/// An arrival adds what it decides on its line. The reports of either line are those of its own bits. Where
/// the bits of two lines arrive in turn, these are the reports of two lines with one clock, at the same
/// places and in the same order.
pub fn arrivals_are()
    ensures grow { ArrivalsGrow }
    ensures apart { LinesApart }
    ensures in_turn { InTurnIsMerged }
{
    reports_are();
    reports_grow();
}

/// For every list of arrivals, however it is cut into calls, what the calls show is what is seen of the whole list, in
/// order.
pub fn any_cut_of_arrivals<C: Check>()
    ensures { AnyCutOfArrivals C.check }
{}
