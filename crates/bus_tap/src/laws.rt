//! Laws over the definitions.

ghost use Rattle.bus_tap.specs.Laws.{CountedIsIt, RestLeavesFirst, RestNeedsSilence, RestStays};
ghost use Rattle.bus_tap.specs.Laws.{SameSamplesBringNothing, SilenceBringsRest};

/// Rest is put into the second line alone, so that no place changes.
pub fn rest_leaves_the_first_line()
    ensures { RestLeavesFirst }
{}

/// A second line that is silent for so many places is at rest: what a station broke off has ended in an abort.
pub fn silence_brings_rest()
    ensures { SilenceBringsRest }
{}

/// A second line at rest stays there up to its next 0, and nothing is put in.
pub fn rest_stays()
    ensures { RestStays }
{}

/// Nothing is put in among bits of the second line that come without so long a silence, as those of a frame do.
pub fn rest_needs_silence()
    ensures { RestNeedsSilence }
{}

/// Which level of a channel counts is the last one that stood long enough.
pub fn counted_levels_stood()
    ensures { CountedIsIt }
{}

/// Of samples in a row that are the same, those after the first `hold` + 1 may be left out. With `hold` 0 each sample
/// that changes nothing may be.
pub fn same_samples_bring_nothing()
    ensures { SameSamplesBringNothing }
{}
