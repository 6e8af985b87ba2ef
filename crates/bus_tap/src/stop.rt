//! Brings a line to rest where its clock stands still.

ghost use Rattle.std.specs.Prelude.{◌≡◌, ◌++◌, ◌∷◌, [], Bool};
ghost use Rattle.bus_tap.specs.Stopped.{AdvancesStops, IsStopAfter, stop_fill};

use bus_line::Line;

/// Brings a line to rest where its clock stands still, as with senders that drive it only while they send: a bit that
/// comes long after the one before it comes behind fifteen 1s (ISO/IEC 13239, idle state). The layout is C's.
#[repr(C)]
#[derive(Clone, Copy, Debug, PartialEq, Eq)]
pub struct StopRule {
    /// The longest distance of two bits of a line without a stop between them, in samples; 0 for any.
    pub most: u64,
    /// The last sample with which a bit of the first line comes behind no stop.
    pub first: u64,
    /// That of the second line.
    pub second: u64,
}

impl StopRule {
    /// The rule before the first bit. `most` is the longest distance of two bits without a stop; with 0 there is none.
    pub fn new(most: u64) -> Self
        ensures after { IsStopAfter result [] }
        ensures most { result.most ≡ most }
    {
        StopRule {
            most,
            first: u64::MAX,
            second: u64::MAX,
        }
    }

    /// A bit of a line arrives with this sample. Returns whether fifteen 1s of the line come before it. These are not
    /// pushed here.
    #[inline(always)]
    pub fn push(&mut self, line: Line, sample: u64) -> bool
        ensures { (bit : Bool) → AdvancesStops self.old ((sample, (line, bit)) ∷ [])
            (stop_fill result line ++ (line, bit) ∷ []) self.new }
    {
        let until = if self.most == 0 {
            u64::MAX
        } else {
            sample.saturating_add(self.most)
        };
        match line {
            Line::First => {
                let stops = sample > self.first;
                self.first = until;
                stops
            }
            Line::Second => {
                let stops = sample > self.second;
                self.second = until;
                stops
            }
        }
    }
}
