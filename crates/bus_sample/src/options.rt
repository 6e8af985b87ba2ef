//! What is asked for.

ghost use Rattle.std.specs.Prelude.{◌≡◌};
ghost use Rattle.bus_sample.specs.Recording.{size_of};

use bus_tap::Wires;

/// How a recording is written.
#[derive(Clone, Copy, Debug, PartialEq, Eq)]
pub enum Form {
    /// A sample after the other, each of so many octets, 1 to 8, the lowest first.
    Samples {
        /// How many.
        octets: u8,
    },
    /// Runs of eight octets, the lowest first: the low octet has the levels, and the rest says in how many samples
    /// they stand.
    Runs,
}

impl Form {
    /// How many octets a record has.
    pub fn size(&self) -> u8
        ensures { result ≡ size_of self.now }
    {
        match self {
            Form::Samples { octets } => *octets,
            Form::Runs => 8,
        }
    }
}

/// What recording is read, and how its wires are sampled.
#[derive(Clone, Copy, Debug)]
pub struct SampleOptions {
    pub form: Form,
    pub wires: Wires,
    /// In how many samples after its first a level has to stand before it counts.
    pub hold: u32,
    /// By how many samples two distances of bits may differ.
    pub jump: u64,
    /// The longest distance of two bits of a line without a stop of its clock, in samples; 0 for any. A bit behind a
    /// stop comes behind fifteen 1s.
    pub rest: u64,
    /// Whether facts are told after each read.
    pub looks: bool,
    /// How often the reader may be called.
    pub reads: u64,
}
