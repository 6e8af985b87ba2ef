//! What can go wrong.

ghost use Rattle.std.specs.Prelude.{◌≡◌};

use bus_text::ShortWrite;
use thiserror::Error;

/// Why sampling stopped. The text is what the program prints after its name.
#[derive(Debug, Drop, PartialEq, Eq, Error)]
pub enum SampleFault {
    /// A sample is said to have no octets, or more than eight.
    #[error("a sample is 1 to 8 octets")]
    Octets,
    /// The input ended within a record, which begins at this octet. Octets count from 0.
    #[error("octet {0}: sample is cut off")]
    CutOff(u128),
    /// There are more samples than 2^60.
    #[error("too many samples")]
    TooMany,
    /// The reader answered an error.
    #[error("read failed")]
    Read,
    /// The reader was called as often as is allowed and did not reach the end.
    #[error("too many reads")]
    ReadsLimit,
    /// The facts after a read could not be told in whole.
    #[error("write failed")]
    Facts,
    /// A write or the flush failed, or a write took nothing. The first so many octets of the text went out.
    #[error("write failed")]
    Write(u128),
}

impl From<ShortWrite> for SampleFault {
    ghost use Rattle.bus_sample.specs.declared.fault.SampleFault.TheVariants.{Write};

    ghost from_gives = { λ cut fault. fault ≡ Write cut.sent };

    fn from(cut: ShortWrite) -> SampleFault {
        SampleFault::Write(cut.sent)
    }
}
