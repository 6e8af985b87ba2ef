//! What can go wrong.

ghost use Rattle.std.specs.Prelude.{◌≡◌};

use crate::put::ShortWrite;
use bus_dictionary::DictFault;
use thiserror::Error;

/// Why a call of the tool stopped. The text is what the program prints after its name.
#[derive(Debug, Drop, PartialEq, Eq, Error)]
pub enum ToolFault {
    /// Memory was refused.
    #[error("no memory")]
    Memory,
    /// The text is no dictionary.
    #[error("{0}")]
    Dictionary(DictFault),
    /// The depth of the history is not 1 to 1024.
    #[error("depth is not 1 to 1024")]
    Depth,
    /// The origin is above 2^60.
    #[error("origin is above 1152921504606846976")]
    Origin,
    /// The input ended within the head of a packed capture.
    #[error("capture: short head")]
    ShortHead,
    /// The head of a packed capture begins with other octets.
    #[error("capture: wrong magic")]
    Magic,
    /// The head of a packed capture counts more than 2^60 bits.
    #[error("capture: too many bits")]
    TooMany,
    /// The input ended before the last bit of a packed capture.
    #[error("capture: short body")]
    ShortBody,
    /// An unused bit of the last octet of a packed capture is 1.
    #[error("capture: spare bits are not 0")]
    PadBits,
    /// An octet follows the last of a packed capture.
    #[error("capture: octets after the end")]
    Trailing,
    /// The octet of the capture at place `at` is neither a bit nor a space. Octets count from 0.
    #[error("capture: octet {at} is no bit")]
    BadMark { at: u128 },
    /// The next bit's place would be 2^60.
    #[error("capture: place limit")]
    PlaceLimit,
    /// The reader answered an error.
    #[error("read failed")]
    Read,
    /// The reader was called as often as is allowed and did not reach the end.
    #[error("too many reads")]
    ReadsLimit,
    /// A write or the flush failed, or a write took nothing. The first `written` octets of the
    /// text went out.
    #[error("write failed")]
    Write { written: u128 },
    /// The text is no even number of hexadecimal digits, or has none.
    #[error("bad hex")]
    Hex,
    /// A frame that is typed does not have 4 to 258 octets, its check among them.
    #[error("frame is not 4 to 258 octets")]
    FrameSize,
    /// The word names no kind of line.
    #[error("unknown kind")]
    Kind,
    /// The line of this number is malformed or too long. Lines count from 1.
    #[error("line {0}: bad line")]
    BadLine(u128),
    /// The frame of the line of this number does not have 2 to 256 octets.
    #[error("line {0}: frame is not 2 to 256 octets")]
    FrameLength(u128),
}

impl From<ShortWrite> for ToolFault {
    ghost use Rattle.bus_text.specs.declared.fault.ToolFault.TheVariants.{Write};

    ghost from_gives = { λ cut fault. fault ≡ Write cut.sent };

    fn from(cut: ShortWrite) -> ToolFault {
        ToolFault::Write { written: cut.sent }
    }
}
