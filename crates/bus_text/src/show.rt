//! Shows one frame that is typed in hexadecimal.

ghost use Rattle.std.specs.Prelude.{option_map};
ghost use Rattle.bus_text.specs.Show.{Shows};

mod names;
mod put;
mod typed;

use crate::dictionary::read_dictionary;
use crate::fault::ToolFault;
use put::put_frame;
use std::alloc::Global;
use std::io::Write;
use typed::typed_frame;

/// Writes what one frame is. `hex` has its octets, the two of the check among them, in hexadecimal digits
/// of either case. Written are the octets and whether the check is good, what the head says by the
/// dictionary, and the names of the bits that are 1. The writer is flushed once.
///
/// # Errors
///
/// - `Hex`: the digits are none, odd in number, or not all digits.
/// - `FrameSize`: they are not 4 to 258 octets.
/// - `Dictionary`: the text is no dictionary. `Memory`: memory was refused for it. Up to here
///   nothing was written.
/// - `Write`: a write or the flush failed, or a write took nothing.
pub fn show_frame<W: Write>(
    alloc: Global,
    dictionary: Option<&str>,
    hex: &str,
    w: &mut W,
) -> Result<(), ToolFault>
    ensures { Shows (option_map (λ s. s.now) dictionary.entry) hex.now (W.contents w.old) (W.contents w.new) result }
{
    let octets = typed_frame(hex)?;
    let dictionary = read_dictionary(alloc, dictionary)?;
    put_frame(&octets, &dictionary, w)?;
    Ok(())
}
