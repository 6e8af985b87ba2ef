//! The octets of a frame that is typed.

ghost use Rattle.std.specs.Prelude.{◌≡◌, ◌≤◌, IfOk, length, MatchResult, Ok, Err};
ghost use Rattle.bus_line.specs.Limits.{most_octets};
ghost use Rattle.bus_text.specs.Show.{typed_frame};

use crate::digits::{is_hex, octets_of};
use crate::fault::ToolFault;
use arrayvec::ArrayVec;

/// The most octets of a frame with its check.
const MOST: usize = 258;

/// The octets of a frame that is typed in hexadecimal.
pub fn typed_frame(hex: &str) -> Result<ArrayVec<u8, MOST>, ToolFault>
    ensures octets { MatchResult result (λ octets. typed_frame hex.now ≡ Ok octets.items)
        (λ fault. typed_frame hex.now ≡ Err fault) }
    ensures at_least { IfOk result (λ octets. 4 ≤ length octets.items) }
    ensures at_most { IfOk result (λ octets. length octets.items ≤ most_octets) }
{
    let digits = hex.as_bytes();
    if !is_hex(digits) {
        return Err(ToolFault::Hex);
    }
    let count = digits.len() / 2;
    if count < 4 || MOST < count {
        return Err(ToolFault::FrameSize);
    }
    Ok(octets_of(digits))
}
