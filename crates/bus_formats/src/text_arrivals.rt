//! The arrivals of a text capture of two lines with a clock each.

ghost use Rattle.std.specs.Prelude.{◌≡◌, ℕ, List, [], ◌∷◌, ◌++◌, length, MatchResult, Some, None};
ghost use Rattle.std.specs.Prelude.{if◌then◌else◌};
ghost use Rattle.std.specs.Option.{option_to_list};
ghost use Rattle.bus_formats.specs.Capture.{text_arrivals, text_arrivals_fault, bad_mark, is_arrival, mark_arrival};

use crate::text_bits::{BadMark, is_skipped};

/// Reads a text capture of two lines with a clock each: `0` and `1` are bits of the first line and `o` and `i` bits of
/// the second, in the order of arrival. Space, tab, CR and LF between them are skipped.
#[derive(Clone, Copy, Debug, PartialEq, Eq)]
pub struct TextArrivals;

impl TextArrivals {
    /// A reader that has taken no octet.
    pub fn new() -> Self {
        TextArrivals
    }

    /// The arrival of the next octet, or None where it is skipped: the bit, and whether it is one of the second line.
    ///
    /// Any other octet is refused as [`BadMark`], and changes nothing.
    pub fn step(&mut self, octet: u8) -> Result<Option<(bool, bool)>, BadMark>
        ensures given { (xs : List ℕ) → text_arrivals_fault xs ≡ None → MatchResult result
            (λ arrival. (text_arrivals_fault (xs ++ octet ∷ []) ≡ None)
            × (text_arrivals (xs ++ octet ∷ []) ≡ text_arrivals xs ++ option_to_list arrival))
            (λ _. (text_arrivals_fault (xs ++ octet ∷ []) ≡ Some (bad_mark (length xs)))
            × (text_arrivals (xs ++ octet ∷ []) ≡ text_arrivals xs)) }
        ensures kept { self.new ≡ self.old }
    {
        if let Some(arrival) = marked(octet) {
            Ok(Some(arrival))
        } else if is_skipped(octet) {
            Ok(None)
        } else {
            Err(BadMark)
        }
    }
}

/// The arrival that an octet marks, if it is a mark.
fn marked(octet: u8) -> Option<(bool, bool)>
    ensures { result ≡ if is_arrival octet then Some (mark_arrival octet) else None }
{
    match octet {
        b'0' => Some((false, false)),
        b'1' => Some((true, false)),
        b'o' => Some((false, true)),
        b'i' => Some((true, true)),
        _ => None,
    }
}
