//! The bits of a text capture.

ghost use Rattle.std.specs.Prelude.{◌≡◌, ℕ, List, [], ◌∷◌, ◌++◌, ◌≤◌, ◌⊎◌, length, take, MatchResult, Some, None};
ghost use Rattle.std.specs.Prelude.{IsSome, ◌↔◌};
ghost use Rattle.std.specs.Option.{ForSome, option_to_list};
ghost use Rattle.bus_bits.specs.Octet.{bits_of};
ghost use Rattle.bus_formats.specs.Capture.{EightIn, text_fault, bad_mark};
ghost use Rattle.bus_bits.specs.Text.{text_bits, is_space};

use crate::eight_bits::{BIT_HIGH, EightBits, eight_marks, gathered, other_bits};

const ONE: u8 = b'1';

/// The octet is neither a mark (`0` or `1`; of two lines `0` to `3`; with a clock each `0`, `1`, `o` or `i`) nor white
/// space (space, tab, CR or LF).
#[derive(Clone, Copy, Debug, PartialEq, Eq)]
pub struct BadMark;

/// Reads a text capture: the octets `0` and `1` are bits in the order received, and space, tab,
/// CR and LF between them are skipped.
#[derive(Clone, Copy, Debug, PartialEq, Eq)]
pub struct TextBits;

impl TextBits {
    /// A reader that has taken no octet.
    pub fn new() -> Self {
        TextBits
    }

    /// The bit of the next octet, or None where it is skipped.
    ///
    /// An octet that is neither a bit nor a space is refused as [`BadMark`], and changes nothing.
    pub fn step(&mut self, octet: u8) -> Result<Option<bool>, BadMark>
        ensures given { (xs : List ℕ) → text_fault xs ≡ None → MatchResult result
            (λ bit. (text_fault (xs ++ octet ∷ []) ≡ None)
            × (text_bits (xs ++ octet ∷ []) ≡ text_bits xs ++ option_to_list bit))
            (λ _. (text_fault (xs ++ octet ∷ []) ≡ Some (bad_mark (length xs)))
            × (text_bits (xs ++ octet ∷ []) ≡ text_bits xs)) }
        ensures kept { self.new ≡ self.old }
    {
        // `0` and `1` are even and odd, and share the other bits.
        if octet / 2 == ONE / 2 {
            Ok(Some(octet == ONE))
        } else if is_skipped(octet) {
            Ok(None)
        } else {
            Err(BadMark)
        }
    }

    /// The bits of the next eight octets, the first the lowest. None where these are not eight bits.
    #[inline(always)]
    pub fn of_eight(octets: &[u8]) -> Option<u8>
        ensures given { ForSome result (λ o. (xs : List ℕ) → text_fault xs ≡ None →
            (text_fault (xs ++ take 8 octets.now) ≡ None)
            × (text_bits (xs ++ take 8 octets.now) ≡ text_bits xs ++ bits_of 8 o)) }
        ensures some { IsSome result ↔ EightIn 8 octets.now }
    {
        let front: &[u8; 8] = octets.first_chunk()?;
        if other_bits(front, BIT_HIGH) != 0 {
            return None;
        }
        Some(gathered(front))
    }

    /// The next eight bits, and how many octets they take: eight, or nine where one of these is
    /// skipped. None where the next nine octets do not begin so.
    #[inline(always)]
    pub fn eight(octets: &[u8]) -> Option<EightBits>
        ensures given { ForSome result (λ e. (xs : List ℕ) → text_fault xs ≡ None →
            (text_fault (xs ++ take e.taken octets.now) ≡ None)
            × (text_bits (xs ++ take e.taken octets.now) ≡ text_bits xs ++ bits_of 8 e.octet)) }
        ensures fewest { ForSome result
            (λ e. EightIn e.taken octets.now × ((n : ℕ) → EightIn n octets.now → e.taken ≤ n)) }
        ensures few { ForSome result (λ e. (8 ≤ e.taken) × (e.taken ≤ 9)) }
        ensures some { IsSome result ↔ (EightIn 8 octets.now ⊎ EightIn 9 octets.now) }
    {
        let eight = eight_marks(octets, BIT_HIGH)?;
        Some(EightBits {
            octet: gathered(&eight.marks),
            taken: eight.taken,
        })
    }
}

/// Whether the octet is space, tab, CR or LF.
pub(crate) fn is_skipped(octet: u8) -> bool
    ensures { result ≡ is_space octet }
{
    octet == b' ' || octet == b'\t' || octet == b'\r' || octet == b'\n'
}
