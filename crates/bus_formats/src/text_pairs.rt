//! The pairs of a text capture of two lines.

ghost use Rattle.std.specs.Prelude.{◌≡◌, ℕ, ◌*◌, List, [], ◌∷◌, ◌++◌, ◌≤◌, ◌<◌, ◌⊎◌, ◌↔◌, length, take, drop, zip};
ghost use Rattle.std.specs.Prelude.{MatchResult, Some, None, IsSome};
ghost use Rattle.std.specs.Option.{ForSome, option_to_list};
ghost use Rattle.bus_bits.specs.Bits.{bits_from};
ghost use Rattle.bus_bits.specs.Octet.{bits_of};
ghost use Rattle.bus_formats.specs.Capture.{EightPairsIn, text_pairs, text_pairs_fault, bad_mark};

use crate::eight_bits::{EightPairs, PAIR_HIGH, eight_marks, gathered_pairs};
use crate::text_bits::{BadMark, is_skipped};

const ZERO: u8 = b'0';

/// What was parted of a text.
#[derive(Clone, Copy, Debug, PartialEq, Eq)]
pub struct PartedText {
    /// How many octets of either line it gave.
    pub filled: usize,
    /// How many octets of the text these took.
    pub taken: usize,
}

/// Reads a text capture of two lines: an octet `0` to `3` is the pair of bits that were received at
/// one place, and space, tab, CR and LF between them are skipped.
#[derive(Clone, Copy, Debug, PartialEq, Eq)]
pub struct TextPairs;

impl TextPairs {
    /// A reader that has taken no octet.
    pub fn new() -> Self {
        TextPairs
    }

    /// The pair of the next octet, or None where it is skipped: of `0` to `3` the lower bit is the
    /// first line's, and the higher the second line's.
    ///
    /// An octet that is neither a pair nor a space is refused as [`BadMark`], and changes nothing.
    pub fn step(&mut self, octet: u8) -> Result<Option<(bool, bool)>, BadMark>
        ensures given { (xs : List ℕ) → text_pairs_fault xs ≡ None → MatchResult result
            (λ pair. (text_pairs_fault (xs ++ octet ∷ []) ≡ None)
            × (text_pairs (xs ++ octet ∷ []) ≡ text_pairs xs ++ option_to_list pair))
            (λ _. (text_pairs_fault (xs ++ octet ∷ []) ≡ Some (bad_mark (length xs)))
            × (text_pairs (xs ++ octet ∷ []) ≡ text_pairs xs)) }
        ensures kept { self.new ≡ self.old }
    {
        // `0` to `3` share all bits but the two lowest, which are the pair.
        if octet / 4 == ZERO / 4 {
            Ok(Some((octet % 2 == 1, octet / 2 % 2 == 1)))
        } else if is_skipped(octet) {
            Ok(None)
        } else {
            Err(BadMark)
        }
    }

    /// The next eight pairs, and how many octets they take: eight, or nine where one of these is
    /// skipped. None where the next nine octets do not begin so.
    #[inline(always)]
    pub fn eight(octets: &[u8]) -> Option<EightPairs>
        ensures given { ForSome result (λ e. (xs : List ℕ) → text_pairs_fault xs ≡ None →
            (text_pairs_fault (xs ++ take e.taken octets.now) ≡ None)
            × (text_pairs (xs ++ take e.taken octets.now)
            ≡ text_pairs xs ++ zip (bits_of 8 e.first) (bits_of 8 e.second))) }
        ensures fewest { ForSome result
            (λ e. EightPairsIn e.taken octets.now × ((n : ℕ) → EightPairsIn n octets.now → e.taken ≤ n)) }
        ensures few { ForSome result (λ e. (8 ≤ e.taken) × (e.taken ≤ 9)) }
        ensures some { IsSome result ↔ (EightPairsIn 8 octets.now ⊎ EightPairsIn 9 octets.now) }
    {
        let eight = eight_marks(octets, PAIR_HIGH)?;
        let (first, second) = gathered_pairs(&eight.marks);
        Some(EightPairs {
            first,
            second,
            taken: eight.taken,
        })
    }

    /// Parts the next pairs of a text, eight at a time as [`TextPairs::eight`] finds them, as long as they come so and
    /// the blocks have room: the first line's bits into one block and the second line's into another, each in octets
    /// whose lowest bit is the first.
    #[inline(always)]
    pub fn part(text: &[u8], first: &mut [u8], second: &mut [u8]) -> PartedText
        requires same { length first.old ≡ length second.old }
        ensures enough { result.taken ≤ length text.now }
        ensures within { result.filled ≤ length first.new }
        ensures given { (xs : List ℕ) → text_pairs_fault xs ≡ None →
            (text_pairs_fault (xs ++ take result.taken text.now) ≡ None)
            × (text_pairs (xs ++ take result.taken text.now) ≡ text_pairs xs
            ++ zip (bits_from first.new 0 (8 * result.filled)) (bits_from second.new 0 (8 * result.filled))) }
        ensures most { result.filled < length first.new → (n : ℕ) → n ≡ 8 ⊎ n ≡ 9 →
            ¬ (EightPairsIn n (drop result.taken text.now)) }
        ensures len { (length first.new ≡ length first.old) × (length second.new ≡ length second.old) }
    {
        let mut filled = 0;
        let mut taken = 0;
        while filled < first.len() {
            let Some(eight) = TextPairs::eight(&text[taken..]) else {
                break;
            };
            first[filled] = eight.first;
            second[filled] = eight.second;
            filled += 1;
            taken += eight.taken;
        }
        PartedText { filled, taken }
    }
}
