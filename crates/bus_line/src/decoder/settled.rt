//! What later bits settle.

ghost use Rattle.std.specs.Prelude.{◌≡◌, ◌≤◌, ◌<◌, ◌+◌, ◌/◌, ◌%◌, ◌^◌, ◌↔◌, ℕ};
ghost use Rattle.bus_bits.specs.Octet.{bits_of};
ghost use Rattle.bus_line.specs.Internal.Settled.{kept, data_in_word};

use crate::decoder::marked::{Bits, Marked};

/// The data among the `count` bits after the eight lowest of the word: those that are no inserted
/// 0 (ISO/IEC 13239, transparency).
#[inline(always)]
pub(crate) fn data_in_word(word: u64, count: u64) -> Bits
    requires { count ≤ 56 }
    ensures value { bits_of result.count result.bits ≡ data_in_word word count }
    ensures few { result.count ≤ count }
{
    let all = (1 << count) - 1;
    Marked::of(word >> 8, inserted_zeros(word) & all, count)
        .without_lowest()
        .unmarked()
}

/// Which of the bits after the eight lowest of the word are inserted 0s: a 0 after five ones.
#[inline(always)]
fn inserted_zeros(word: u64) -> u64
    ensures { (k : ℕ) → k < 56 → (result / 2 ^ k % 2 ≡ 1 ↔ word / 2 ^ (3 + k) % 64 ≡ 31) }
{
    let two = word & word >> 1;
    let four = two & two >> 2;
    let five = four & word >> 4;
    five >> 3 & !(word >> 8)
}
