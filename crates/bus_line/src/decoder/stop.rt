//! Where taking bits stops.

ghost use Rattle.std.specs.Prelude.{◌≡◌, ◌≢◌, ◌+◌, ◌/◌, ◌%◌, ◌≤◌, ◌<◌, ◌^◌, false, ℕ};
ghost use Rattle.bus_line.specs.Internal.Settled.{IsStop};

use std::cmp::min;

/// Where six ones may begin that end before one of 56 bits after eight others.
const SIXES: u64 = 0x03ff_ffff_ffff_fffc;

/// How many bits are taken, and whether they end with a stop: a bit that may decide a report, after six ones or
/// fourteen.
#[derive(Clone, Copy)]
pub(crate) struct Stopped {
    pub(crate) count: usize,
    pub(crate) is_stop: bool,
}

/// How many of the 56 bits after the eight lowest of the word there are up to the first before which six ones end, and
/// that one; all of them, if there is none.
#[inline(always)]
pub(crate) fn up_to_six(word: u64) -> Stopped
    ensures count { (1 ≤ result.count) × (result.count ≤ 56) }
    ensures before { (i : ℕ) → i + 1 < result.count → word / 2 ^ (2 + i) % 64 ≢ 63 }
    ensures none { result.is_stop ≡ false → (result.count ≡ 56) × ((i : ℕ) → i < 56 → word / 2 ^ (2 + i) % 64 ≢ 63) }
{
    let two = word & word >> 1;
    let four = two & two >> 2;
    let six = four & two >> 4 & SIXES;
    if six == 0 {
        return Stopped {
            count: 56,
            is_stop: false,
        };
    }
    Stopped {
        count: six.trailing_zeros() as usize - 1,
        is_stop: true,
    }
}

/// How many of the `count` new bits there are up to the first that comes after exactly six ones or exactly fourteen,
/// and that one; all of them, if there is none.
///
/// The word has the sixteen bits before the new ones, and these, the oldest lowest.
#[inline(always)]
pub(crate) fn up_to_stop(word: u64, count: u32) -> Stopped
    requires some { (1 ≤ count) × (count ≤ 48) }
    ensures count { (1 ≤ result.count) × (result.count ≤ count) }
    ensures before { (i : ℕ) → i + 1 < result.count → IsStop word i → ⊥ }
    ensures none { result.is_stop ≡ false → (result.count ≡ count) × ((i : ℕ) → i < count → IsStop word i → ⊥) }
{
    let two = word & word >> 1;
    let four = two & two >> 2;
    let six = four & two >> 4;
    let fourteen = six & four >> 6 & four >> 10;
    let stop = six >> 10 & !(word >> 9) | fourteen >> 2 & !(word >> 1) | 1 << count;
    let before = stop.trailing_zeros();
    Stopped {
        count: min(before + 1, count) as usize,
        is_stop: before < count,
    }
}
