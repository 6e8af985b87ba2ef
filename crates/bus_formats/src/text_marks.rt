//! Which octets of a text capture are bits, many at once.

ghost use Rattle.std.specs.Prelude.{◌≡◌, ◌<◌, ◌^◌, ◌==◌, length, map};
ghost use Rattle.std.specs.Simd.Lanes.{Each1};
ghost use Rattle.bus_bits.specs.Octet.{bits_of};
ghost use Rattle.bus_bits.specs.Text.{is_bit};

use std::simd::prelude::*;

/// The bits of an octet that `0` and `1` share.
const SHARED: u8 = 0xfe;

/// What some octets of a text are, the first the lowest.
#[derive(Clone, Copy)]
pub(crate) struct TextMarks {
    /// Which of them are `1`.
    pub(crate) ones: u64,
    /// Which of them are `0` or `1`.
    pub(crate) bits: u64,
}

/// Which of 64 octets are `1`, and which are bits.
#[inline(always)]
pub(crate) fn marks_of_sixty_four(octets: &[u8; 64]) -> TextMarks
    ensures ones { bits_of 64 result.ones ≡ map (λ x. x == 49) octets.now }
    ensures bits { bits_of 64 result.bits ≡ map is_bit octets.now }
{
    let text = u8x64::from_array(*octets);
    TextMarks {
        ones: text.simd_eq(u8x64::splat(b'1')).to_bitmask(),
        bits: bits_in_sixty_four(text),
    }
}

/// Which of 64 octets are `0` or `1`: these share all bits but the lowest.
#[inline(always)]
fn bits_in_sixty_four(text: u8x64) -> u64
    requires long { length text ≡ 64 }
    requires octets { Each1 (λ x. x < 256) text }
    ensures { bits_of 64 result ≡ map is_bit text }
{
    let shared = text & u8x64::splat(SHARED);
    shared.simd_eq(u8x64::splat(b'0')).to_bitmask()
}

/// Which of 16 octets are `1`, and which are bits.
#[inline(always)]
pub(crate) fn marks_of_sixteen(octets: &[u8; 16]) -> TextMarks
    ensures ones { bits_of 16 result.ones ≡ map (λ x. x == 49) octets.now }
    ensures bits { bits_of 16 result.bits ≡ map is_bit octets.now }
    ensures few { (result.ones < 2 ^ 16) × (result.bits < 2 ^ 16) }
{
    let text = u8x16::from_array(*octets);
    TextMarks {
        ones: text.simd_eq(u8x16::splat(b'1')).to_bitmask(),
        bits: bits_in_sixteen(text),
    }
}

/// Which of 16 octets are `0` or `1`.
#[inline(always)]
fn bits_in_sixteen(text: u8x16) -> u64
    requires long { length text ≡ 16 }
    requires octets { Each1 (λ x. x < 256) text }
    ensures bits { bits_of 16 result ≡ map is_bit text }
    ensures few { result < 2 ^ 16 }
{
    let shared = text & u8x16::splat(SHARED);
    shared.simd_eq(u8x16::splat(b'0')).to_bitmask()
}
