//! Octets as lower-case hexadecimal digits.

ghost use Rattle.std.specs.Prelude.{◌≡◌, ◌+◌, ◌*◌, ◌++◌, ◌<◌, ◌≤◌, length, map};
ghost use Rattle.std.specs.Simd.Lanes.{Each1};
ghost use Rattle.arrayvec.specs.ArrayVec.{array_vec_len};
ghost use Rattle.bus_text.specs.Listing.{hex_digit, hex_of};

use crate::text::push_octets;
use arrayvec::ArrayVec;
use std::simd::prelude::*;

/// The digits of sixteen octets.
#[inline(always)]
fn digits_of(octets: &[u8; 16]) -> [u8; 32]
    ensures { result ≡ hex_of octets.now }
{
    let lanes = u8x16::from_array(*octets);
    let high = lanes >> u8x16::splat(4);
    let low = lanes & u8x16::splat(15);
    let digits = high.shuffle::<32>(
        low,
        [
            0, 16, 1, 17, 2, 18, 3, 19, 4, 20, 5, 21, 6, 22, 7, 23, 8, 24, 9, 25, 10, 26, 11, 27,
            12, 28, 13, 29, 14, 30, 15, 31,
        ],
    );
    characters_of(digits).to_array()
}

/// The characters of digits.
#[inline(always)]
fn characters_of(digits: u8x32) -> u8x32
    requires lanes { length digits ≡ 32 }
    requires digits { Each1 (λ digit. digit < 16) digits }
    ensures { result ≡ map hex_digit digits }
{
    let letters = digits.simd_gt(u8x32::splat(9));
    digits + letters.select(u8x32::splat(b'a' - 10), u8x32::splat(b'0'))
}

/// Appends two hexadecimal digits for each octet.
#[inline(always)]
pub(crate) fn push_hex<const N: usize>(text: &mut ArrayVec<u8, N>, octets: &[u8])
    requires { array_vec_len text.old + 2 * length octets.now ≤ N }
    ensures bytes { text.new.items ≡ text.old.items ++ hex_of octets.now }
    ensures len { array_vec_len text.new ≡ array_vec_len text.old + 2 * length octets.now }
{
    let (chunks, rest) = octets.as_chunks::<16>();
    for chunk in chunks {
        push_octets(text, &digits_of(chunk));
    }
    push_few(text, rest);
}

/// The same for fewer than sixteen octets.
#[inline(always)]
fn push_few<const N: usize>(text: &mut ArrayVec<u8, N>, octets: &[u8])
    requires room { array_vec_len text.old + 2 * length octets.now ≤ N }
    requires few { length octets.now < 16 }
    ensures bytes { text.new.items ≡ text.old.items ++ hex_of octets.now }
    ensures len { array_vec_len text.new ≡ array_vec_len text.old + 2 * length octets.now }
{
    let mut padded = [0; 16];
    padded[..octets.len()].copy_from_slice(octets);
    push_octets(text, &digits_of(&padded)[..2 * octets.len()]);
}
