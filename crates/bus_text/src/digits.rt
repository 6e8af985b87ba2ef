//! Octets that are written as hexadecimal digits.

ghost use Rattle.std.specs.Prelude.{◌≡◌, ◌≤◌, ◌*◌, ◌%◌, ◌↔◌, IsTrue, Ok, length};
ghost use Rattle.std.specs.List.{AllPass};
ghost use Rattle.hex.specs.Hex.{decode_of, is_hex_digit};

use arrayvec::ArrayVec;

/// Whether a text is octets in hexadecimal digits of either case, two for each, and at least one octet.
pub fn is_hex(text: &[u8]) -> bool
    ensures { IsTrue result ↔ ((1 ≤ length text.now) × (length text.now % 2 ≡ 0) × AllPass is_hex_digit text.now) }
{
    !text.is_empty() && text.len() % 2 == 0 && text.iter().all(u8::is_ascii_hexdigit)
}

/// The octets that digits are, of which there is room for as many.
pub fn octets_of<const N: usize>(digits: &[u8]) -> ArrayVec<u8, N>
    requires even { length digits.now % 2 ≡ 0 }
    requires all { AllPass is_hex_digit digits.now }
    requires room { length digits.now ≤ 2 * N }
    ensures { decode_of digits.now ≡ Ok result.items }
{
    let mut octets = ArrayVec::from([0; N]);
    octets.truncate(digits.len() / 2);
    hex::decode_to_slice(digits, octets.as_mut_slice()).unwrap();
    octets
}
