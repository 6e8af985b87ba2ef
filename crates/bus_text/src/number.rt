//! Numbers in decimal.

ghost use Rattle.std.specs.Prelude.{◌+◌, ◌≤◌, decimal};
ghost use Rattle.arrayvec.specs.ArrayVec.{array_vec_len};
ghost use Rattle.bus_text.specs.Advances.{AdvancesText};

use crate::text::push_octets;
use arrayvec::ArrayVec;
use itoa::Buffer;

/// Appends a number in decimal.
pub fn push_number<const N: usize>(text: &mut ArrayVec<u8, N>, n: u64)
    requires { array_vec_len text.old + 20 ≤ N }
    ensures { AdvancesText text.old (decimal n) 20 text.new }
{
    let mut buffer = Buffer::new();
    push_octets(text, buffer.format(n).as_bytes());
}

/// Appends the number that an octet is, in decimal.
#[inline(always)]
pub(crate) fn push_octet_number<const N: usize>(text: &mut ArrayVec<u8, N>, octet: u8)
    requires { array_vec_len text.old + 3 ≤ N }
    ensures { AdvancesText text.old (decimal octet) 3 text.new }
{
    let last = b'0' + octet % 10;
    if octet < 10 {
        text.push(last);
    } else if octet < 100 {
        push_octets(text, &[b'0' + octet / 10, last]);
    } else {
        push_octets(text, &[b'0' + octet / 100, b'0' + octet / 10 % 10, last]);
    }
}
