//! Texts in rooms of fixed size.

ghost use Rattle.std.specs.Prelude.{◌≡◌, ◌+◌, ◌≤◌, ◌++◌, length};
ghost use Rattle.arrayvec.specs.ArrayVec.{array_vec_len};

use arrayvec::ArrayVec;

/// Appends octets, for which there is to be room.
#[inline(always)]
pub fn push_octets<const N: usize>(text: &mut ArrayVec<u8, N>, octets: &[u8])
    requires { array_vec_len text.old + length octets.now ≤ N }
    ensures { text.new.items ≡ text.old.items ++ octets.now }
{
    if text.try_extend_from_slice(octets).is_err() {
        unreachable!();
    }
}
