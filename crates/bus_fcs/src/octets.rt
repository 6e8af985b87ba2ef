//! The frame check of octets that are all there.

ghost use Rattle.std.specs.Prelude.{◌≡◌, ◌≤◌, ◌<◌, ◌*◌, length};
ghost use Rattle.bus_bits.specs.Octet.{bits_of_octets};
ghost use Rattle.bus_fcs.specs.FrameCheck.{is_good};

use crate::check::Check;
use bus_bits::Spent;

/// Whether these octets, the last two of them the frame checking sequence, are undamaged as far as
/// the check can tell. The work is not counted.
pub fn fcs_is_good<C: Check>(octets: &[u8]) -> bool
    requires { 4 ≤ length octets.now }
    ensures { result ≡ is_good (bits_of_octets octets.now) }
{
    let mut check = C::fresh();
    for octet in octets {
        let mut spent = Spent::zero();
        check.fold(*octet, &mut spent);
    }
    check.is_good()
}
