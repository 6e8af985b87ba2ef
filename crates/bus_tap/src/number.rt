//! The number that octets of a recording are.

ghost use Rattle.std.specs.Prelude.{◌≡◌, ◌-◌, ◌≤◌, ◌++◌, length, replicate};
ghost use Rattle.bus_tap.specs.Recorded.{record_number};

/// Up to eight octets, and zeros behind them.
fn eight_of(octets: &[u8]) -> [u8; 8]
    requires { length octets.now ≤ 8 }
    ensures { result ≡ octets.now ++ replicate (8 - length octets.now) 0 }
{
    let mut whole = [0; 8];
    whole[..octets.len()].copy_from_slice(octets);
    whole
}

/// The number that up to eight octets are, the lowest first.
pub fn number_of(octets: &[u8]) -> u64
    requires { length octets.now ≤ 8 }
    ensures { result ≡ record_number octets.now }
{
    u64::from_le_bytes(eight_of(octets))
}
