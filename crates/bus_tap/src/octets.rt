//! How many octets of a recording are the same.

ghost use Rattle.std.specs.Prelude.{◌≡◌, ◌-◌, ◌≤◌, ◌++◌, length, replicate, take, slice_index};

use bus_bits::eight_at;

/// How many of these octets, from the first on and by eights, are this one.
fn eights_alike(octets: &[u8], first: u8) -> usize
    ensures same { take result octets.now ≡ replicate result first }
    ensures within { result ≤ length octets.now }
{
    let eight = u64::from_le_bytes([first; 8]);
    let mut count: usize = 0;
    while octets.len() - count >= 8 && eight_at(octets, count) == eight {
        count += 8;
    }
    count
}

/// How many of these octets, from the first on, are the same.
pub fn alike(octets: &[u8]) -> usize
    requires { 1 ≤ length octets.now }
    ensures same { take result octets.now ≡ replicate result (slice_index octets.now 0) }
    ensures some { (1 ≤ result) × (result ≤ length octets.now) }
{
    let first = octets[0];
    let mut count = eights_alike(octets, first);
    while count < octets.len() && octets[count] == first {
        count += 1;
    }
    count
}
