//! Octets as bits, the least significant first, as ISO/IEC 13239 sends them (order of bit
//! transmission).

ghost use Rattle.std.specs.Prelude.{◌≡◌, ◌≤◌, ◌<◌, ◌^◌, length};
ghost use Rattle.bus_bits.specs.Octet.{bits_of, number};

/// The bits of an octet, the least significant first.
pub fn octet_bits(o: u8) -> [bool; 8]
    ensures { result ≡ bits_of 8 o }
{
    [
        o % 2 == 1,
        o / 2 % 2 == 1,
        o / 4 % 2 == 1,
        o / 8 % 2 == 1,
        o / 16 % 2 == 1,
        o / 32 % 2 == 1,
        o / 64 % 2 == 1,
        o / 128 % 2 == 1,
    ]
}

/// The octet with these bits, the least significant first.
pub fn bits_octet(b: &[bool; 8]) -> u8
    ensures { result ≡ number b.now }
{
    u8::from(b[0])
        + 2 * u8::from(b[1])
        + 4 * u8::from(b[2])
        + 8 * u8::from(b[3])
        + 16 * u8::from(b[4])
        + 32 * u8::from(b[5])
        + 64 * u8::from(b[6])
        + 128 * u8::from(b[7])
}

/// The number with these bits, at most 64, the least significant first.
pub fn bits_number(bits: &[bool]) -> u64
    requires { length bits.now ≤ 64 }
    ensures value { result ≡ number bits.now }
    ensures small { result < 2 ^ length bits.now }
{
    let mut number: u64 = 0;
    let mut place: u32 = 0;
    for bit in bits {
        number |= u64::from(*bit) << place;
        place += 1;
    }
    number
}
