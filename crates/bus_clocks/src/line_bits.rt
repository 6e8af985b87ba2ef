//! Some bits of a line, packed.

ghost use Rattle.std.specs.Prelude.{◌≡◌, ◌+◌, ◌*◌, ◌^◌, ◌<◌, ◌≤◌, [], ◌++◌, length};
ghost use Rattle.bus_bits.specs.Bits.{bits_from};
ghost use Rattle.bus_bits.specs.Octet.{bits_of};

use std::marker::Model;

/// How many bits these are at most.
pub(crate) const BLOCK: usize = 512;

/// At most 512 bits of a line, packed as a decoder scans them: the least significant of each octet first.
#[derive(Drop)]
pub(crate) struct LineBits {
    /// Eight more than they fill, since eight are stored at once. What is behind the bits is not told.
    octets: [u8; 72],
    count: usize,
}

impl Model for LineBits {
    ghost use Rattle.std.specs.Prelude.{List, Bool};

    ghost Value = { List Bool };

    ghost use Rattle.bus_clocks.specs.Internal.BitsView.{line_bits, ArePacked};

    ghost view = { line_bits };

    ghost invariant = { ArePacked };
}

impl LineBits {
    /// No bits.
    pub(crate) fn new() -> Self
        ensures { result ≡ [] }
    {
        LineBits {
            octets: [0; 72],
            count: 0,
        }
    }

    /// So many bits more, the first lowest.
    #[inline(always)]
    pub(crate) fn append(&mut self, bits: u64, count: usize)
        requires few { count ≤ 48 }
        requires small { bits < 2 ^ count }
        requires room { length self.old + count ≤ 512 }
        ensures { self.new ≡ self.old ++ bits_of count bits }
    {
        let at = self.count / 8;
        let held = self.count % 8;
        let rest = u64::from(self.octets[at]) & ((1 << held) - 1);
        let joined = rest | bits << held;
        self.octets[at..at + 8].copy_from_slice(&joined.to_le_bytes());
        self.count += count;
    }

    /// How many bits there are.
    #[inline(always)]
    pub(crate) fn count(&self) -> usize
        ensures value { result ≡ length self.now }
        ensures few { result ≤ 512 }
    {
        self.count
    }

    /// The octets that hold them.
    #[inline(always)]
    pub(crate) fn octets(&self) -> &[u8]
        ensures bits { bits_from result.now 0 (length self.now) ≡ self.now }
        ensures enough { length self.now ≤ 8 * length result.now }
    {
        &self.octets
    }
}
