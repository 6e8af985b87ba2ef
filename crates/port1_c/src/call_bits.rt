//! The bits of one frame.

ghost use Rattle.std.specs.Prelude.{◌≡◌, ◌+◌, ◌*◌, ◌≤◌, ◌<◌, ◌++◌, ℕ, Some, false, length};
ghost use Rattle.bus_line.specs.Line.{raw_bits};
ghost use Rattle.bus_line.specs.Mark.{flag};
ghost use Rattle.bus_bits.specs.Bits.{bit_at, bits_from};

use crate::put::set_bit;
use bus_line::{BitSink, LineEncoder, SinkRefused};

/// A frame of 256 octets has at most 2492 bits with its check, its flags and the inserted 0s.
const BITS: usize = 2496;

/// The octets of these bits, and one more for [`put_bits`](crate::put::put_bits).
const OCTETS: usize = 313;

/// Packed bits, the lowest of each octet first.
#[derive(Drop)]
pub(crate) struct CallBits {
    pub(crate) octets: [u8; OCTETS],
    pub(crate) count: usize,
    refused: u64,
    ghost within: { count ≤ 2496 },
    ghost full: { 0 < refused → count ≡ 2496 },
    ghost clear: { (i : ℕ) → count ≤ i → bit_at octets i ≡ false },
}

impl CallBits {
    pub(crate) fn new() -> Self
        ensures { (result.count ≡ 0) × (result.refused ≡ 0) }
    {
        CallBits {
            octets: [0; OCTETS],
            count: 0,
            refused: 0,
        }
    }
}

impl BitSink for CallBits {
    ghost sink = { record {
      taken = λ sink. Some (bits_from sink.octets 0 sink.count);
      refusals = λ sink. sink.refused;
    } };

    fn refused(&self) -> u64 {
        self.refused
    }

    fn put(&mut self, bit: bool) -> Result<(), SinkRefused> {
        if self.count == BITS {
            self.refused += 1;
            return Err(SinkRefused);
        }
        set_bit(&mut self.octets, self.count, bit);
        self.count += 1;
        Ok(())
    }
}

/// Spells the frame of these octets, address through information, with both its flags.
pub(crate) fn spell_frame(octets: &[u8], bits: &mut CallBits)
    requires least { 2 ≤ length octets.now }
    requires most { length octets.now ≤ 256 }
    requires empty { (bits.old.count ≡ 0) × (bits.old.refused ≡ 0) }
    ensures { bits_from bits.new.octets 0 bits.new.count ≡ flag ++ (raw_bits octets.now ++ flag) }
{
    match LineEncoder::new().frame(octets, bits) {
        Ok(()) => (),
        Err(_) => unreachable!(),
    }
}
