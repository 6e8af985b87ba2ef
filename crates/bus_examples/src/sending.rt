//! The way back: the bits of a frame.

ghost use Rattle.std.specs.Prelude.{◌≡◌, ◌<◌, ◌++◌, ◌↔◌, ◌⊎◌, length, IsErr, IfOk, Some};
ghost use Rattle.bus_line.specs.Mark.{flag};
ghost use Rattle.bus_line.specs.Line.{raw_bits};

use arrayvec::ArrayVec;
use bus_line::{BitSink, EncodeFault, LineEncoder, SinkRefused};

/// A sink with room for the 2492 bits of the longest frame. It tells what it took.
#[derive(Drop)]
pub struct FrameBits {
    /// The bits taken, in the order sent.
    pub bits: ArrayVec<bool, 2492>,
    refused: u64,
    ghost full: { 0 < refused → length bits.items ≡ 2492 },
}

impl BitSink for FrameBits {
    ghost sink = { record { taken = λ sink. Some sink.bits.items; refusals = λ sink. sink.refused } };

    fn refused(&self) -> u64 {
        self.refused
    }

    fn put(&mut self, bit: bool) -> Result<(), SinkRefused> {
        if self.bits.is_full() {
            self.refused += 1;
            return Err(SinkRefused);
        }
        self.bits.push(bit);
        Ok(())
    }
}

/// The bits of a frame, from its first flag to its last. `octets` are those from the address through
/// the information, 2 to 256 of them; the encoder adds the check and the inserted 0s.
///
/// # Errors
///
/// `LengthRange`, and no other: there are fewer than 2 octets, or more than 256.
pub fn frame_bits(octets: &[u8]) -> Result<FrameBits, EncodeFault>
    ensures bits { IfOk result (λ sink. sink.bits.items ≡ flag ++ (raw_bits octets.now ++ flag)) }
    ensures range { (result ≡ Err EncodeFault.LengthRange) ↔ ((length octets.now < 2) ⊎ (256 < length octets.now)) }
    ensures no_other { IsErr result → result ≡ Err EncodeFault.LengthRange }
{
    let mut sink = FrameBits {
        bits: ArrayVec::new(),
        refused: 0,
    };
    let mut encoder = LineEncoder::new();
    encoder.frame(octets, &mut sink)?;
    Ok(sink)
}
