//! The bits of one call on their way out.

ghost use Rattle.std.specs.Prelude.{◌≡◌, ◌+◌, ◌-◌, ◌*◌, ◌<◌, ◌^◌, [], ◌∷◌, length, OnOk, OnErr};
ghost use Rattle.bus_bits.specs.Octet.{bits_of, bits_of_octets};
ghost use Rattle.bus_line.specs.Internal.StuffingWriter.{Sent, Cut};
ghost use Rattle.bus_line.specs.Internal.Inserting.{raw_after, run_after};

use crate::bit_sink::BitSink;
use crate::sink_refused::SinkRefused;
use bus_bits::octet_bits;

/// How far the bits of a call have gone out.
#[derive(Clone, Copy)]
pub(super) struct StuffingWriter {
    /// How many bits the sink took.
    pub(super) written: u64,
    /// How many ones of data came since the last 0, an inserted one included.
    run: u64,
}

impl StuffingWriter {
    /// Nothing yet.
    pub(super) fn new() -> Self
        ensures { result ≡ record { written = 0; run = 0 } }
    {
        StuffingWriter { written: 0, run: 0 }
    }

    /// Sends a bit as it is.
    fn send<S: BitSink>(&mut self, bit: bool, sink: &mut S) -> Result<(), SinkRefused>
        requires refusals { S.sink.refusals sink.old < 2 ^ 64 - 1 }
        requires room { self.old.written + 1 < 2 ^ 64 }
        ensures sent { OnOk result (Sent S.sink (bit ∷ []) self.old self.new sink.old sink.new) }
        ensures cut { OnErr result (Cut S.sink (bit ∷ []) self.old self.new sink.old sink.new) }
        ensures run { self.new.run ≡ self.old.run }
    {
        sink.put(bit)?;
        self.written += 1;
        Ok(())
    }

    /// Sends bits as they are.
    pub(super) fn send_all<S: BitSink>(
        &mut self,
        bits: &[bool],
        sink: &mut S,
    ) -> Result<(), SinkRefused>
        requires refusals { S.sink.refusals sink.old < 2 ^ 64 - 1 }
        requires room { self.old.written + length bits.now < 2 ^ 64 }
        ensures sent { OnOk result (Sent S.sink bits.now self.old self.new sink.old sink.new) }
        ensures cut { OnErr result (Cut S.sink bits.now self.old self.new sink.old sink.new) }
        ensures run { self.new.run ≡ self.old.run }
    {
        for bit in bits {
            self.send(*bit, sink)?;
        }
        Ok(())
    }

    /// Sends a bit of data, and then a 0 where it is the fifth 1 in a row (ISO/IEC 13239,
    /// transparency).
    fn send_data<S: BitSink>(&mut self, bit: bool, sink: &mut S) -> Result<(), SinkRefused>
        requires refusals { S.sink.refusals sink.old < 2 ^ 64 - 1 }
        requires room { self.old.written + 2 < 2 ^ 64 }
        ensures sent { OnOk result
            (Sent S.sink (raw_after self.old.run (bit ∷ [])) self.old self.new sink.old sink.new) }
        ensures cut { OnErr result
            (Cut S.sink (raw_after self.old.run (bit ∷ [])) self.old self.new sink.old sink.new) }
        ensures run { OnOk result (self.new.run ≡ run_after self.old.run (bit ∷ [])) }
    {
        self.send(bit, sink)?;
        if !bit {
            self.run = 0;
            return Ok(());
        }
        if self.run < 4 {
            self.run += 1;
            return Ok(());
        }
        self.run = 0;
        self.send(false, sink)
    }

    /// Sends the bits of an octet as data, the least significant first.
    fn send_octet<S: BitSink>(&mut self, octet: u8, sink: &mut S) -> Result<(), SinkRefused>
        requires refusals { S.sink.refusals sink.old < 2 ^ 64 - 1 }
        requires room { self.old.written + 16 < 2 ^ 64 }
        ensures sent { OnOk result
            (Sent S.sink (raw_after self.old.run (bits_of 8 octet)) self.old self.new sink.old sink.new) }
        ensures cut { OnErr result
            (Cut S.sink (raw_after self.old.run (bits_of 8 octet)) self.old self.new sink.old sink.new) }
        ensures run { OnOk result (self.new.run ≡ run_after self.old.run (bits_of 8 octet)) }
    {
        let bits = octet_bits(octet);
        for bit in &bits {
            self.send_data(*bit, sink)?;
        }
        Ok(())
    }

    /// Sends the bits of octets as data.
    pub(super) fn send_octets<S: BitSink>(
        &mut self,
        octets: &[u8],
        sink: &mut S,
    ) -> Result<(), SinkRefused>
        requires refusals { S.sink.refusals sink.old < 2 ^ 64 - 1 }
        requires room { self.old.written + 16 * length octets.now < 2 ^ 64 }
        ensures sent { OnOk result
            (Sent S.sink
            (raw_after self.old.run (bits_of_octets octets.now)) self.old self.new sink.old sink.new) }
        ensures cut { OnErr result
            (Cut S.sink
            (raw_after self.old.run (bits_of_octets octets.now)) self.old self.new sink.old sink.new) }
        ensures run { OnOk result (self.new.run ≡ run_after self.old.run (bits_of_octets octets.now)) }
    {
        for octet in octets {
            self.send_octet(*octet, sink)?;
        }
        Ok(())
    }
}
