//! The bits of one call, and their text.

ghost use Rattle.std.specs.Prelude.{◌≡◌, ◌+◌, ◌-◌, ◌<◌, ◌≤◌, [], ◌∷◌, ◌++◌, List, Some, false, length};
ghost use Rattle.bus_line.specs.Line.{Call, gain};
ghost use Rattle.bus_line.specs.Encoding.{AfterCalls};
ghost use Rattle.bus_calls.specs.Encode.{bits_text};
ghost use Rattle.bus_calls.specs.Internal.EncodeState.{call_of, IsSized};

use crate::encode::request::EncodeRequest;
use arrayvec::ArrayVec;
use bus_line::{BitSink, LineEncoder, SinkRefused};

/// The most bits of a call: those of a frame of 256 octets, its check and two flags, where each
/// five bits of the data are followed by an inserted 0.
const MOST: usize = 2492;

/// The text of a call is its bits and LF.
const ROOM: usize = 2493;

/// Holds the bits of one call.
#[derive(Drop)]
struct CallBits {
    bits: ArrayVec<bool, MOST>,
    refused: u64,
    ghost full: { 0 < refused → length bits.items ≡ 2492 },
}

impl CallBits {
    fn new() -> Self
        ensures { (result.bits.items ≡ []) × (result.refused ≡ 0) }
    {
        CallBits {
            bits: ArrayVec::new(),
            refused: 0,
        }
    }
}

impl BitSink for CallBits {
    ghost sink = { record { taken = λ sink. Some sink.bits.items; refusals = λ sink. sink.refused } };

    fn refused(&self) -> u64 {
        self.refused
    }

    fn put(&mut self, bit: bool) -> Result<(), SinkRefused> {
        if self.bits.is_full() {
            self.refused += 1;
            return Err(SinkRefused);
        }
        self.bits.push(bit);
        Ok(())
    }
}

/// The bits that the line gains by a call.
fn bits_of(encoder: &mut LineEncoder, request: &EncodeRequest) -> ArrayVec<bool, MOST>
    requires going { encoder.old.ended ≡ false }
    requires sized { IsSized (call_of request.now) }
    ensures after { (calls : List Call) → AfterCalls encoder.old calls →
        AfterCalls encoder.new (calls ++ call_of request.now ∷ []) }
    ensures bits { (calls : List Call) → AfterCalls encoder.old calls
        → result.items ≡ gain calls (call_of request.now) }
{
    let mut sink = CallBits::new();
    let outcome = match request {
        EncodeRequest::Flag => encoder.flag(&mut sink),
        EncodeRequest::Idle => encoder.idle(&mut sink),
        EncodeRequest::Frame(octets) => encoder.frame(octets, &mut sink),
    };
    match outcome {
        Ok(()) => sink.bits,
        Err(_) => unreachable!(),
    }
}

/// Bits as characters, followed by LF.
fn text_of(bits: &[bool]) -> ArrayVec<u8, ROOM>
    requires { length bits.now ≤ 2492 }
    ensures { result.items ≡ bits_text bits.now }
{
    let mut text = ArrayVec::new();
    for bit in bits {
        text.push(if *bit { b'1' } else { b'0' });
    }
    text.push(b'\n');
    text
}

/// The text of what the line gains by a call.
pub fn call_text(encoder: &mut LineEncoder, request: &EncodeRequest) -> ArrayVec<u8, ROOM>
    requires going { encoder.old.ended ≡ false }
    requires sized { IsSized (call_of request.now) }
    ensures going { encoder.new.ended ≡ false }
    ensures after { (calls : List Call) → AfterCalls encoder.old calls →
        AfterCalls encoder.new (calls ++ call_of request.now ∷ []) }
    ensures text { (calls : List Call) → AfterCalls encoder.old calls →
        result.items ≡ bits_text (gain calls (call_of request.now)) }
    ensures few { length result.items ≤ 2493 }
{
    let bits = bits_of(encoder, request);
    text_of(bits.as_slice())
}
