//! What a line asks for.

ghost use Rattle.std.specs.Prelude.{◌≡◌, ◌≤◌, ◌⊎◌, Ok, Err, Some, MatchResult, IfOk, IfErr, IfSome, length, option_map};
ghost use Rattle.hex.specs.Hex.{decode_of};
ghost use Rattle.bus_line.specs.Line.{Frame};
ghost use Rattle.bus_calls.specs.Encode.{decoded_frame, line_call};
ghost use Rattle.bus_calls.specs.Internal.EncodeState.{call_of, IsSized};

use arrayvec::ArrayVec;
use bus_text::{ToolFault, is_hex, octets_of};

/// The most octets of a frame without its check.
const MOST: usize = 256;

/// What the encoder is asked for.
#[derive(Drop)]
pub enum EncodeRequest {
    Flag,
    Idle,
    Frame(ArrayVec<u8, MOST>),
}

/// The octets of a frame, from the digits of a line of this number.
fn frame_octets(digits: &[u8], number: u128) -> Result<ArrayVec<u8, MOST>, ToolFault>
    ensures octets { MatchResult result
        (λ octets. decoded_frame number (decode_of digits.now) ≡ Ok (Some (Frame octets.items)))
        (λ fault. decoded_frame number (decode_of digits.now) ≡ Err fault) }
    ensures at_least { IfOk result (λ octets. 2 ≤ length octets.items) }
    ensures at_most { IfOk result (λ octets. length octets.items ≤ 256) }
    ensures refused { IfErr result
        (λ fault. (fault ≡ ToolFault.BadLine number) ⊎ (fault ≡ ToolFault.FrameLength number)) }
{
    if !is_hex(digits) {
        return Err(ToolFault::BadLine(number));
    }
    let count = digits.len() / 2;
    if count < 2 || MOST < count {
        return Err(ToolFault::FrameLength(number));
    }
    Ok(octets_of(digits))
}

/// What a line of this number asks for, without its end; an empty one asks for nothing.
pub fn read_request(line: &[u8], number: u128) -> Result<Option<EncodeRequest>, ToolFault>
    requires { length line.now ≤ 600 }
    ensures value { MatchResult result (λ request. line_call number line.now ≡ Ok (option_map call_of request))
        (λ fault. line_call number line.now ≡ Err fault) }
    ensures sized { IfOk result (λ request. IfSome request (λ request. IsSized (call_of request))) }
    ensures refused { IfErr result
        (λ fault. (fault ≡ ToolFault.BadLine number) ⊎ (fault ≡ ToolFault.FrameLength number)) }
{
    if line.is_empty() {
        return Ok(None);
    }
    if line == b"flag".as_slice() {
        return Ok(Some(EncodeRequest::Flag));
    }
    if line == b"idle".as_slice() {
        return Ok(Some(EncodeRequest::Idle));
    }
    let Some(digits) = line.strip_prefix(b"frame ".as_slice()) else {
        return Err(ToolFault::BadLine(number));
    };
    Ok(Some(EncodeRequest::Frame(frame_octets(digits, number)?)))
}
