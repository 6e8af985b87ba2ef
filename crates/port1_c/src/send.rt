//! What C calls to send.

ghost use Rattle.std.specs.Prelude.{◌≡◌, ◌≢◌, ◌+◌, ◌-◌, ◌*◌, ◌%◌, ◌≤◌, ◌<◌, ◌^◌, ◌↔◌, ◌⊎◌, [], ◌∷◌, length};
ghost use Rattle.bus_line.specs.Line.{Call};
ghost use Rattle.bus_bits.specs.Bits.{bits_from};
ghost use Rattle.port1_c.specs.Bits.{PutsBits};
ghost use Rattle.port1_c.specs.Send.{SenderAfter, Sends, idles};
ghost use Rattle.port1_c.specs.declared.status.TheConstants.{OK, BAD_LENGTH, BAD_STATE, BAD_ARGUMENT, NO_ROOM};

use crate::call_bits::{CallBits, spell_frame};
use crate::put::put_bits;
use crate::sender::Port1Sender;
use crate::status::{BAD_ARGUMENT, BAD_LENGTH, BAD_STATE, NO_ROOM, OK};

/// Puts bits where there is room for them, and says how many they are. The source has an octet more.
fn put(
    source: &[u8],
    first: usize,
    end: usize,
    octets: &mut [u8],
    at: &mut usize,
    bits: &mut usize,
) -> u32
    requires order { first ≤ end }
    requires within { end + 8 ≤ 8 * length source.now }
    requires begin { at.old ≤ 8 * length octets.old }
    ensures status { (result ≡ OK) ⊎ (result ≡ NO_ROOM) }
    ensures told { bits.new ≡ end - first }
    ensures room { result ≡ NO_ROOM ↔ ((8 * length octets.old < at.old + bits.new) ⊎ (2 ^ 64 ≤ at.old + bits.new)) }
    ensures kept { result ≢ OK → (octets.new ≡ octets.old) × (at.new ≡ at.old) }
    ensures at { result ≡ OK → at.new ≡ at.old + bits.new }
    ensures puts { result ≡ OK → PutsBits octets.old at.old (bits_from source.now first (end - first)) octets.new }
{
    *bits = end - first;
    if octets.len().saturating_mul(8) - *at < *bits {
        return NO_ROOM;
    }
    put_bits(octets, *at, source, first, end);
    *at += *bits;
    OK
}

/// The first of a frame's bits that goes out: after a flag, which opens the frame, that after the frame's own.
fn first_bit(sender: &Port1Sender) -> usize
    ensures few { result ≤ 8 }
    ensures flag { sender.now.behind_flag ≡ 1 → result ≡ 8 }
    ensures none { sender.now.behind_flag ≢ 1 → result ≡ 0 }
{
    if sender.behind_flag == 1 { 8 } else { 0 }
}

/// Makes a sender that sent nothing yet. Returns OK.
#[unsafe(no_mangle)]
pub extern "C" fn port1_sender_init(sender: &mut Port1Sender) -> u32
    ensures status { result ≡ OK }
    ensures follows { SenderAfter sender.new [] }
{
    sender.behind_flag = 0;
    OK
}

/// Sends a flag. `at` is then the bit after it, and `bits` how many it is.
///
/// Returns OK, BAD_ARGUMENT where `at` is past the octets, BAD_STATE where the memory holds no sender, or
/// NO_ROOM where the octets end before the flag does; `bits` is told then too, and nothing else has changed.
#[unsafe(no_mangle)]
pub extern "C" fn port1_send_flag(
    sender: &mut Port1Sender,
    octets: &mut [u8],
    at: &mut usize,
    bits: &mut usize,
) -> u32
    ensures status { (result ≡ OK) ⊎ (result ≡ BAD_STATE) ⊎ (result ≡ BAD_ARGUMENT) ⊎ (result ≡ NO_ROOM) }
    ensures sends { Sends (Call.Flag ∷ []) result
        (record { sender = sender.old; octets = octets.old; at = at.old; bits = bits.old })
        (record { sender = sender.new; octets = octets.new; at = at.new; bits = bits.new }) }
{
    if *at > octets.len().saturating_mul(8) {
        return BAD_ARGUMENT;
    }
    if sender.behind_flag > 1 {
        return BAD_STATE;
    }
    let status = put(&[0x7e, 0], 0, 8, octets, at, bits);
    if status == OK {
        sender.behind_flag = 1;
    }
    status
}

/// Sends fifteen 1 bits, which make the line idle. `at`, `bits` and what it returns are as those of
/// [`port1_send_flag`].
#[unsafe(no_mangle)]
pub extern "C" fn port1_send_idle(
    sender: &mut Port1Sender,
    octets: &mut [u8],
    at: &mut usize,
    bits: &mut usize,
) -> u32
    ensures status { (result ≡ OK) ⊎ (result ≡ BAD_STATE) ⊎ (result ≡ BAD_ARGUMENT) ⊎ (result ≡ NO_ROOM) }
    ensures sends { Sends (Call.Idle ∷ []) result
        (record { sender = sender.old; octets = octets.old; at = at.old; bits = bits.old })
        (record { sender = sender.new; octets = octets.new; at = at.new; bits = bits.new }) }
{
    if *at > octets.len().saturating_mul(8) {
        return BAD_ARGUMENT;
    }
    if sender.behind_flag > 1 {
        return BAD_STATE;
    }
    let status = put(&[0xff, 0x7f, 0], 0, 15, octets, at, bits);
    if status == OK {
        sender.behind_flag = 0;
    }
    status
}

/// Sends so many idles that the transmission ends with a whole octet: one for each bit of the octet that it has
/// begun, since fifteen is one less than two octets. They are read back as one idle. None are sent where `at`
/// is a multiple of 8. `at`, `bits` and what it returns are as those of [`port1_send_flag`].
#[unsafe(no_mangle)]
pub extern "C" fn port1_send_align(
    sender: &mut Port1Sender,
    octets: &mut [u8],
    at: &mut usize,
    bits: &mut usize,
) -> u32
    ensures status { (result ≡ OK) ⊎ (result ≡ BAD_STATE) ⊎ (result ≡ BAD_ARGUMENT) ⊎ (result ≡ NO_ROOM) }
    ensures sends { Sends (idles (at.old % 8)) result
        (record { sender = sender.old; octets = octets.old; at = at.old; bits = bits.old })
        (record { sender = sender.new; octets = octets.new; at = at.new; bits = bits.new }) }
    ensures few { (result ≡ OK) ⊎ (result ≡ NO_ROOM) → bits.new ≡ 15 * (at.old % 8) }
    ensures aligned { result ≡ OK → at.new % 8 ≡ 0 }
{
    if *at > octets.len().saturating_mul(8) {
        return BAD_ARGUMENT;
    }
    if sender.behind_flag > 1 {
        return BAD_STATE;
    }
    let idles = *at % 8;
    let status = put(&[0xff; 15], 0, 15 * idles, octets, at, bits);
    if status == OK && idles > 0 {
        sender.behind_flag = 0;
    }
    status
}

/// Sends a frame of these octets, address through information, with its check and its closing flag, and an
/// opening flag unless a flag was sent last. `at`, `bits` and what it returns are as those of
/// [`port1_send_flag`]; it returns BAD_LENGTH too, where the frame has not 2 to 256 octets.
#[unsafe(no_mangle)]
pub extern "C" fn port1_send_frame(
    sender: &mut Port1Sender,
    frame: &[u8],
    octets: &mut [u8],
    at: &mut usize,
    bits: &mut usize,
) -> u32
    ensures status { (result ≡ OK) ⊎ (result ≡ BAD_LENGTH) ⊎ (result ≡ BAD_STATE) ⊎ (result ≡ BAD_ARGUMENT)
        ⊎ (result ≡ NO_ROOM) }
    ensures range { (result ≡ BAD_LENGTH) ↔ ((at.old ≤ 8 * length octets.old) × (sender.old.behind_flag ≤ 1)
        × ((length frame.now < 2) ⊎ (256 < length frame.now))) }
    ensures sends { Sends (Call.Frame frame.now ∷ []) result
        (record { sender = sender.old; octets = octets.old; at = at.old; bits = bits.old })
        (record { sender = sender.new; octets = octets.new; at = at.new; bits = bits.new }) }
{
    if *at > octets.len().saturating_mul(8) {
        return BAD_ARGUMENT;
    }
    if sender.behind_flag > 1 {
        return BAD_STATE;
    }
    if frame.len() < 2 || frame.len() > 256 {
        return BAD_LENGTH;
    }
    let mut framed = CallBits::new();
    spell_frame(frame, &mut framed);
    let first = first_bit(sender);
    let status = put(&framed.octets, first, framed.count, octets, at, bits);
    if status == OK {
        sender.behind_flag = 1;
    }
    status
}
