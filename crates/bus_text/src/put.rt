//! Writes a text, and counts what went out.

ghost use Rattle.std.specs.Prelude.{◌≡◌, ◌+◌, ◌<◌, ◌≤◌, ◌++◌, ℕ, List, Option, OnOk, IfOk, IfErr, length, take};
ghost use Rattle.std.specs.Io.KnownBytes.{Appends};
ghost use Rattle.bus_text.specs.Pages.{Puts};

use crate::line::FrameLine;
use std::io::Write;

/// A write failed, or took nothing, after `sent` octets of the text.
#[derive(Clone, Copy, Debug)]
pub struct ShortWrite {
    /// How many octets were written.
    pub sent: u128,
}

/// Writes the text, by as many calls as the writer wants. It does not flush.
pub fn put_text<W: Write>(w: &mut W, text: &[u8]) -> Result<(), ShortWrite>
    ensures whole { OnOk result (Appends (W.contents w.old) (W.contents w.new) text.now) }
    ensures part { IfErr result (λ cut. Appends (W.contents w.old) (W.contents w.new) (take cut.sent text.now)) }
    ensures short { IfErr result (λ cut. cut.sent < length text.now) }
{
    let mut sent = 0;
    while sent < text.len() {
        match w.write(&text[sent..]) {
            Ok(0) | Err(_) => return Err(ShortWrite { sent: sent as u128 }),
            Ok(n) => sent += n,
        }
    }
    Ok(())
}

/// Writes a line after `sent` octets of a text. Returns how many octets of the text went out.
pub fn put_line<W: Write>(line: &FrameLine, sent: u128, w: &mut W) -> Result<u128, ShortWrite>
    requires { sent ≤ 2000000 }
    ensures put { (start : Option (List ℕ)) (before : List ℕ) → Appends start (W.contents w.old) before →
        sent ≡ length before
        → Puts start (W.contents w.new) (before ++ line.now.items) result }
    ensures few { IfOk result (λ now. now ≤ sent + 640) }
{
    let text = line.as_slice();
    match put_text(w, text) {
        Ok(()) => Ok(sent + text.len() as u128),
        Err(cut) => Err(ShortWrite {
            sent: sent + cut.sent,
        }),
    }
}
