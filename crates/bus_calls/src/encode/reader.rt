//! Encodes the lines that are read.

ghost use Rattle.std.specs.Prelude.{◌≡◌, ◌↔◌, IsTrue, ◌+◌, ◌*◌, ◌^◌, ◌<◌, ◌≤◌, ℕ, List, Option, Some, None, Ok, Err};
ghost use Rattle.std.specs.Prelude.{[], ◌∷◌, ◌++◌, length, MatchResult, false};
ghost use Rattle.std.specs.Io.BufRead.{strip_last};
ghost use Rattle.std.specs.Io.KnownBytes.{Consumes};
ghost use Rattle.bus_line.specs.Line.{Call};
ghost use Rattle.bus_calls.specs.Encode.{one_asked, line_call, asked_so_far};
ghost use Rattle.bus_calls.specs.Encodes.{Encodes};
ghost use Rattle.bus_calls.specs.Internal.EncodeState.{EncodeFinishes, EncodeHalts, Ends, HasEncoded, IsSized};
ghost use Rattle.bus_calls.specs.Internal.EncodeState.{EncodedAfter};
ghost use Rattle.bus_calls.specs.Internal.EncodeState.{call_of};

use crate::encode::bits::call_text;
use crate::encode::line::OpenLine;
use crate::encode::request::{EncodeRequest, read_request};
use bus_line::LineEncoder;
use bus_text::{ToolFault, put_text};
use std::io::{Read, Write};

/// How many octets are asked for at once.
const ROOM: usize = 4096;

/// What the lines so far led to.
#[derive(Drop)]
pub struct LineReader {
    line: OpenLine,
    encoder: LineEncoder,
    /// How many octets of text went out.
    written: u128,
    ghost going: { encoder.ended ≡ false },
}

/// Whether a write failed.
fn is_cut(ending: &Result<(), ToolFault>) -> bool
    ensures { IsTrue result ↔ ((written : ℕ) × (ending.now ≡ Err (ToolFault.Write written))) }
{
    matches!(ending, Err(ToolFault::Write { .. }))
}

impl LineReader {
    /// No octets.
    pub fn new() -> Self
        ensures fresh { (start : Option (List ℕ)) →
            EncodedAfter start start result.line.octets.items result.line.number result.encoder result.written [] }
        ensures none { (result.written ≡ 0) × (result.line.number ≡ 1) }
    {
        LineReader {
            line: OpenLine::first(),
            encoder: LineEncoder::new(),
            written: 0,
        }
    }

    /// Writes what the line gains by a call.
    fn put_request<W: Write>(&mut self, request: &EncodeRequest, w: &mut W) -> Result<(), ToolFault>
        requires sized { IsSized (call_of request.now) }
        requires few { self.old.written < 2 ^ 100 }
        ensures put { (start : Option (List ℕ)) (calls : List Call) →
            HasEncoded start (W.contents w.old) self.old.encoder self.old.written calls → MatchResult result
            (λ _. HasEncoded start (W.contents w.new) self.new.encoder self.new.written
            (calls ++ call_of request.now ∷ []))
            (λ fault. EncodeHalts start (W.contents w.new) self.new.written
            (record { calls = calls ++ call_of request.now ∷ []; fault = None }) fault) }
        ensures line { self.new.line ≡ self.old.line }
        ensures few { self.new.written ≤ self.old.written + 2493 }
    {
        let text = call_text(&mut self.encoder, request);
        match put_text(w, text.as_slice()) {
            Ok(()) => {
                self.written += text.len() as u128;
                Ok(())
            }
            Err(cut) => Err(ToolFault::Write {
                written: self.written + cut.sent,
            }),
        }
    }

    /// Writes what the open line asks for, which has ended.
    fn end_line<W: Write>(&mut self, w: &mut W) -> Result<(), ToolFault>
        requires { self.old.written < 2 ^ 100 }
        ensures ended { (start : Option (List ℕ)) (calls : List Call) →
            HasEncoded start (W.contents w.old) self.old.encoder self.old.written calls
            → Ends start (W.contents w.new) self.new.encoder self.new.written calls
            (one_asked (line_call self.old.line.number (strip_last 13 self.old.line.octets.items))) result }
        ensures line { self.new.line ≡ self.old.line }
        ensures few { self.new.written ≤ self.old.written + 2493 }
    {
        match read_request(self.line.text(), self.line.number())? {
            Some(request) => self.put_request(&request, w),
            None => Ok(()),
        }
    }

    /// Takes the next octet.
    fn consume_octet<W: Write>(&mut self, octet: u8, w: &mut W) -> Result<(), ToolFault>
        requires few { self.old.written < 2 ^ 100 }
        requires lines { self.old.line.number < 2 ^ 100 }
        ensures taken { (start : Option (List ℕ)) (xs : List ℕ) →
            EncodedAfter start (W.contents w.old) self.old.line.octets.items self.old.line.number self.old.encoder
            self.old.written xs → MatchResult result
            (λ _. EncodedAfter start (W.contents w.new) self.new.line.octets.items self.new.line.number self.new.encoder
            self.new.written (xs ++ octet ∷ []))
            (λ fault. EncodeHalts start (W.contents w.new) self.new.written (asked_so_far (xs ++ octet ∷ [])) fault) }
        ensures few { self.new.written ≤ self.old.written + 2493 }
        ensures lines { self.new.line.number ≤ self.old.line.number + 1 }
    {
        if octet != b'\n' {
            return self.line.push(octet);
        }
        self.end_line(w)?;
        self.line.next();
        Ok(())
    }

    /// Takes some octets, up to the first fault.
    fn consume_octets<W: Write>(&mut self, octets: &[u8], w: &mut W) -> Result<(), ToolFault>
        requires few { self.old.written + 2493 * length octets.now < 2 ^ 100 }
        requires lines { self.old.line.number + length octets.now < 2 ^ 100 }
        ensures taken { (start : Option (List ℕ)) (xs : List ℕ) →
            EncodedAfter start (W.contents w.old) self.old.line.octets.items self.old.line.number self.old.encoder
            self.old.written xs → MatchResult result
            (λ _. EncodedAfter start (W.contents w.new) self.new.line.octets.items self.new.line.number self.new.encoder
            self.new.written (xs ++ octets.now))
            (λ fault. EncodeHalts start (W.contents w.new) self.new.written (asked_so_far (xs ++ octets.now)) fault) }
        ensures few { self.new.written ≤ self.old.written + 2493 * length octets.now }
        ensures lines { self.new.line.number ≤ self.old.line.number + length octets.now }
    {
        for octet in octets {
            self.consume_octet(*octet, w)?;
        }
        Ok(())
    }

    /// Reads to the end or the first fault, by at most `reads` calls of the reader.
    pub fn read_to_end<R: Read, W: Write>(
        &mut self,
        reads: u64,
        r: &mut R,
        w: &mut W,
    ) -> Result<(), ToolFault>
        requires fresh { (start : Option (List ℕ)) →
            EncodedAfter start start self.old.line.octets.items self.old.line.number self.old.encoder self.old.written
            [] }
        requires none { (self.old.written ≡ 0) × (self.old.line.number ≡ 1) }
        ensures { (xs : List ℕ) × Consumes (R.remaining r.old) (R.remaining r.new) xs
            × EncodeFinishes reads (R.remaining r.new) (W.contents w.old) (W.contents w.new)
            self.new.written xs result }
    {
        let mut buffer = [0; ROOM];
        for _turn in 0..reads {
            let count = match r.read(&mut buffer) {
                Ok(0) => return self.end_line(w),
                Ok(count) => count,
                Err(_) => return Err(ToolFault::Read),
            };
            self.consume_octets(&buffer[..count], w)?;
        }
        Err(ToolFault::ReadsLimit)
    }

    /// Flushes what went out, unless that was nothing or a write failed, and returns how the
    /// whole ended.
    pub fn flush<W: Write>(&self, ending: Result<(), ToolFault>, w: &mut W) -> Result<(), ToolFault>
        ensures { (reads : ℕ) (after start : Option (List ℕ)) (xs : List ℕ) →
            EncodeFinishes reads after start (W.contents w.old) self.now.written xs ending
            → Encodes reads after start (W.contents w.new) xs result }
    {
        if self.written == 0 || is_cut(&ending) {
            return ending;
        }
        match w.flush() {
            Ok(()) => ending,
            Err(_) => Err(ToolFault::Write {
                written: self.written,
            }),
        }
    }
}
