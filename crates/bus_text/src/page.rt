//! Lines that are written at once.

ghost use Rattle.std.specs.Prelude.{◌≡◌, ◌+◌, ◌<◌, ◌≤◌, ◌^◌, ℕ, List, [], Option, MatchResult, OnOk, OnErr, IfErr};
ghost use Rattle.std.specs.Prelude.{length};
ghost use Rattle.std.specs.Io.KnownBytes.{Appends};
ghost use Rattle.arrayvec.specs.ArrayVec.{array_vec_len};
ghost use Rattle.bus_text.specs.Put.{TextStopsAt};
ghost use Rattle.bus_text.specs.Pages.{HasRoomFor, Pages};

use crate::places::Places;
use crate::put::{ShortWrite, put_text};
use arrayvec::ArrayVec;
use std::io::Write;

/// The room of a page, in octets.
const ROOM: usize = 16384;

/// The room kept for one place, in octets: two lines may each have a report there, of at most 964.
const MOST: usize = 2048;

/// Lines that are not written yet, and how many octets were written before them.
#[derive(Drop)]
pub struct Page {
    /// The lines that are not written yet.
    pub text: ArrayVec<u8, ROOM>,
    /// How many octets were written before them.
    pub written: u128,
    /// What the places in them are written by.
    pub(crate) places: Places,
}

impl Page {
    /// An empty page, before which nothing was written.
    pub fn new() -> Self
        ensures blank { (start : Option (List ℕ)) → Pages start start result.text result.written [] }
        ensures none { (result.written ≡ 0) × (array_vec_len result.text ≡ 0) }
    {
        Page {
            text: ArrayVec::new(),
            written: 0,
            places: Places::new(),
        }
    }

    /// Writes the page, and empties it.
    #[inline(never)]
    pub fn write_out<W: Write>(&mut self, w: &mut W) -> Result<(), ShortWrite>
        requires { self.old.written < 2 ^ 100 }
        ensures turned { (start : Option (List ℕ)) (text : List ℕ) →
            Pages start (W.contents w.old) self.old.text self.old.written text → MatchResult result
            (λ _. Pages start (W.contents w.new) self.new.text self.new.written text)
            (λ cut. TextStopsAt start (W.contents w.new) text cut.sent) }
        ensures kept { OnErr result (self.new ≡ self.old) }
        ensures short { IfErr result (λ cut. cut.sent < self.old.written + array_vec_len self.old.text) }
        ensures empty { OnOk result (array_vec_len self.new.text ≡ 0) }
        ensures sum { OnOk result (self.new.written ≡ self.old.written + array_vec_len self.old.text) }
    {
        if let Err(cut) = put_text(w, self.text.as_slice()) {
            return Err(ShortWrite {
                sent: self.written + cut.sent,
            });
        }
        self.written += self.text.len() as u128;
        self.text.clear();
        Ok(())
    }

    /// Makes room for what one place adds.
    #[inline(always)]
    pub fn make_room<W: Write>(&mut self, w: &mut W) -> Result<(), ShortWrite>
        requires { self.old.written < 2 ^ 100 }
        ensures turned { (start : Option (List ℕ)) (text : List ℕ) →
            Pages start (W.contents w.old) self.old.text self.old.written text → MatchResult result
            (λ _. Pages start (W.contents w.new) self.new.text self.new.written text)
            (λ cut. TextStopsAt start (W.contents w.new) text cut.sent) }
        ensures kept { OnErr result (self.new ≡ self.old) }
        ensures short { IfErr result (λ cut. cut.sent < self.old.written + array_vec_len self.old.text) }
        ensures room { OnOk result (HasRoomFor 2048 self.new) }
        ensures sum { OnOk result
            (self.new.written + array_vec_len self.new.text ≡ self.old.written + array_vec_len self.old.text) }
    {
        if self.text.remaining_capacity() >= MOST {
            return Ok(());
        }
        self.write_out(w)
    }

    /// Writes the page and, if anything was written at all, flushes.
    pub fn close<W: Write>(&mut self, w: &mut W) -> Result<(), ShortWrite>
        requires { self.old.written < 2 ^ 100 }
        ensures closed { (start : Option (List ℕ)) (text : List ℕ) →
            Pages start (W.contents w.old) self.old.text self.old.written text → MatchResult result
            (λ _. Appends start (W.contents w.new) text)
            (λ cut. TextStopsAt start (W.contents w.new) text cut.sent) }
        ensures empty { OnOk result (array_vec_len self.new.text ≡ 0) }
        ensures sum { OnOk result (self.new.written ≡ self.old.written + array_vec_len self.old.text) }
    {
        self.write_out(w)?;
        if self.written == 0 {
            return Ok(());
        }
        match w.flush() {
            Ok(()) => Ok(()),
            Err(_) => Err(ShortWrite { sent: self.written }),
        }
    }
}
