//! The text of arrivals.

ghost use Rattle.std.specs.Prelude.{◌≡◌, ◌+◌, ◌<◌, ◌≤◌, ◌^◌, ◌++◌, ◌∷◌, [], ℕ, List, Option, MatchResult, true};
ghost use Rattle.arrayvec.specs.ArrayVec.{array_vec_len};
ghost use Rattle.bus_tap.specs.Arrival.{Arrival};
ghost use Rattle.bus_tap.specs.Blocks.{block_arrivals};
ghost use Rattle.bus_bits.specs.Limits.{most_places};
ghost use Rattle.bus_tap.specs.Sampled.{Timed, bits_of_edges, bit_on, with_sample};
ghost use Rattle.bus_tap.specs.Stopped.{stop_fill, with_stops};
ghost use Rattle.bus_text.specs.Pages.{Pages};
ghost use Rattle.bus_text.specs.Put.{TextStopsAt};
ghost use Rattle.bus_sample.specs.Marks.{mark, marks_text, whole_text};
ghost use Rattle.bus_sample.specs.Internal.Runs.{HasMarked, HasText, length_of};
ghost use Rattle.std.specs.Io.KnownBytes.{Appends};

use bus_line::Line;
use bus_tap::{EdgeBlock, Edges, StopRule, lowest_one};
use bus_text::{Page, ShortWrite};
use std::io::Write;

/// Marks in a line of text.
const WIDTH: u8 = 64;

/// The longest text that the bits of a block come to: 64 octets for each sample.
const BLOCK: usize = 4096;

/// 1s that make a line idle (ISO/IEC 13239, idle state).
const IDLE_ONES: u8 = 15;

/// The marks of 0 and 1 on the second line.
const SECOND: [u8; 2] = [b'o', b'i'];

/// Writes arrivals as text.
#[derive(Drop)]
pub(crate) struct Marks {
    pub(crate) page: Page,
    /// Marks in the open line.
    column: u8,
    /// By which bits come behind fifteen 1s.
    stops: StopRule,
}

/// The mark of a bit. No branch depends on the bit, which cannot be foreseen.
#[inline(always)]
fn mark(line: Line, bit: bool) -> u8
    ensures { result ≡ mark (line, bit) }
{
    match line {
        Line::First => b'0' + u8::from(bit),
        Line::Second => SECOND[usize::from(bit)],
    }
}

impl Marks {
    /// No text.
    pub(crate) fn new(rest: u64) -> Self
        ensures none { (start : Option (List ℕ)) → HasMarked start start result rest [] }
        ensures length { length_of result ≡ 0 }
    {
        Marks {
            page: Page::new(),
            column: 0,
            stops: StopRule::new(rest),
        }
    }

    /// Puts the bits of a sample.
    #[inline(always)]
    pub(crate) fn put<W: Write>(
        &mut self,
        sample: u64,
        edges: Edges,
        w: &mut W,
    ) -> Result<(), ShortWrite>
        requires { length_of self.old < 2 ^ 90 }
        ensures put { (start : Option (List ℕ)) (most : ℕ) (ts : List Timed) →
            HasMarked start (W.contents w.old) self.old most ts → MatchResult result
            (λ _. HasMarked start (W.contents w.new) self.new most (ts ++ with_sample sample (bits_of_edges edges)))
            (λ cut. TextStopsAt start (W.contents w.new)
            (marks_text (with_stops most (ts ++ with_sample sample (bits_of_edges edges)))) cut.sent) }
        ensures few { length_of self.new ≤ length_of self.old + 64 }
    {
        self.page.make_room(w)?;
        self.put_sample(sample, edges);
        Ok(())
    }

    /// Puts the bits of 64 samples, the first of which is `from`.
    #[inline(always)]
    pub(crate) fn put_block<W: Write>(
        &mut self,
        from: u64,
        edges: &EdgeBlock,
        w: &mut W,
    ) -> Result<(), ShortWrite>
        requires length { length_of self.old < 2 ^ 89 }
        requires room { from + 64 ≤ most_places }
        ensures put { (start : Option (List ℕ)) (most : ℕ) (ts : List Timed) →
            HasMarked start (W.contents w.old) self.old most ts → MatchResult result
            (λ _. HasMarked start (W.contents w.new) self.new most (ts ++ block_arrivals from edges.now))
            (λ cut. TextStopsAt start (W.contents w.new)
            (marks_text (with_stops most (ts ++ block_arrivals from edges.now))) cut.sent) }
        ensures few { length_of self.new ≤ length_of self.old + 4096 }
    {
        if self.page.text.remaining_capacity() < BLOCK {
            self.page.write_out(w)?;
        }
        self.put_edges(from, edges);
        Ok(())
    }

    /// Puts the bits of 64 samples on the page, which has room for them.
    #[inline(always)]
    fn put_edges(&mut self, from: u64, edges: &EdgeBlock)
        requires few { array_vec_len self.old.page.text + 4096 ≤ 16384 }
        requires room { from + 64 ≤ most_places }
        ensures put { (start now : Option (List ℕ)) (most : ℕ) (ts : List Timed) →
            HasMarked start now self.old most ts →
            HasMarked start now self.new most (ts ++ block_arrivals from edges.now) }
        ensures few { array_vec_len self.new.page.text ≤ array_vec_len self.old.page.text + 4096 }
        ensures written { self.new.page.written ≡ self.old.page.written }
    {
        let mut left = edges.first.rises | edges.second.rises;
        while left != 0 {
            let one = lowest_one(left);
            self.put_sample(from + u64::from(one.place), edges.at(one.place));
            left = one.rest;
        }
    }

    /// Puts the bits of a sample on the page, which has room for them.
    #[inline(always)]
    fn put_sample(&mut self, sample: u64, edges: Edges)
        requires { array_vec_len self.old.page.text + 64 ≤ 16384 }
        ensures put { (start now : Option (List ℕ)) (most : ℕ) (ts : List Timed) →
            HasMarked start now self.old most ts →
            HasMarked start now self.new most (ts ++ with_sample sample (bits_of_edges edges)) }
        ensures few { array_vec_len self.new.page.text ≤ array_vec_len self.old.page.text + 64 }
        ensures written { self.new.page.written ≡ self.old.page.written }
    {
        self.put_bit(Line::First, sample, edges.first);
        self.put_bit(Line::Second, sample, edges.second);
    }

    /// Puts a bit of a line, if one arrives with this sample, behind fifteen 1s if its clock stood still.
    #[inline(always)]
    fn put_bit(&mut self, line: Line, sample: u64, bit: Option<bool>)
        requires { array_vec_len self.old.page.text + 32 ≤ 16384 }
        ensures put { (start now : Option (List ℕ)) (most : ℕ) (ts : List Timed) →
            HasMarked start now self.old most ts →
            HasMarked start now self.new most (ts ++ with_sample sample (bit_on line bit)) }
        ensures few { array_vec_len self.new.page.text ≤ array_vec_len self.old.page.text + 32 }
        ensures written { self.new.page.written ≡ self.old.page.written }
    {
        let bit = match bit {
            None => return,
            Some(bit) => bit,
        };
        if self.stops.push(line, sample) {
            self.put_ones(line);
        }
        self.put_mark(mark(line, bit));
    }

    /// Puts the fifteen 1s of a line at rest.
    fn put_ones(&mut self, line: Line)
        requires { array_vec_len self.old.page.text + 30 ≤ 16384 }
        ensures put { (start now : Option (List ℕ)) (xs : List Arrival) → HasText start now self.old xs →
            HasText start now self.new (xs ++ stop_fill true line) }
        ensures few { array_vec_len self.new.page.text ≤ array_vec_len self.old.page.text + 30 }
        ensures written { self.new.page.written ≡ self.old.page.written }
        ensures stops { self.new.stops ≡ self.old.stops }
    {
        for _turn in 0..IDLE_ONES {
            self.put_mark(mark(line, true));
        }
    }

    /// Puts a mark.
    #[inline(always)]
    fn put_mark(&mut self, octet: u8)
        requires { array_vec_len self.old.page.text + 2 ≤ 16384 }
        ensures put { (start now : Option (List ℕ)) (xs : List Arrival) (x : Arrival) → octet ≡ mark x →
            HasText start now self.old xs → HasText start now self.new (xs ++ x ∷ []) }
        ensures few { array_vec_len self.new.page.text ≤ array_vec_len self.old.page.text + 2 }
        ensures written { self.new.page.written ≡ self.old.page.written }
        ensures stops { self.new.stops ≡ self.old.stops }
    {
        self.page.text.push(octet);
        if self.column < WIDTH - 1 {
            self.column += 1;
            return;
        }
        self.column = 0;
        self.page.text.push(b'\n');
    }

    /// Ends the last line.
    fn end_line(&mut self)
        requires { array_vec_len self.old.page.text + 1 ≤ 16384 }
        ensures ended { (start now : Option (List ℕ)) (xs : List Arrival) → HasText start now self.old xs →
            Pages start now self.new.page.text self.new.page.written (whole_text xs) }
        ensures few { array_vec_len self.new.page.text ≤ array_vec_len self.old.page.text + 1 }
        ensures written { self.new.page.written ≡ self.old.page.written }
    {
        if self.column == 0 {
            return;
        }
        self.page.text.push(b'\n');
    }

    /// Ends the last line, writes the page and flushes.
    pub(crate) fn end<W: Write>(&mut self, w: &mut W) -> Result<(), ShortWrite>
        requires { length_of self.old < 2 ^ 90 }
        ensures { (start : Option (List ℕ)) (most : ℕ) (ts : List Timed) →
            HasMarked start (W.contents w.old) self.old most ts → MatchResult result
            (λ _. Appends start (W.contents w.new) (whole_text (with_stops most ts)))
            (λ cut. TextStopsAt start (W.contents w.new) (whole_text (with_stops most ts)) cut.sent) }
    {
        self.page.make_room(w)?;
        self.end_line();
        self.page.close(w)
    }
}
