//! Two lines with a clock each, in a caller's memory.

ghost use Rattle.std.specs.Prelude.{◌≡◌, ◌≤◌, ◌↔◌, List, IsErr, IfOk, OnErr, IsTrue};
ghost use Rattle.bus_bits.specs.Limits.{most_places};
ghost use Rattle.bus_fcs.specs.Folded.{by_tables};
ghost use Rattle.bus_pairing.specs.Shown.{begun_span};
ghost use Rattle.bus_line.specs.declared.line.Line.TheVariants.{First, Second};
ghost use Rattle.bus_tap.specs.Arrival.{Arrival, own, begun_places};
ghost use Rattle.bus_tap.specs.Lines.{DecodesBit};
ghost use Rattle.port1_c.specs.Line.{Sound, held};
ghost use Rattle.port1_c.specs.Clocks.{AreSound, ClocksAfter, PushesClocks, memory_of};

use crate::line::Port1Line;
use bus_bits::Span;
use bus_line::{Event, Line, PlaceLimit};
use bus_tap::BitPlaces;

/// Two decoders, and what is kept of the places of the second line's bits. Its layout is that of `c/include/port1.h`.
#[repr(C)]
#[derive(Drop)]
pub struct Port1Clocks {
    /// The first line.
    pub first: Port1Line,
    /// The second line, whose places count its own bits, from 0.
    pub second: Port1Line,
    /// The places of the second line's bits among those of the first.
    pub places: BitPlaces,
}

/// A line takes a bit. Returns what it decides. Both lines share this copy of the decoder's code.
#[inline(never)]
fn decode(line: &mut Port1Line, bit: bool) -> Result<Option<Event>, PlaceLimit>
    requires sound { Sound line.old }
    ensures limit { IsErr result ↔ (most_places ≤ line.old.words.place) }
    ensures kept { OnErr result (line.new ≡ line.old) }
    ensures decides { IfOk result (λ event. DecodesBit by_tables (held line.old) bit event (held line.new)) }
    ensures sound { Sound line.new }
{
    line.decode(bit)
}

impl Port1Clocks {
    /// Whether the memory holds two decoders.
    #[inline(always)]
    pub(crate) fn is_sound(&self) -> bool
        ensures { IsTrue result ↔ AreSound self.now }
    {
        self.first.is_sound() && self.second.is_sound()
    }

    /// A bit of a line arrives. Returns what it decides, in places.
    #[inline(always)]
    pub(crate) fn push(&mut self, line: Line, bit: bool) -> Result<Option<Event>, PlaceLimit>
        requires sound { AreSound self.old }
        ensures limit { IsErr result ↔ (most_places ≤ (memory_of self.old line).words.place) }
        ensures kept { OnErr result (self.new ≡ self.old) }
        ensures pushes { IfOk result (λ event. PushesClocks self.old (line, bit) event self.new) }
        ensures sound { AreSound self.new }
    {
        match line {
            Line::First => self.push_first(bit),
            Line::Second => self.push_second(bit),
        }
    }

    /// A bit of the first line arrives.
    #[inline(always)]
    fn push_first(&mut self, bit: bool) -> Result<Option<Event>, PlaceLimit>
        requires sound { AreSound self.old }
        ensures limit { IsErr result ↔ (most_places ≤ self.old.first.words.place) }
        ensures kept { OnErr result (self.new ≡ self.old) }
        ensures pushes { IfOk result (λ event. PushesClocks self.old (First, bit) event self.new) }
        ensures sound { AreSound self.new }
    {
        let place = self.first.words.place;
        let event = decode(&mut self.first, bit)?;
        self.places.reach(place);
        Ok(event)
    }

    /// A bit of the second line arrives.
    #[inline(always)]
    fn push_second(&mut self, bit: bool) -> Result<Option<Event>, PlaceLimit>
        requires sound { AreSound self.old }
        ensures limit { IsErr result ↔ (most_places ≤ self.old.second.words.place) }
        ensures kept { OnErr result (self.new ≡ self.old) }
        ensures pushes { IfOk result (λ event. PushesClocks self.old (Second, bit) event self.new) }
        ensures sound { AreSound self.new }
    {
        let number = self.second.words.place;
        let event = decode(&mut self.second, bit)?;
        let opens = self.second.begins(number);
        self.places.note(number, opens);
        Ok(self.places.located_option(event))
    }

    /// The piece that the first line has begun.
    pub(crate) fn open_first(&self) -> Option<Span>
        requires { AreSound self.now }
        ensures { (xs : List Arrival) → ClocksAfter self.now xs →
            result ≡ begun_span self.now.first.words.origin (own First xs) }
    {
        self.first.begun_span()
    }

    /// The piece that the second line has begun, in places.
    pub(crate) fn open_second(&self) -> Option<Span>
        requires { AreSound self.now }
        ensures { (xs : List Arrival) → ClocksAfter self.now xs →
            result ≡ begun_places self.now.first.words.origin xs }
    {
        match self.second.begun() {
            Some(_) => Some(self.places.open_span(self.second.words.place)),
            None => None,
        }
    }
}
