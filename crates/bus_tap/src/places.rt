//! The places of the second line's bits.

ghost use Rattle.std.specs.Prelude.{◌≡◌, ◌+◌, ◌-◌, ◌++◌, ◌∷◌, [], ℕ, List, Bool, Some, length, replicate};
ghost use Rattle.bus_line.specs.declared.line.Line.TheVariants.{First, Second};
ghost use Rattle.bus_tap.specs.Arrival.{Arrival, own};
ghost use Rattle.bus_tap.specs.Lines.{BeginsAt};
ghost use Rattle.bus_tap.specs.Places.{AreLocated, IsLocated, IsOpenSpan, IsPast, KeepsDecided, KeepsPlaces};
ghost use Rattle.bus_tap.specs.Places.{LocatesLast, Notes};

use bus_bits::Span;
use bus_line::{Event, EventKind};

/// What is kept of the places of the second line's bits. The layout is C's.
#[repr(C)]
#[derive(Drop)]
pub struct BitPlaces {
    /// The place at which a bit of the second line stands now: that of the last bit of the first line.
    pub reached: u64,
    /// The places of the last sixteen bits, that of bit `k` at `k % 16`. The last bit of what a bit decides is among
    /// them; so is the first one, unless it opened the piece.
    pub recent: [u64; 16],
    /// The place of the first bit of the open piece.
    pub opened: u64,
}

impl BitPlaces {
    /// Of no bits.
    pub fn new(origin: u64) -> Self
        ensures keeps { KeepsPlaces origin result [] }
        ensures value { result ≡ record { reached = origin; recent = replicate 16 origin; opened = origin } }
    {
        BitPlaces {
            reached: origin,
            recent: [origin; 16],
            opened: origin,
        }
    }

    /// The bit of the first line that has this place arrived.
    pub fn reach(&mut self, place: u64)
        ensures keeps { (origin : ℕ) (xs : List Arrival) (bit : Bool) → KeepsPlaces origin self.old xs →
            place ≡ origin + length (own First xs) → KeepsPlaces origin self.new (xs ++ (First, bit) ∷ []) }
        ensures value { self.new ≡ record self.old { reached = place } }
    {
        self.reached = place;
    }

    /// Bit `k` of the second line arrived, with which a piece begins if `opens`.
    pub fn note(&mut self, k: u64, opens: bool)
        ensures keeps { (origin : ℕ) (xs : List Arrival) (bit : Bool) → KeepsPlaces origin self.old xs →
            k ≡ length (own Second xs) → BeginsAt opens (own Second xs) bit →
            KeepsPlaces origin self.new (xs ++ (Second, bit) ∷ []) }
        ensures decided { (origin : ℕ) (xs : List Arrival) (bit : Bool) → KeepsPlaces origin self.old xs →
            k ≡ length (own Second xs) → BeginsAt opens (own Second xs) bit → KeepsDecided origin self.new xs bit }
        ensures notes { Notes self.old self.new k opens }
    {
        self.write(k, opens);
    }

    /// Writes the place of bit `k`, and that of the open piece if it `opens`.
    #[inline(always)]
    fn write(&mut self, k: u64, opens: bool)
        ensures { Notes self.old self.new k opens }
    {
        self.recent[(k % 16) as usize] = self.reached;
        if opens {
            self.opened = self.reached;
        }
    }

    /// The place past that of bit `k`, which is one of the last sixteen.
    fn past(&self, k: u64) -> u64
        ensures { IsPast self.now k result }
    {
        self.recent[(k % 16) as usize].saturating_add(1)
    }

    /// The open piece of a line that had so many bits.
    pub fn open_span(&self, count: u64) -> Span
        ensures open { IsOpenSpan self.now count result }
        ensures first { result.first ≡ self.now.opened }
        ensures past { IsPast self.now (count - 1) result.past }
    {
        Span {
            first: self.opened,
            past: self.past(count.saturating_sub(1)),
        }
    }

    /// What the last bit decided, its span in places.
    pub fn located(&self, event: Event) -> Event
        ensures last { LocatesLast self.now (Some event) (Some result) }
        ensures located { IsLocated self.now event result }
    {
        self.moved(event)
    }

    /// An event whose bits are among the last ones, or of the open piece, with its span in places.
    #[inline(always)]
    fn moved(&self, event: Event) -> Event
        ensures { IsLocated self.now event result }
    {
        let first = match event.kind {
            EventKind::Idle => self.recent[(event.span.first % 16) as usize],
            _ => self.opened,
        };
        Event {
            kind: event.kind,
            span: Span {
                first,
                past: self.past(event.span.past.saturating_sub(1)),
            },
        }
    }

    /// The same, if it decided anything.
    pub fn located_option(&self, event: Option<Event>) -> Option<Event>
        ensures last { LocatesLast self.now event result }
        ensures located { AreLocated self.now event result }
    {
        match event {
            None => None,
            Some(event) => Some(self.located(event)),
        }
    }
}
