//! A decoder in a caller's memory.

ghost use Rattle.std.specs.Prelude.{◌≡◌, ◌+◌, ◌-◌, ◌*◌, ◌≤◌, ◌<◌, ◌↔◌, List, Bool, IsErr, IfOk, IsTrue, OnErr, length};
ghost use Rattle.std.specs.Option.{option_map};
ghost use Rattle.bus_bits.specs.Bits.{bits_from};
ghost use Rattle.bus_bits.specs.Limits.{most_places};
ghost use Rattle.bus_fcs.specs.Folded.{by_tables};
ghost use Rattle.bus_line.specs.Due.{begun};
ghost use Rattle.bus_pairing.specs.Shown.{begun_span};
ghost use Rattle.bus_tap.specs.Lines.{DecodesBit, OpensWith};
ghost use Rattle.port1_c.specs.Line.{AdvancesLine, IsCoded, Sound, LineAfter, held};

use crate::bits::Told;
use crate::lent_frame::LentFrame;
use crate::report::Port1Report;
use bus_bits::Span;
use bus_fcs::OctetCheck;
use bus_line::{DecoderWords, Event, PlaceLimit};

/// A decoder between two calls. Its layout is that of `c/include/port1.h`.
#[repr(C)]
#[derive(Drop)]
pub struct Port1Line {
    /// The decoder but for the octets and their check.
    pub words: DecoderWords,
    /// The octets, with the register of their check.
    pub frame: LentFrame,
}

impl Port1Line {
    /// Whether the memory holds a decoder.
    #[inline(always)]
    pub(crate) fn is_sound(&self) -> bool
        ensures { IsTrue result ↔ Sound self.now }
    {
        self.words.are_valid() && u64::from(self.frame.len) <= self.words.longest + 2
    }

    /// Takes bits of these octets, the lowest of each first, from bit `at` on and before bit `end`: up to the first
    /// that decides a report, or all, but none whose place would be 2^60.
    #[inline(always)]
    pub(crate) fn scan(&mut self, octets: &[u8], at: usize, end: usize) -> Result<Told, PlaceLimit>
        requires sound { Sound self.old }
        requires some { at < end }
        requires within { end ≤ 8 * length octets.now }
        ensures limit { IsErr result ↔ (most_places ≤ self.old.words.place) }
        ensures kept { OnErr result (self.new ≡ self.old) }
        ensures count { IfOk result (λ t. (1 ≤ t.count) × (t.count ≤ end - at)) }
        ensures all { IfOk result (λ t. t.report.kind ≡ 0 → t.count < end - at → self.new.words.place ≡ most_places) }
        ensures coded { IfOk result (λ t. IsCoded t.report) }
        ensures advances { IfOk result (λ t.
            AdvancesLine (held self.old) (bits_from octets.now at t.count) t.report (held self.new)) }
        ensures sound { Sound self.new }
    {
        let mut check = OctetCheck::with_register(self.frame.register);
        match self
            .words
            .scan(&mut check, &mut self.frame, octets, at, end)
        {
            Ok(scanned) => {
                self.frame.register = check.register();
                Ok(Told {
                    count: scanned.count,
                    report: Port1Report::of(scanned.event),
                })
            }
            Err(PlaceLimit) => Err(PlaceLimit),
        }
    }

    /// Takes a bit. Returns what it decides.
    #[inline(always)]
    pub(crate) fn decode(&mut self, bit: bool) -> Result<Option<Event>, PlaceLimit>
        requires sound { Sound self.old }
        ensures limit { IsErr result ↔ (most_places ≤ self.old.words.place) }
        ensures kept { OnErr result (self.new ≡ self.old) }
        ensures decides { IfOk result (λ event. DecodesBit by_tables (held self.old) bit event (held self.new)) }
        ensures sound { Sound self.new }
    {
        let mut check = OctetCheck::with_register(self.frame.register);
        let event = self.words.push(&mut check, &mut self.frame, bit)?;
        self.frame.register = check.register();
        Ok(event)
    }

    /// The first place of a piece that has begun and is not ended yet.
    pub(crate) fn begun(&self) -> Option<u64>
        requires { Sound self.now }
        ensures { (b : List Bool) → LineAfter self.now b →
            result ≡ option_map (λ first. self.now.words.origin + first) (begun b) }
    {
        self.words.begun()
    }

    /// The piece that has begun, up to the place of the next bit.
    pub(crate) fn begun_span(&self) -> Option<Span>
        requires { Sound self.now }
        ensures { (b : List Bool) → LineAfter self.now b → result ≡ begun_span self.now.words.origin b }
    {
        let past = self.words.place;
        self.begun().map(|first| Span { first, past })
    }

    /// Whether a piece begins with the last bit, which has this number.
    pub(crate) fn begins(&self, number: u64) -> bool
        requires { Sound self.now }
        ensures { OpensWith by_tables (held self.now) number result }
    {
        match self.begun() {
            Some(first) => first == number,
            None => false,
        }
    }
}
