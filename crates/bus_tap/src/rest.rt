//! Brings the second line to rest where its clock has stopped.

ghost use Rattle.std.specs.Prelude.{◌≡◌, ◌+◌, ◌-◌, ◌*◌, ◌≤◌, ◌<◌, ◌==◌, ◌&&◌, ◌++◌, ◌∷◌, [], ℕ, List, length, min};
ghost use Rattle.std.specs.Prelude.{◌↔◌, ◌^◌, Bool, IsSome, IfSome, if◌then◌else◌, true, false, nat_lt};
ghost use Rattle.bus_tap.specs.Arrival.{Arrival, arrival_of, arrivals_from, own};
ghost use Rattle.bus_tap.specs.Internal.Quiet.{IsQuietFor, Passes};
ghost use Rattle.bus_tap.specs.Rested.{IsRestAfter, rested, fill};
ghost use Rattle.bus_bits.specs.Bits.{bit_at};
ghost use Rattle.bus_line.specs.Run.{ones_after};
ghost use Rattle.bus_line.specs.declared.line.Line.TheVariants.{Second};

use bus_bits::bit_at;
use bus_line::Line;
use std::cmp::min;
use std::marker::Model;

/// 1s that make a line idle (ISO/IEC 13239, idle state).
const IDLE_ONES: u64 = 15;

/// Brings the second line to rest where its clock has stopped, as with stations that drive it only while they send.
///
/// After a number of bits of the first line without one of the second, fifteen 1s arrive on the second line.
/// A piece that a station broke off then ends in an abort. Where the second line rests already, nothing is
/// put in. It rests where its last fifteen bits are 1s, with those put in, and before its first bit.
#[derive(Drop)]
pub struct RestRule {
    most: u64,
    /// Bits of the first line since the last of the second, up to `most`.
    silent: u64,
    /// 1s at the end of the second line with those put in, up to fifteen.
    ones: u64,
}

impl Model for RestRule {
    ghost use Rattle.bus_tap.specs.Rested.{RestState};

    ghost Value = { RestState };

    ghost use Rattle.bus_tap.specs.Internal.RestView.{rest_state, IsSilentWithin};

    ghost view = { rest_state };

    ghost invariant = { IsSilentWithin };
}

impl RestRule {
    /// The silence that suits a traffic cabinet, in bits of the first line. No sender pauses so long within a frame,
    /// and the shortest command between two answers is longer.
    pub const SILENCE: u64 = 40;

    /// The rule before the first arrival. `most` is the silence that brings the second line to rest, in bits
    /// of the first line; with 0 none does.
    pub fn new(most: u64) -> Self
        ensures after { IsRestAfter result [] }
        ensures most { result.most ≡ most }
    {
        RestRule {
            most,
            silent: 0,
            ones: IDLE_ONES,
        }
    }

    /// The rule that stands so, if one can.
    pub fn resume(most: u64, silent: u64, ones: u64) -> Option<Self>
        ensures some { IsSome result ↔ (silent ≤ most) × (ones ≤ 15) }
        ensures value { IfSome result (λ rule. rule ≡ record { most = most; silent = silent; ones = ones }) }
    {
        if silent > most || ones > IDLE_ONES {
            return None;
        }
        Some(RestRule { most, silent, ones })
    }

    /// How many bits of the first line came since the last of the second, up to the silence.
    pub fn silent(&self) -> u64
        ensures value { result ≡ self.now.silent }
        ensures within { result ≤ self.now.most }
    {
        self.silent
    }

    /// How many 1s are at the end of the second line with those put in, up to fifteen.
    pub fn ones(&self) -> u64
        ensures value { result ≡ self.now.ones }
        ensures within { result ≤ 15 }
    {
        self.ones
    }

    /// A bit arrives. Returns whether fifteen 1s of the second line arrive right after it. These are not pushed here.
    pub fn push(&mut self, line: Line, bit: bool) -> bool
        ensures rested { (xs : List Arrival) → IsRestAfter self.old xs →
            rested self.old.most (xs ++ (line, bit) ∷ []) ≡ rested self.old.most xs ++ ((line, bit) ∷ fill result) }
        ensures after { (xs : List Arrival) → IsRestAfter self.old xs → IsRestAfter self.new (xs ++ (line, bit) ∷ []) }
        ensures most { self.new.most ≡ self.old.most }
    {
        match line {
            Line::First => self.push_first(),
            Line::Second => {
                self.push_second(bit);
                false
            }
        }
    }

    /// Some of these arrivals come, from one on and before another: their bits, and a 1 for each that is one of the
    /// second line, the lowest of each octet first. Returns how many came, one at least, and whether fifteen 1s of the
    /// second line arrive right after them. These are not pushed here.
    pub fn push_some(&mut self, bits: &[u8], lines: &[u8], from: usize, end: usize) -> (usize, bool)
        requires some { from < end }
        requires enough { (end ≤ 8 * length bits.now) × (end ≤ 8 * length lines.now) }
        ensures within { (1 ≤ result.0) × (result.0 ≤ end - from) }
        ensures rested { (xs : List Arrival) → IsRestAfter self.old xs →
            rested self.old.most (xs ++ arrivals_from bits.now lines.now from result.0)
            ≡ rested self.old.most xs ++ (arrivals_from bits.now lines.now from result.0 ++ fill result.1) }
        ensures after { (xs : List Arrival) → IsRestAfter self.old xs →
            IsRestAfter self.new (xs ++ arrivals_from bits.now lines.now from result.0) }
        ensures most { self.new.most ≡ self.old.most }
    {
        let past = self.quiet_until(lines, from, end);
        self.pass(bits, lines, from, past);
        if past == end {
            return (end - from, false);
        }
        let line = if bit_at(lines, past) {
            Line::Second
        } else {
            Line::First
        };
        let comes = self.push(line, bit_at(bits, past));
        (past - from + 1, comes)
    }

    /// An arrival up to which none of these, from one on and before another, brings the second line to rest.
    fn quiet_until(&self, lines: &[u8], from: usize, end: usize) -> usize
        requires some { from ≤ end }
        requires enough { end ≤ 8 * length lines.now }
        ensures within { (from ≤ result) × (result ≤ end) }
        ensures quiet { (bits : List ℕ) (xs : List Arrival) → IsRestAfter self.now xs →
            rested self.now.most (xs ++ arrivals_from bits lines.now from (result - from))
            ≡ rested self.now.most xs ++ arrivals_from bits lines.now from (result - from) }
    {
        if self.most == 0 {
            return end;
        }
        let mut quiet = Quiet {
            at: from,
            left: (self.most - self.silent).saturating_sub(1),
        };
        if self.ones == IDLE_ONES {
            quiet = Quiet {
                at: next_second(lines, from, end),
                left: 0,
            };
        }
        while quiet.at < end {
            quiet.pass_octets(lines, end, self.most);
            let at = quiet.at;
            if at == end || !quiet.pass_one(bit_at(lines, at), self.most) {
                return at;
            }
        }
        end
    }

    /// These arrive, from one on and before another, of which none brings the second line to rest: their bits, and a 1
    /// for each that is one of the second line, the lowest of each octet first.
    fn pass(&mut self, bits: &[u8], lines: &[u8], from: usize, end: usize)
        requires some { from ≤ end }
        requires enough { (end ≤ 8 * length bits.now) × (end ≤ 8 * length lines.now) }
        ensures after { (xs : List Arrival) → IsRestAfter self.old xs →
            rested self.old.most (xs ++ arrivals_from bits.now lines.now from (end - from))
            ≡ rested self.old.most xs ++ arrivals_from bits.now lines.now from (end - from) →
            IsRestAfter self.new (xs ++ arrivals_from bits.now lines.now from (end - from)) }
        ensures most { self.new.most ≡ self.old.most }
    {
        let past = past_second(lines, from, end);
        let mut silent = self.silent;
        if past > from {
            self.ones = ones_before(bits, lines, from, past, self.ones);
            silent = 0;
        }
        self.silent = min(self.most, silent.saturating_add((end - past) as u64));
    }

    /// A bit of the first line arrives. Returns whether the second line comes to rest with it.
    fn push_first(&mut self) -> bool
        ensures comes { result ≡ (nat_lt self.old.silent self.old.most
            && ((self.old.silent + 1 == self.old.most) && nat_lt self.old.ones 15)) }
        ensures stands { self.new ≡ record self.old {
          silent = min self.old.most (self.old.silent + 1);
          ones = if result then 15 else self.old.ones;
        } }
        ensures within { self.old.silent ≤ self.old.most }
    {
        if self.silent >= self.most {
            return false;
        }
        self.silent += 1;
        let comes = self.silent == self.most && self.ones < IDLE_ONES;
        if comes {
            self.ones = IDLE_ONES;
        }
        comes
    }

    /// A bit of the second line arrives.
    fn push_second(&mut self, bit: bool)
        ensures { self.new ≡ record self.old {
          silent = 0;
          ones = if bit then min 15 (self.old.ones + 1) else 0;
        } }
    {
        self.silent = 0;
        self.ones = if bit {
            min(self.ones + 1, IDLE_ONES)
        } else {
            0
        };
    }
}

/// Up to an arrival none brought the second line to rest, and of the next `left` none will, whatever they are.
#[derive(Clone, Copy)]
struct Quiet {
    at: usize,
    left: u64,
}

impl Quiet {
    /// Goes on over whole octets, while no arrival of the next can bring rest.
    fn pass_octets(&mut self, lines: &[u8], end: usize, most: u64)
        requires some { self.old.at ≤ end }
        requires enough { end ≤ 8 * length lines.now }
        ensures within { (self.old.at ≤ self.new.at) × (self.new.at ≤ end) }
        ensures quiet { (bits : List ℕ) (xs : List Arrival) → IsQuietFor most xs self.old.left →
            Passes most xs (arrivals_from bits lines.now self.old.at (self.new.at - self.old.at)) self.new.left }
    {
        if self.at % 8 != 0 {
            return;
        }
        while end - self.at >= 8 && self.left >= 8 {
            self.left = if lines[self.at / 8] == 0 {
                self.left - 8
            } else {
                most.saturating_sub(8)
            };
            self.at += 8;
        }
    }

    /// Goes on over an arrival of this line, where it cannot bring rest.
    fn pass_one(&mut self, is_second: bool, most: u64) -> bool
        requires { self.old.at < 2 ^ 64 - 1 }
        ensures stays { result ≡ false → self.new ≡ self.old }
        ensures next { result ≡ true → self.new.at ≡ self.old.at + 1 }
        ensures quiet { (bit : Bool) (xs : List Arrival) → IsQuietFor most xs self.old.left → result ≡ true →
            Passes most xs (arrival_of (bit, is_second) ∷ []) self.new.left }
    {
        if is_second {
            self.left = most.saturating_sub(1);
        } else if self.left > 0 {
            self.left -= 1;
        } else {
            return false;
        }
        self.at += 1;
        true
    }
}

/// The first bit of the second line among these arrivals, from one on and before another; where there is none, that.
fn next_second(lines: &[u8], from: usize, end: usize) -> usize
    requires some { from ≤ end }
    requires enough { end ≤ 8 * length lines.now }
    ensures within { (from ≤ result) × (result ≤ end) }
    ensures alone { (bits : List ℕ) → own Second (arrivals_from bits lines.now from (result - from)) ≡ [] }
{
    let mut at = from;
    while at < end && !bit_at(lines, at) {
        if at % 8 == 0 && end - at >= 8 && lines[at / 8] == 0 {
            at += 8;
        } else {
            at += 1;
        }
    }
    at
}

/// Past the last bit of the second line among these arrivals, from one on and before another; where there is none, the
/// first of them.
fn past_second(lines: &[u8], from: usize, end: usize) -> usize
    requires some { from ≤ end }
    requires enough { end ≤ 8 * length lines.now }
    ensures within { (from ≤ result) × (result ≤ end) }
    ensures behind { (bits : List ℕ) → own Second (arrivals_from bits lines.now result (end - result)) ≡ [] }
    ensures last { from < result → bit_at lines.now (result - 1) ≡ true }
{
    let mut past = end;
    while past > from {
        if past % 8 == 0 && past - from >= 8 && lines[past / 8 - 1] == 0 {
            past -= 8;
        } else if bit_at(lines, past - 1) {
            return past;
        } else {
            past -= 1;
        }
    }
    from
}

/// How many 1s are at the end of the second line, up to fifteen, with its bits among these arrivals after others.
fn ones_before(bits: &[u8], lines: &[u8], from: usize, past: usize, others: u64) -> u64
    requires some { from ≤ past }
    requires enough { (past ≤ 8 * length bits.now) × (past ≤ 8 * length lines.now) }
    requires few { others ≤ 15 }
    ensures { result
        ≡ min 15 (ones_after others (own Second (arrivals_from bits.now lines.now from (past - from)))) }
{
    let mut at = past;
    let mut ones = 0;
    while at > from && ones < IDLE_ONES {
        at -= 1;
        if bit_at(lines, at) {
            if !bit_at(bits, at) {
                return ones;
            }
            ones += 1;
        }
    }
    if at > from {
        return IDLE_ONES;
    }
    min(ones + others, IDLE_ONES)
}
