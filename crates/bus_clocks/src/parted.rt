//! Arrivals parted by line.

ghost use Rattle.std.specs.Prelude.{◌≡◌, ◌+◌, ◌*◌, ◌<◌, ◌≤◌, ◌^◌, ◌∷◌, ◌++◌, [], ℕ, List, length};
ghost use Rattle.bus_bits.specs.Octet.{bits_of};
ghost use Rattle.bus_tap.specs.Arrival.{Arrival, arrival_of, arrivals_from, firsts_before, own};
ghost use Rattle.bus_clocks.specs.Internal.Parts.{Parts, upto};
ghost use Rattle.bus_line.specs.declared.line.Line.TheVariants.{First, Second};

use crate::line_bits::{BLOCK, LineBits};
use bus_bits::{bit_at, eight_at};
use bus_formats::PairWords;

/// The lines of 64 arrivals that take turns, where a bit of the first line begins.
const FIRST_BEGINS: u64 = 0xaaaa_aaaa_aaaa_aaaa;

/// And where a bit of the second line does.
const SECOND_BEGINS: u64 = 0x5555_5555_5555_5555;

/// The bits of some arrivals, parted by line.
#[derive(Drop)]
pub(crate) struct Parted {
    /// Those of the first line.
    pub(crate) first: LineBits,
    /// Those of the second line.
    pub(crate) second: LineBits,
    /// How many bits of the first line came before each bit of the second.
    pub(crate) before: [u16; BLOCK],
}

/// Parts these arrivals, at most 512 from one on.
pub(crate) fn part(bits: &[u8], lines: &[u8], from: usize, count: usize) -> Parted
    requires few { count ≤ 512 }
    requires fits { from + count < 2 ^ 64 }
    requires enough { (from + count ≤ 8 * length bits.now) × (from + count ≤ 8 * length lines.now) }
    ensures { Parts (arrivals_from bits.now lines.now from count) result }
{
    let mut parted = Parted {
        first: LineBits::new(),
        second: LineBits::new(),
        before: [0; BLOCK],
    };
    let mut taken = 0;
    while taken < count {
        taken += parted.take(bits, lines, from + taken, count - taken);
    }
    parted
}

impl Parted {
    /// Takes some of these arrivals, so many from one on: 64 where the lines take turns or the second is silent, else
    /// one. Returns how many.
    #[inline(always)]
    fn take(&mut self, bits: &[u8], lines: &[u8], at: usize, count: usize) -> usize
        requires some { 1 ≤ count }
        requires enough { (at + count ≤ 8 * length bits.now) × (at + count ≤ 8 * length lines.now) }
        requires parts { (xs : List Arrival) × Parts xs self.old × (length xs + count ≤ 512) }
        ensures within { (1 ≤ result) × (result ≤ count) }
        ensures parts { (xs : List Arrival) → Parts xs self.old → length xs + count ≤ 512 →
            Parts (xs ++ arrivals_from bits.now lines.now at result) self.new }
    {
        if at % 8 == 0 && count >= 64 {
            let turns = eight_at(lines, at / 8);
            let word = eight_at(bits, at / 8);
            if turns == 0 {
                self.take_first(word);
                return 64;
            }
            let pairs = PairWords::of(word);
            if turns == FIRST_BEGINS {
                self.take_turns(pairs.first, pairs.second, 1);
                return 64;
            }
            if turns == SECOND_BEGINS {
                self.take_turns(pairs.second, pairs.first, 0);
                return 64;
            }
        }
        self.take_one(bit_at(bits, at), bit_at(lines, at));
        1
    }

    /// Takes 64 arrivals of the first line.
    #[inline(always)]
    fn take_first(&mut self, bits: u64)
        requires { (xs : List Arrival) × Parts xs self.old × (length xs + 64 ≤ 512) }
        ensures { (xs zs : List Arrival) → Parts xs self.old → length xs + 64 ≤ 512 →
            own First zs ≡ bits_of 64 bits → own Second zs ≡ [] → Parts (xs ++ zs) self.new }
    {
        self.first.append(bits & 0xffff_ffff, 32);
        self.first.append(bits >> 32, 32);
    }

    /// Takes 64 arrivals, of each line in turn: so many bits of the first came before the first bit of the second.
    #[inline(always)]
    fn take_turns(&mut self, first: u64, second: u64, ahead: u16)
        requires small { (first < 2 ^ 32) × (second < 2 ^ 32) }
        requires ahead { ahead ≤ 1 }
        requires parts { (xs : List Arrival) × Parts xs self.old × (length xs + 64 ≤ 512) }
        ensures { (xs zs : List Arrival) → Parts xs self.old → length xs + 64 ≤ 512 →
            own First zs ≡ bits_of 32 first → own Second zs ≡ bits_of 32 second →
            ((k : ℕ) → k < 32 → firsts_before k zs ≡ ahead + k) → Parts (xs ++ zs) self.new }
    {
        let from = self.second.count();
        let before = self.first.count() as u16 + ahead;
        for turn in 0..32usize {
            self.before[from + turn] = before + turn as u16;
        }
        self.first.append(first, 32);
        self.second.append(second, 32);
    }

    /// Takes one arrival.
    #[inline(always)]
    fn take_one(&mut self, bit: bool, is_second: bool)
        requires { (xs : List Arrival) × Parts xs self.old × (length xs < 512) }
        ensures { (xs : List Arrival) → Parts xs self.old → length xs < 512 →
            Parts (xs ++ arrival_of (bit, is_second) ∷ []) self.new }
    {
        if is_second {
            self.before[self.second.count()] = self.first.count() as u16;
            self.second.append(u64::from(bit), 1);
        } else {
            self.first.append(u64::from(bit), 1);
        }
    }

    /// How many bits of the first line came before the last of so many bits of the second line.
    pub(crate) fn ahead(&self, seconds: usize) -> usize
        requires within { seconds ≤ length self.now.second }
        requires parts { (xs : List Arrival) × Parts xs self.now }
        ensures { (xs : List Arrival) → Parts xs self.now → result ≡ length (own First (upto seconds xs)) }
    {
        if seconds == 0 {
            return 0;
        }
        self.before[seconds - 1] as usize
    }
}
