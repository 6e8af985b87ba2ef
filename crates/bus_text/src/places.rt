//! Places in decimal, one after the other.

ghost use Rattle.std.specs.Prelude.{◌≡◌, ◌+◌, ◌*◌, ◌/◌, ◌^◌, ◌++◌, ◌<◌, ◌≤◌, ℕ, length, codes, decimal};
ghost use Rattle.arrayvec.specs.ArrayVec.{array_vec_len};
ghost use Rattle.bus_text.specs.Advances.{AdvancesText};

use crate::number::push_number;
use crate::text::push_octets;
use arrayvec::ArrayVec;
use std::marker::Model;

/// The two digits of each number below 100.
static PAIRS: [[u8; 2]; 100] = [
    *b"00", *b"01", *b"02", *b"03", *b"04", *b"05", *b"06", *b"07", *b"08", *b"09", *b"10", *b"11",
    *b"12", *b"13", *b"14", *b"15", *b"16", *b"17", *b"18", *b"19", *b"20", *b"21", *b"22", *b"23",
    *b"24", *b"25", *b"26", *b"27", *b"28", *b"29", *b"30", *b"31", *b"32", *b"33", *b"34", *b"35",
    *b"36", *b"37", *b"38", *b"39", *b"40", *b"41", *b"42", *b"43", *b"44", *b"45", *b"46", *b"47",
    *b"48", *b"49", *b"50", *b"51", *b"52", *b"53", *b"54", *b"55", *b"56", *b"57", *b"58", *b"59",
    *b"60", *b"61", *b"62", *b"63", *b"64", *b"65", *b"66", *b"67", *b"68", *b"69", *b"70", *b"71",
    *b"72", *b"73", *b"74", *b"75", *b"76", *b"77", *b"78", *b"79", *b"80", *b"81", *b"82", *b"83",
    *b"84", *b"85", *b"86", *b"87", *b"88", *b"89", *b"90", *b"91", *b"92", *b"93", *b"94", *b"95",
    *b"96", *b"97", *b"98", *b"99",
];

/// What places are written by: from one place to the next all digits but the last four seldom change, so they are kept.
#[derive(Drop)]
pub struct Places {
    /// The first of the ten thousand places that only their last four digits tell apart.
    base: u64,
    /// One of them, and a space.
    text: ArrayVec<u8, 21>,
}

impl Model for Places {
    ghost use Rattle.std.specs.Prelude.{◌≡◌, ◌*◌, ◌/◌, ◌^◌, ◌++◌, ◌<◌, ◌≤◌, ℕ, codes, decimal};

    ghost Value = { ℕ };

    ghost view = { λ places. places.base };

    ghost invariant = { λ places. (place : ℕ) × (10000 ≤ place) × (place < 2 ^ 64)
        × (places.base ≡ 10000 * (place / 10000)) × (places.text.items ≡ decimal place ++ codes " ") };
}

impl Places {
    /// What no place was written by.
    pub fn new() -> Self {
        let mut text = ArrayVec::new();
        push_octets(&mut text, b"10000 ");
        Places { base: 10000, text }
    }

    /// Appends a place and a space.
    #[inline(always)]
    pub fn push<const N: usize>(&mut self, text: &mut ArrayVec<u8, N>, place: u64)
        requires { array_vec_len text.old + 21 ≤ N }
        ensures { AdvancesText text.old (decimal place ++ codes " ") 21 text.new }
    {
        if place < 10000 {
            push_number(text, place);
            text.push(b' ');
            return;
        }
        self.turn_to(place);
        set_last_four(self.text.as_mut_slice(), place - self.base);
        push_octets(text, self.text.as_slice());
    }

    /// Keeps another place, where more than the last four digits differ.
    #[inline(always)]
    fn turn_to(&mut self, place: u64)
        requires { 10000 ≤ place }
        ensures { self.new ≡ 10000 * (place / 10000) }
    {
        if place.wrapping_sub(self.base) >= 10000 {
            self.renew(place);
        }
    }

    /// Works out the digits of another place.
    #[inline(never)]
    fn renew(&mut self, place: u64)
        requires { 10000 ≤ place }
        ensures { self.new ≡ 10000 * (place / 10000) }
    {
        self.base = place - place % 10000;
        self.text.clear();
        push_number(&mut self.text, place);
        self.text.push(b' ');
    }
}

/// Writes the last four digits of a place, after which there is a space.
#[inline(always)]
fn set_last_four(text: &mut [u8], n: u64)
    requires last { n < 10000 }
    requires long { 5 ≤ length text.old }
    ensures { (place : ℕ) → 10000 ≤ place → place < 2 ^ 64 →
        10000 * (place / 10000) + n < 2 ^ 64 → text.old ≡ decimal place ++ codes " " →
        text.new ≡ decimal (10000 * (place / 10000) + n) ++ codes " " }
{
    let end = text.len() - 1;
    text[end - 4..end].copy_from_slice(&last_four(n));
}

/// The last four digits of a number.
#[inline(always)]
fn last_four(n: u64) -> [u8; 4]
    requires { n < 10000 }
    ensures { (front : ℕ) → 0 < front → 10000 * front + n < 2 ^ 64 →
        decimal front ++ result ≡ decimal (10000 * front + n) }
{
    let [thousands, hundreds] = PAIRS[(n / 100) as usize];
    let [tens, ones] = PAIRS[(n % 100) as usize];
    [thousands, hundreds, tens, ones]
}
