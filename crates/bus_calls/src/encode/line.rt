//! The line that has not ended yet.

ghost use Rattle.std.specs.Prelude.{◌≡◌, ◌+◌, ◌-◌, ◌^◌, ◌<◌, ◌≤◌, [], ◌∷◌, ◌++◌, length, MatchResult};
ghost use Rattle.std.specs.Io.BufRead.{strip_last};

use arrayvec::ArrayVec;
use bus_text::ToolFault;

/// The most octets of a line without its end.
const LONGEST: usize = 600;

/// Room for them and a CR.
const ROOM: usize = 601;

/// The octets of a line, and its number.
#[derive(Drop)]
pub struct OpenLine {
    octets: ArrayVec<u8, ROOM>,
    /// Lines count from 1.
    number: u128,
    ghost fits: { length (strip_last 13 octets.items) ≤ 600 },
}

impl OpenLine {
    /// The first line, with no octets.
    pub fn first() -> Self
        ensures { (result.octets.items ≡ []) × (result.number ≡ 1) }
    {
        OpenLine {
            octets: ArrayVec::new(),
            number: 1,
        }
    }

    /// Takes an octet. It is refused where the line is then too long, however it goes on.
    pub fn push(&mut self, octet: u8) -> Result<(), ToolFault>
        ensures taken { MatchResult result
            (λ _. (self.new.octets.items ≡ self.old.octets.items ++ octet ∷ []) × (self.new.number ≡ self.old.number))
            (λ fault. (fault ≡ ToolFault.BadLine self.old.number)
            × (600 < length (strip_last 13 (self.old.octets.items ++ octet ∷ [])))) }
        ensures number { self.new.number ≡ self.old.number }
    {
        let count = self.octets.len();
        if LONGEST < count || (count == LONGEST && octet != b'\r') {
            return Err(ToolFault::BadLine(self.number));
        }
        self.octets.push(octet);
        Ok(())
    }

    /// The line without a CR at its end.
    pub fn text(&self) -> &[u8]
        ensures value { result.now ≡ strip_last 13 self.now.octets.items }
        ensures fits { length result.now ≤ 600 }
    {
        let octets = self.octets.as_slice();
        let count = octets.len();
        if 0 < count && octets[count - 1] == b'\r' {
            &octets[..count - 1]
        } else {
            octets
        }
    }

    /// The line's number.
    pub fn number(&self) -> u128
        ensures { result ≡ self.now.number }
    {
        self.number
    }

    /// Goes on to the next line.
    pub fn next(&mut self)
        requires { self.old.number < 2 ^ 100 }
        ensures { (self.new.octets.items ≡ []) × (self.new.number ≡ self.old.number + 1) }
    {
        self.octets.clear();
        self.number += 1;
    }
}
