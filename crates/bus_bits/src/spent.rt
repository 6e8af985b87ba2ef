//! Counted steps.

ghost use Rattle.std.specs.Prelude.{◌≡◌, ◌+◌, ◌-◌, ◌<◌, ◌^◌};

/// How many steps of each kind were taken.
#[derive(Clone, Copy, Debug, PartialEq, Eq)]
pub struct Spent {
    /// Bits taken.
    pub shifted: u64,
    /// Bits assembled into pieces, without inserted 0s.
    pub assembled: u64,
    /// Units of work of the frame check.
    pub folded: u64,
    /// Octets put into the frame buffer.
    pub stored: u64,
    /// Octets copied into the history.
    pub copied: u64,
    /// Steps of the handling of reports.
    pub handled: u64,
}

impl Spent {
    /// No steps.
    pub fn zero() -> Self
        ensures { result ≡ record { shifted = 0; assembled = 0; folded = 0; stored = 0; copied = 0; handled = 0 } }
    {
        Spent {
            shifted: 0,
            assembled: 0,
            folded: 0,
            stored: 0,
            copied: 0,
            handled: 0,
        }
    }

    /// One unit of work of a frame check.
    pub fn tick_folded(&mut self)
        requires { self.old.folded < 2 ^ 64 - 1 }
        ensures { self.new ≡ record self.old { folded = self.old.folded + 1 } }
    {
        self.folded += 1;
    }

    /// One step of the handling of a report.
    pub fn tick_handled(&mut self)
        requires { self.old.handled < 2 ^ 64 - 1 }
        ensures { self.new ≡ record self.old { handled = self.old.handled + 1 } }
    {
        self.handled += 1;
    }

    /// All steps together.
    pub fn total(&self) -> u128
        ensures { result ≡ self.now.shifted + self.now.assembled + self.now.folded + self.now.stored
            + self.now.copied + self.now.handled }
    {
        u128::from(self.shifted)
            + u128::from(self.assembled)
            + u128::from(self.folded)
            + u128::from(self.stored)
            + u128::from(self.copied)
            + u128::from(self.handled)
    }
}
