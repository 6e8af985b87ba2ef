//! A frame of the history of two lines.

ghost use Rattle.std.specs.Prelude.{◌≡◌};

use crate::kept::Kept;
use bus_line::Line;

/// A frame that is kept, with its line.
#[derive(Debug, Drop)]
pub struct PairKept {
    /// The line that it came on.
    pub line: Line,
    /// The frame.
    pub kept: Kept,
}

impl PairKept {
    /// The frame without its line.
    #[inline(always)]
    pub fn frame(&self) -> &Kept
        ensures { result.now ≡ self.now.kept }
    {
        &self.kept
    }
}
