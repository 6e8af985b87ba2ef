//! Who is shown the reports of a line, or of two.

ghost use Rattle.std.specs.Prelude.{ℕ, ◌+◌, ◌≤◌, List, [], ◌∷◌, ◌++◌, length};
ghost use Rattle.bus_line.specs.Limits.{most_octets};
ghost use Rattle.bus_dictionary.specs.Entry.{FrameType};
ghost use Rattle.bus_pairing.specs.Seen.{SeenReport};
ghost use Rattle.bus_pairing.specs.Shown.{found_on};

use bus_dictionary::Dictionary;
use bus_pairing::{Line, SeenEvent};

/// Observes what is seen on a line, or on two, one report after another, and refuses none. For each report it is lent
/// an `X`, what it writes to.
pub trait ReportObserver<X> {
    /// These reports, with this dictionary, lead the observer and what it writes to on.
    ghost observes: { List FrameType → Self → X → List SeenReport → Self → X → Type 0 };

    /// It can observe so many reports more.
    ghost has_room: { Self → ℕ → Type 0 };

    /// Observes a report. `line` is the one of two lines that it was found on, or `None` where there is one line, and
    /// `octets` are those of a frame.
    fn observe(
        &mut self,
        line: Option<Line>,
        seen_event: &SeenEvent,
        octets: &[u8],
        dictionary: &Dictionary,
        out: &mut X,
    )
        requires room { has_room self.old 1 }
        requires fits { length octets.now ≤ most_octets }
        ensures observed { observes dictionary.now self.old out.old
            (found_on line octets.now seen_event.now ∷ []) self.new out.new }
        ensures left { (more : ℕ) → has_room self.old (1 + more) → has_room self.new more };

    ghost observes_none: { (d : List FrameType) (l : Self) (x : X) → observes d l x [] l x };

    ghost observes_more: { (d : List FrameType) (k l m : Self) (x y z : X) (ss ts : List SeenReport) →
        observes d k x ss l y → observes d l y ts m z → observes d k x (ss ++ ts) m z };

    ghost has_less: { (l : Self) (more less : ℕ) → less ≤ more → has_room l more → has_room l less };
}
