//! Which lines are written.

ghost use Rattle.std.specs.Prelude.{◌≡◌, ℕ, true, Option, IsTrue};
ghost use Rattle.bus_text.specs.Listing.{agrees, passes};
ghost use Rattle.bus_text.specs.Given.{filter_of};
ghost use Rattle.bus_text.specs.declared.kind.Kind.{Kind};

use crate::kind::Kind;
use crate::options::Options;

/// Which lines are written: those that agree with each part that is given. A line without a station
/// or a type does not agree where one is given.
#[derive(Clone, Copy)]
pub struct Filter {
    station: Option<u8>,
    ftype: Option<u8>,
    kind: Option<Kind>,
}

impl Filter {
    /// What the options ask for.
    pub fn of(options: &Options<'_>) -> Self
        ensures { result ≡ filter_of options.now }
    {
        Filter {
            station: options.station,
            ftype: options.ftype,
            kind: options.kind,
        }
    }

    /// Whether nothing is asked for, so that every line is written.
    #[inline(always)]
    pub(crate) fn is_open(&self) -> bool
        ensures { IsTrue result → (kind : Kind) (station ftype : Option ℕ) →
            passes self.now kind station ftype ≡ true }
    {
        self.station.is_none() && self.ftype.is_none() && self.kind.is_none()
    }

    /// Whether a line of this kind, station and type is written.
    #[inline(always)]
    pub fn passes(&self, kind: Kind, station: Option<u8>, ftype: Option<u8>) -> bool
        ensures { result ≡ passes self.now kind station ftype }
    {
        agrees(self.station, station)
            && agrees(self.ftype, ftype)
            && self.kind.is_none_or(|wanted| wanted == kind)
    }
}

/// Whether a line has what is wanted, if anything is.
#[inline(always)]
fn agrees(wanted: Option<u8>, has: Option<u8>) -> bool
    ensures { result ≡ agrees wanted has }
{
    match (wanted, has) {
        (None, _) => true,
        (Some(wanted), Some(has)) => wanted == has,
        (Some(_), None) => false,
    }
}
