//! What the newest bit ends, by the last bits.

ghost use Rattle.std.specs.Prelude.{◌≡◌, ◌<◌, List, Bool, [], ◌∷◌, ◌++◌, length, drop};
ghost use Rattle.bus_bits.specs.Octet.{number};
ghost use Rattle.bus_line.specs.Internal.EndedMark.{HasEnded};
ghost use Rattle.bus_line.specs.Run.{ones_at_end};
ghost use Rattle.bus_line.specs.Internal.Tracks.{padded};

/// What the newest bit ends.
#[derive(Clone, Copy)]
pub(crate) enum EndedMark {
    /// A flag: a 0 after six ones that follow a 0.
    FlagMark,
    /// The seventh one of a run: an abort mark.
    AbortMark,
    /// The fifteenth one of a run: an idle mark.
    IdleMark,
    Other,
}

/// What the newest bit ends, by the last sixteen bits, the oldest lowest. `count` bits came before it.
pub(crate) fn ended_mark(last_bits: u64, count: u64) -> EndedMark
    ensures closing { result ≡ EndedMark.FlagMark → 6 < count }
    ensures found { (b : List Bool) (bit : Bool) →
        last_bits ≡ number (drop (length (b ++ bit ∷ [])) (padded (b ++ bit ∷ []))) → count ≡ length b →
        HasEnded bit (ones_at_end b) count result }
{
    if last_bits >> 8 == 0x7e && count > 6 {
        return EndedMark::FlagMark;
    }
    if last_bits >> 8 == 0xfe {
        return EndedMark::AbortMark;
    }
    if last_bits == 0xfffe {
        return EndedMark::IdleMark;
    }
    EndedMark::Other
}
