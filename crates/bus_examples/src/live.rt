//! Bit by bit, as an interrupt or a loop hands them in.

ghost use Rattle.std.specs.Prelude.{◌≡◌, ◌≤◌, ◌↔◌, Bool, List, [], ◌∷◌, ◌++◌, IsErr, IfOk, OnOk, OnErr, length};
ghost use Rattle.std.specs.Prelude.{Option, option_and_then};
ghost use Rattle.std.specs.Option.{option_to_list};
ghost use Rattle.bus_bits.specs.Limits.{most_places};
ghost use Rattle.bus_line.specs.After.{After, Led};
ghost use Rattle.bus_line.specs.Due.{due_at};
ghost use Rattle.bus_line.specs.Shown.{report_option};
ghost use Rattle.bus_watch.specs.After.{IsAfter, AdvancesAnalyser, line_reports};
ghost use Rattle.bus_pairing.specs.Seen.{SeenReport, seen_at};
ghost use Rattle.bus_examples.specs.Live.{closes_for, unanswered_in};

use bus_fcs::Check;
use bus_line::{LineDecoder, Piece, PlaceLimit};
use bus_watch::{Analyser, Outcome, Verdict};

/// Whether this is a good frame of a station, which its first octet names.
fn is_frame_of(piece: Option<Piece<'_>>, station: u8) -> bool
    ensures { result ≡ closes_for station (report_option piece.entry) }
{
    match piece {
        Some(Piece::Frame { octets, .. }) => match octets {
            [first, ..] => *first == station,
            [] => false,
        },
        _ => false,
    }
}

/// Takes a bit, and tells whether it closes a good frame of a station.
///
/// Refuses as [`PlaceLimit`], with nothing changed, where the bit's place would be 2^60.
pub fn closes_frame_of<C: Check>(
    decoder: &mut LineDecoder<C>,
    station: u8,
    bit: bool,
) -> Result<bool, PlaceLimit>
    ensures limit { IsErr result ↔ (most_places ≤ decoder.old.place) }
    ensures closes { IfOk result (λ closes. (b : List Bool) → After C.check decoder.old b →
        closes ≡ closes_for station (due_at decoder.old.longest (b ++ bit ∷ []) (length b))) }
    ensures leads { OnOk result (Led C.check decoder.old (bit ∷ []) decoder.new) }
    ensures unchanged { OnErr result (decoder.new ≡ decoder.old) }
{
    Ok(is_frame_of(decoder.push(bit)?, station))
}

/// The station of a command that is shown to have no answer in time.
fn station_without_answer(verdict: Option<Verdict>) -> Option<u8>
    ensures { result ≡ unanswered_in verdict }
{
    match verdict {
        Some(verdict) if verdict.outcome != Outcome::Answered => Some(verdict.station),
        _ => None,
    }
}

/// Takes a bit, and returns the station whose command it shows to have no answer in time, if it does.
///
/// Refuses as [`PlaceLimit`], with nothing changed, where the bit's place would be 2^60.
pub fn unanswered<C: Check>(analyser: &mut Analyser<C>, bit: bool) -> Result<Option<u8>, PlaceLimit>
    ensures limit { IsErr result ↔ (most_places ≤ analyser.old.decoder.place) }
    ensures station { IfOk result (λ station. (b : List Bool) → IsAfter C.check analyser.old b →
        station ≡ option_and_then (λ s. unanswered_in s.verdict) (seen_at analyser.old.conversation.dictionary
        (line_reports analyser.old (b ++ bit ∷ [])) analyser.old.decoder.place)) }
    ensures sees { IfOk result (λ station. (seen : Option SeenReport)
        × (station ≡ option_and_then (λ s. unanswered_in s.verdict) seen)
        × AdvancesAnalyser C.check analyser.old (bit ∷ []) (option_to_list seen) analyser.new) }
    ensures unchanged { OnErr result (analyser.new ≡ analyser.old) }
{
    let Some(seen) = analyser.push(bit)? else {
        return Ok(None);
    };
    Ok(station_without_answer(seen.verdict))
}
