//! Frames alone: a decoder over a buffer of bits.

ghost use Rattle.std.specs.Prelude.{◌≡◌, ◌≢◌, ◌<◌, ◌↔◌, ℕ, List, IsErr, IfOk, length};
ghost use Rattle.std.specs.Option.{option_map, option_to_list};
ghost use Rattle.bus_bits.specs.Limits.{most_places};
ghost use Rattle.bus_line.specs.Due.{placed};
ghost use Rattle.bus_line.specs.Shown.{reported};
ghost use Rattle.bus_examples.specs.Frames.{frame_count};
ghost use Rattle.bus_examples.specs.declared.frames.CountFault.TheVariants.{New, Places};

use bus_fcs::Check;
use bus_line::{Event, EventKind, LineDecoder, LineFault, PlaceLimit};

/// Why the frames of a buffer were not counted.
#[derive(Clone, Copy, Debug, PartialEq, Eq)]
pub enum CountFault {
    /// The decoder was not made. [`count_frames`] never gives it: its longest frame and its origin are in range.
    New(LineFault),
    /// There were too many bits.
    Places(PlaceLimit),
}

impl From<LineFault> for CountFault {
    ghost from_gives = { λ fault given. given ≡ New fault };

    fn from(fault: LineFault) -> Self {
        CountFault::New(fault)
    }
}

impl From<PlaceLimit> for CountFault {
    ghost from_gives = { λ fault given. given ≡ Places fault };

    fn from(fault: PlaceLimit) -> Self {
        CountFault::Places(fault)
    }
}

/// One for a frame, and none for anything else or for no report.
fn frames_in(event: Option<Event>) -> usize
    ensures { (octets : List ℕ) → result ≡ frame_count (option_to_list (option_map (reported octets) event)) }
{
    match event {
        Some(
            Event {
                kind: EventKind::Frame,
                ..
            },
        ) => 1,
        _ => 0,
    }
}

/// How many frames with a good check these bits have, none longer than 256 octets and the check.
///
/// # Errors
///
/// `Places`: there are more than 2^60 bits.
pub fn count_frames<C: Check>(bits: &[bool]) -> Result<usize, CountFault>
    ensures limit { IsErr result ↔ (most_places < length bits.now) }
    ensures made { (fault : LineFault) → result ≢ Err (New fault) }
    ensures count { IfOk result (λ count. count ≡ frame_count (placed 0 256 bits.now)) }
{
    let mut decoder = LineDecoder::<C>::new(256, 0)?;
    let mut count: usize = 0;
    for bit in bits {
        count += frames_in(decoder.advance(*bit)?);
    }
    Ok(count)
}
