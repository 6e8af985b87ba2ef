//! What follows from a report, in a caller's memory.

ghost use Rattle.std.specs.Prelude.{◌≡◌, ◌≢◌, ◌≤◌, ◌==◌, not, replicate};
ghost use Rattle.port1_c.specs.Pair.{IsCodedSeen, outcome_told, standing_told, standing_by, verdict_told};

use bus_dictionary::Standing;
use bus_pairing::{Outcome, SeenEvent};

/// How a frame stands to the table, or 0 for a piece that is no frame. The numbers are those of
/// `c/include/port1.h`, with PORT1_ before each name.
const OTHER_CONTROL: u32 = 1;

const UNTYPED: u32 = 2;

const UNKNOWN: u32 = 3;

const WRONG_LENGTH: u32 = 4;

const KNOWN: u32 = 5;

/// What became of a command, or 0 where nothing was decided.
const ANSWERED: u32 = 1;

const LATE: u32 = 2;

const MISSING: u32 = 3;

const SPOILT: u32 = 4;

/// What follows from a report. Its layout is that of `c/include/port1.h`.
#[repr(C)]
#[derive(Clone, Copy)]
pub struct Port1Seen {
    /// How a frame stands to the table.
    pub standing: u32,
    /// The verdict on the command that waited.
    pub verdict: u32,
    /// The place of the first bit of that command.
    pub first: u64,
    /// The place just past its last bit.
    pub past: u64,
    /// 1 for a frame of a type of 128 or more that answers no command, and else 0.
    pub stray: u32,
    /// The station that a frame names.
    pub station: u8,
    /// Its control octet, where the standing is OTHER_CONTROL.
    pub control: u8,
    /// Its type, where it has one.
    pub ftype: u8,
    /// The station that the command asked.
    pub command_station: u8,
    /// The frame type of the command.
    pub command_type: u8,
    /// 0.
    pub spare: [u8; 7],
}

/// How a frame stands: a number, its station, its control octet and its type.
#[derive(Clone, Copy)]
struct Stands {
    number: u32,
    station: u8,
    control: u8,
    ftype: u8,
}

impl Stands {
    /// How a piece stands, if it is a frame.
    fn of(standing: Option<Standing>) -> Self
        ensures number { result.number ≤ 5 }
        ensures value { standing_by result.number result.station result.control result.ftype ≡ standing }
    {
        let (number, station, control, ftype) = match standing {
            None => (0, 0, 0, 0),
            Some(Standing::OtherControl { station, control }) => {
                (OTHER_CONTROL, station, control, 0)
            }
            Some(Standing::Untyped { station }) => (UNTYPED, station, 0, 0),
            Some(Standing::Unknown { station, ftype }) => (UNKNOWN, station, 0, ftype),
            Some(Standing::WrongLength { station, ftype }) => (WRONG_LENGTH, station, 0, ftype),
            Some(Standing::Known { station, ftype }) => (KNOWN, station, 0, ftype),
        };
        Stands {
            number,
            station,
            control,
            ftype,
        }
    }
}

/// The number of an outcome.
fn outcome_number(outcome: Outcome) -> u32
    ensures some { result ≢ 0 }
    ensures number { result ≤ 4 }
    ensures value { outcome_told result ≡ outcome }
{
    match outcome {
        Outcome::Answered => ANSWERED,
        Outcome::Late => LATE,
        Outcome::Missing => MISSING,
        Outcome::Spoilt => SPOILT,
    }
}

impl Port1Seen {
    /// What follows from a report.
    pub(crate) fn of(seen_event: &SeenEvent) -> Self
        ensures coded { IsCodedSeen result }
        ensures standing { standing_told result ≡ seen_event.now.standing }
        ensures verdict { verdict_told result ≡ seen_event.now.verdict }
        ensures stray { not (result.stray == 0) ≡ seen_event.now.stray }
    {
        let stands = Stands::of(seen_event.standing);
        let stray = u32::from(seen_event.stray);
        match seen_event.verdict {
            None => Port1Seen::undecided(stands, stray),
            Some(verdict) => Port1Seen {
                verdict: outcome_number(verdict.outcome),
                first: verdict.span.first,
                past: verdict.span.past,
                command_station: verdict.station,
                command_type: verdict.ftype,
                ..Port1Seen::undecided(stands, stray)
            },
        }
    }

    /// What follows from a report that decides nothing.
    fn undecided(stands: Stands, stray: u32) -> Self
        ensures number { result.standing ≡ stands.number }
        ensures spare { result.spare ≡ replicate 7 0 }
        ensures standing { standing_told result ≡ standing_by stands.number stands.station stands.control stands.ftype }
        ensures verdict { result.verdict ≡ 0 }
        ensures stray { result.stray ≡ stray }
    {
        Port1Seen {
            standing: stands.number,
            verdict: 0,
            first: 0,
            past: 0,
            stray,
            station: stands.station,
            control: stands.control,
            ftype: stands.ftype,
            command_station: 0,
            command_type: 0,
            spare: [0; 7],
        }
    }
}
