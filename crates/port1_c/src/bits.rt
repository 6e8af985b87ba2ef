//! Bits into the decoder that a caller's memory holds, with a report told in plain numbers.

ghost use Rattle.std.specs.Prelude.{◌≡◌, ◌≢◌, ◌-◌, ◌*◌, ◌≤◌, ◌<◌, ◌⊎◌, length};
ghost use Rattle.bus_bits.specs.Bits.{bits_from};
ghost use Rattle.bus_bits.specs.Limits.{most_places};
ghost use Rattle.port1_c.specs.Line.{AdvancesLine, IsCoded, Sound, held};
ghost use Rattle.port1_c.specs.declared.status.TheConstants.{OK, PLACE_LIMIT, BAD_STATE};

use crate::line::Port1Line;
use crate::report::{NONE, Port1Report};
use crate::status::{BAD_STATE, OK, PLACE_LIMIT};

/// How many bits were taken, and what the last of them decided.
#[derive(Clone, Copy)]
pub(crate) struct Told {
    pub(crate) count: usize,
    pub(crate) report: Port1Report,
}

/// Takes bits of these octets, the lowest of each first, from bit `at` on and before bit `end`, up to the first that
/// decides a report. `at` is then the next bit to take, and the report what the last bit decided.
///
/// Returns OK, PLACE_LIMIT where the bits before place 2^60 were taken and decided nothing, or BAD_STATE where the
/// memory holds no decoder; nothing has changed then.
#[inline(never)]
pub(crate) fn feed(
    line: &mut Port1Line,
    octets: &[u8],
    at: &mut usize,
    end: usize,
    report: &mut Port1Report,
) -> u32
    requires some { at.old ≤ end }
    requires within { end ≤ 8 * length octets.now }
    ensures status { (result ≡ OK) ⊎ (result ≡ PLACE_LIMIT) ⊎ (result ≡ BAD_STATE) }
    ensures state { Sound line.old → result ≢ BAD_STATE }
    ensures refused { result < BAD_STATE → Sound line.old }
    ensures kept { result ≡ BAD_STATE → (line.new ≡ line.old) × (at.new ≡ at.old) × (report.new ≡ report.old) }
    ensures bound { (at.old ≤ at.new) × (at.new ≤ end) }
    ensures some { result < BAD_STATE → report.new.kind ≢ 0 → at.old < at.new }
    ensures all { result ≡ OK → report.new.kind ≡ 0 → at.new ≡ end }
    ensures limit { result ≡ PLACE_LIMIT → (report.new.kind ≡ 0) × (at.new < end)
        × (line.new.words.place ≡ most_places) }
    ensures coded { result < BAD_STATE → IsCoded report.new }
    ensures advances { result < BAD_STATE →
        AdvancesLine (held line.old) (bits_from octets.now at.old (at.new - at.old)) report.new (held line.new) }
    ensures sound { result < BAD_STATE → Sound line.new }
{
    if !line.is_sound() {
        return BAD_STATE;
    }
    if *at == end {
        *report = Port1Report::none();
        return OK;
    }
    let Ok(told) = line.scan(octets, *at, end) else {
        *report = Port1Report::none();
        return PLACE_LIMIT;
    };
    *at += told.count;
    *report = told.report;
    if told.report.kind == NONE && *at < end {
        return PLACE_LIMIT;
    }
    OK
}
