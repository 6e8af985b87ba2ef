//! What C calls.

ghost use Rattle.std.specs.Prelude.{◌≡◌, ◌≢◌, ◌+◌, ◌-◌, ◌*◌, ◌≤◌, ◌<◌, ◌↔◌, ◌⊎◌, List, Bool, ◌∷◌, []};
ghost use Rattle.std.specs.Prelude.{IsTrue, length, replicate};
ghost use Rattle.std.specs.Option.{option_map};
ghost use Rattle.bus_bits.specs.Limits.{most_places};
ghost use Rattle.bus_line.specs.Due.{begun};
ghost use Rattle.bus_bits.specs.Bits.{bits_from};
ghost use Rattle.port1_c.specs.Bits.{high_first};
ghost use Rattle.port1_c.specs.Line.{AdvancesLine, IsCoded, Sound, LineAfter, DecidesLine, bit_told, first_told, held};
ghost use Rattle.port1_c.specs.declared.status.TheConstants.{OK, BAD_LENGTH, PLACE_LIMIT, BAD_STATE, BAD_ARGUMENT};

use crate::bits;
use crate::lent_frame::LentFrame;
use crate::line::Port1Line;
use crate::report::Port1Report;
use crate::status::{BAD_ARGUMENT, BAD_LENGTH, BAD_STATE, OK, PLACE_LIMIT};
use bus_line::{DecoderWords, LineFault};

/// Makes a decoder in the caller's memory, whatever stands there.
///
/// Returns OK, BAD_LENGTH where `longest` is not 3 to 256, or PLACE_LIMIT where `origin` is past 2^60; where
/// it is not OK, nothing has changed.
#[unsafe(no_mangle)]
pub extern "C" fn port1_line_init(line: &mut Port1Line, longest: u64, origin: u64) -> u32
    ensures longest { (result ≡ BAD_LENGTH) ↔ ((longest < 3) ⊎ (256 < longest)) }
    ensures origin { (result ≡ PLACE_LIMIT) ↔ ((3 ≤ longest) × (longest ≤ 256) × (most_places < origin)) }
    ensures status { result ≤ PLACE_LIMIT }
    ensures sound { result ≡ OK → Sound line.new }
    ensures stands { result ≡ OK → LineAfter line.new [] }
    ensures given { result ≡ OK → (line.new.words.longest ≡ longest) × (line.new.words.origin ≡ origin)
        × (line.new.words.place ≡ origin) }
    ensures cleared { result ≡ OK → line.new.frame.octets ≡ replicate 272 0 }
    ensures kept { result ≢ OK → line.new ≡ line.old }
{
    match DecoderWords::new(longest as usize, origin) {
        Ok(words) => {
            line.words = words;
            line.frame = LentFrame::new();
            OK
        }
        Err(LineFault::LongestRange) => BAD_LENGTH,
        Err(LineFault::Origin) => PLACE_LIMIT,
    }
}

/// Takes a bit: 0, or any other number for a 1. The report is what it decided.
///
/// Returns OK, PLACE_LIMIT where its place would be 2^60, or BAD_STATE where the memory holds no decoder;
/// where it is not OK, nothing has changed.
#[unsafe(no_mangle)]
pub extern "C" fn port1_line_push(line: &mut Port1Line, bit: u8, report: &mut Port1Report) -> u32
    ensures status { (result ≡ OK) ⊎ (result ≡ PLACE_LIMIT) ⊎ (result ≡ BAD_STATE) }
    ensures limit { Sound line.old → (result ≡ PLACE_LIMIT ↔ most_places ≤ line.old.words.place) }
    ensures state { Sound line.old → result ≢ BAD_STATE }
    ensures refused { result ≢ BAD_STATE → Sound line.old }
    ensures kept { result ≢ OK → (line.new ≡ line.old) × (report.new ≡ report.old) }
    ensures sound { result ≡ OK → Sound line.new }
    ensures coded { result ≡ OK → IsCoded report.new }
    ensures decides { result ≡ OK → DecidesLine (held line.old) (bit_told bit ∷ []) report.new (held line.new) }
{
    if !line.is_sound() {
        return BAD_STATE;
    }
    let Ok(event) = line.decode(bit != 0) else {
        return PLACE_LIMIT;
    };
    *report = Port1Report::of(event);
    OK
}

/// Whether there are such bits of these octets.
fn are_within(octets: &[u8], at: usize, end: usize) -> bool
    ensures { IsTrue result ↔ (end ≤ 8 * length octets.now) × (at ≤ end) }
{
    if at < end {
        return (end - 1) / 8 < octets.len();
    }
    at == end && end.div_ceil(8) <= octets.len()
}

/// Takes bits of octets, the lowest of each first, from bit `at` on, up to the first that decides a
/// report. `at` is then the next bit to take, and the report what the last bit decided.
///
/// Returns OK, or PLACE_LIMIT where the bits before place 2^60 were taken and decided nothing. Returns
/// BAD_ARGUMENT where `at` is past `end` or `end` past the octets, and BAD_STATE where the memory holds no
/// decoder; nothing has changed then.
#[unsafe(no_mangle)]
pub extern "C" fn port1_line_feed(
    line: &mut Port1Line,
    octets: &[u8],
    at: &mut usize,
    end: usize,
    report: &mut Port1Report,
) -> u32
    ensures argument { (result ≡ BAD_ARGUMENT) ↔ ((8 * length octets.now < end) ⊎ (end < at.old)) }
    ensures status { (result ≡ OK) ⊎ (result ≡ PLACE_LIMIT) ⊎ (result ≡ BAD_STATE) ⊎ (result ≡ BAD_ARGUMENT) }
    ensures state { Sound line.old → result ≢ BAD_STATE }
    ensures refused { result < BAD_STATE → Sound line.old }
    ensures kept { BAD_STATE ≤ result → (line.new ≡ line.old) × (at.new ≡ at.old) × (report.new ≡ report.old) }
    ensures sound { result < BAD_STATE → Sound line.new }
    ensures coded { result < BAD_STATE → IsCoded report.new }
    ensures bound { result < BAD_STATE → (at.old ≤ at.new) × (at.new ≤ end) }
    ensures some { result < BAD_STATE → report.new.kind ≢ 0 → at.old < at.new }
    ensures all { result ≡ OK → report.new.kind ≡ 0 → at.new ≡ end }
    ensures limit { result ≡ PLACE_LIMIT → (report.new.kind ≡ 0) × (at.new < end)
        × (line.new.words.place ≡ most_places) }
    ensures advances { result < BAD_STATE →
        AdvancesLine (held line.old) (bits_from octets.now at.old (at.new - at.old)) report.new (held line.new) }
{
    if !are_within(octets, *at, end) {
        return BAD_ARGUMENT;
    }
    bits::feed(line, octets, at, end, report)
}

/// Takes bits of one octet, the highest first, from bit `at` on, bit 0 being the highest, up to the first that decides
/// a report. `at` is then the next bit to take, and the report what the last bit decided.
///
/// Returns what [`port1_line_feed`] returns; BAD_ARGUMENT where `at` is past 8.
#[unsafe(no_mangle)]
pub extern "C" fn port1_line_feed_high_first(
    line: &mut Port1Line,
    octet: u8,
    at: &mut usize,
    report: &mut Port1Report,
) -> u32
    ensures argument { (result ≡ BAD_ARGUMENT) ↔ (8 < at.old) }
    ensures status { (result ≡ OK) ⊎ (result ≡ PLACE_LIMIT) ⊎ (result ≡ BAD_STATE) ⊎ (result ≡ BAD_ARGUMENT) }
    ensures state { Sound line.old → result ≢ BAD_STATE }
    ensures refused { result < BAD_STATE → Sound line.old }
    ensures kept { BAD_STATE ≤ result → (line.new ≡ line.old) × (at.new ≡ at.old) × (report.new ≡ report.old) }
    ensures sound { result < BAD_STATE → Sound line.new }
    ensures coded { result < BAD_STATE → IsCoded report.new }
    ensures bound { result < BAD_STATE → (at.old ≤ at.new) × (at.new ≤ 8) }
    ensures some { result < BAD_STATE → report.new.kind ≢ 0 → at.old < at.new }
    ensures all { result ≡ OK → report.new.kind ≡ 0 → at.new ≡ 8 }
    ensures limit { result ≡ PLACE_LIMIT → (report.new.kind ≡ 0) × (at.new < 8) × (line.new.words.place ≡ most_places) }
    ensures advances { result < BAD_STATE →
        AdvancesLine (held line.old) (high_first octet at.old (at.new - at.old)) report.new (held line.new) }
{
    if *at > 8 {
        return BAD_ARGUMENT;
    }
    bits::feed(line, &[octet.reverse_bits()], at, 8, report)
}

/// Says whether a piece has begun that no flag and no abort has ended yet, and where: `has_begun` is then 1,
/// and else 0, with `first` as it was.
///
/// Returns OK, or BAD_STATE where the memory holds no decoder; nothing has changed then.
#[unsafe(no_mangle)]
pub extern "C" fn port1_line_open(line: &Port1Line, has_begun: &mut u8, first: &mut u64) -> u32
    ensures status { (result ≡ OK) ⊎ (result ≡ BAD_STATE) }
    ensures state { Sound line.now → result ≢ BAD_STATE }
    ensures refused { result ≢ BAD_STATE → Sound line.now }
    ensures kept { result ≢ OK → (has_begun.new ≡ has_begun.old) × (first.new ≡ first.old) }
    ensures flag { result ≡ OK → has_begun.new ≤ 1 }
    ensures untouched { result ≡ OK → has_begun.new ≡ 0 → first.new ≡ first.old }
    ensures begun { result ≡ OK → (b : List Bool) → LineAfter line.now b →
        first_told has_begun.new first.new ≡ option_map (λ first. line.now.words.origin + first) (begun b) }
{
    if !line.is_sound() {
        return BAD_STATE;
    }
    match line.begun() {
        Some(place) => {
            *has_begun = 1;
            *first = place;
        }
        None => *has_begun = 0,
    }
    OK
}
