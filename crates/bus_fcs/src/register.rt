//! The remainder as a register of sixteen bits, reflected: the lowest bit is the highest power.

ghost use Rattle.std.specs.Prelude.{◌≡◌, ◌+◌, ◌*◌, ◌^◌, ◌%◌, ◌<◌, ◌≤◌, ◌↔◌, ℕ, List, IsTrue, length};
ghost use Rattle.bus_bits.specs.Octet.{bits_of_octets};
ghost use Rattle.bus_fcs.specs.FrameCheck.{Good, fcs};
ghost use Rattle.bus_fcs.specs.Internal.Register.{crc_step_of, crc_steps, IsStateAfter};

use crate::table::TABLES;

/// The register before the first octet.
pub(crate) const INITIAL: u16 = 0xffff;

/// The divisor without its highest power, reflected.
const POLYNOMIAL: u16 = 0x8408;

/// The register after good octets.
const RESIDUE: u16 = 0xf0b8;

/// One step of the register, for one bit.
#[tactic(auto, unfolding(crate::specs::Internal::Register::crc_step_of))]
pub(crate) fn crc_step(state: u16) -> u16
    ensures { result ≡ crc_step_of state }
{
    if state % 2 == 1 {
        (state >> 1) ^ POLYNOMIAL
    } else {
        state >> 1
    }
}

/// What the steps for an octet, and for some octets that follow it, make of it.
#[inline(always)]
#[tactic(auto, using(crate::proofs::TableLemmas::table_at))]
pub(crate) fn crc_octet(octet: u64, following: usize) -> u16
    requires octet { octet < 256 }
    requires few { following ≤ 7 }
    ensures { result ≡ crc_steps (8 * following + 8) octet }
{
    TABLES[256 * following + octet as usize]
}

/// What 64 steps make of eight octets, the first the lowest, each looked up in the table of its place: no look-up
/// waits for another.
#[inline(always)]
pub(crate) fn crc_eight(octets: u64) -> u16
    ensures { result ≡ crc_steps 64 octets }
{
    crc_octet(octets & 255, 7)
        ^ crc_octet(octets >> 8 & 255, 6)
        ^ crc_octet(octets >> 16 & 255, 5)
        ^ crc_octet(octets >> 24 & 255, 4)
        ^ crc_octet(octets >> 32 & 255, 3)
        ^ crc_octet(octets >> 40 & 255, 2)
        ^ crc_octet(octets >> 48 & 255, 1)
        ^ crc_octet(octets >> 56, 0)
}

/// What 32 steps make of four octets.
#[inline(always)]
pub(crate) fn crc_four(octets: u32) -> u16
    ensures { result ≡ crc_steps 32 octets }
{
    crc_octet(u64::from(octets & 255), 3)
        ^ crc_octet(u64::from(octets >> 8 & 255), 2)
        ^ crc_octet(u64::from(octets >> 16 & 255), 1)
        ^ crc_octet(u64::from(octets >> 24), 0)
}

/// Whether the octets that left this state are good.
#[tactic(auto, using(crate::proofs::RegisterLemmas::state_good))]
pub(crate) fn is_residue(state: u16) -> bool
    ensures { (octets : List ℕ) → IsStateAfter state octets → 4 ≤ length octets →
        (IsTrue result ↔ Good (bits_of_octets octets)) }
{
    state == RESIDUE
}

/// The frame checking sequence of the octets that left this state, low octet first.
pub(crate) fn trailer_of(state: u16) -> [u8; 2]
    ensures { (octets : List ℕ) → IsStateAfter state octets → bits_of_octets result ≡ fcs (bits_of_octets octets) }
{
    (!state).to_le_bytes()
}
