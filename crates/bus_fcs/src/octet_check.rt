//! The frame check by tables.

ghost use Rattle.std.specs.Prelude.{◌≡◌, ◌+◌, ◌-◌, ◌*◌, ◌%◌, ◌^◌, ◌≤◌, ℕ, List, [], ◌∷◌, ◌++◌, bit_xor};
ghost use Rattle.bus_fcs.specs.Folded.{by_tables};
ghost use Rattle.bus_fcs.specs.Internal.Register.{IsStateAfter, crc_steps};

use crate::check::Check;
use crate::register::{INITIAL, crc_eight, crc_four, crc_octet, is_residue, trailer_of};
use bus_bits::Spent;

/// Works by tables of 256 values: one unit of work an octet.
#[derive(Drop)]
pub struct OctetCheck {
    state: u16,
}

impl OctetCheck {
    /// The register after the octets so far.
    pub fn register(&self) -> u16
        ensures { result ≡ self.now.state }
    {
        self.state
    }

    /// The check whose register is this.
    pub fn with_register(register: u16) -> Self
        ensures { result ≡ record { state = register } }
    {
        OctetCheck { state: register }
    }
}

/// The register after one octet more.
#[inline(always)]
fn state_after(state: u16, octet: u8) -> u16
    ensures { (octets : List ℕ) → IsStateAfter state octets → IsStateAfter result (octets ++ octet ∷ []) }
{
    let place = (state ^ octet as u16) & 0xff;
    (state >> 8) ^ crc_octet(u64::from(place), 0)
}

impl Check for OctetCheck {
    ghost use Rattle.std.proofs.Common.{rules};

    ghost check = { by_tables };

    ghost COST = { 1 };

    const COST: u64 = 1;

    #[tactic(auto, using(crate::proofs::RegisterLemmas::state_none))]
    fn fresh() -> Self {
        OctetCheck { state: INITIAL }
    }

    fn fold(&mut self, octet: u8, spent: &mut Spent) {
        self.state = state_after(self.state, octet);
        spent.tick_folded();
    }

    #[inline(always)]
    fn fold_eight(&mut self, octets: &[u8; 8], spent: &mut Spent) {
        self.state = crc_eight(u64::from_le_bytes(*octets) ^ u64::from(self.state));
        spent.folded += 8;
    }

    #[inline(always)]
    fn fold_four(&mut self, octets: &[u8; 4], spent: &mut Spent) {
        self.state = crc_four(u32::from_le_bytes(*octets) ^ u32::from(self.state));
        spent.folded += 4;
    }

    fn is_good(&self) -> bool {
        is_residue(self.state)
    }

    fn trailer(&self) -> [u8; 2] {
        trailer_of(self.state)
    }

    ghost cost_is = { Prim.search rules };

    ghost cost_in_range = { Prim.search rules };
}
