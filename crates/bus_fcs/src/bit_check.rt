//! The frame check bit by bit.

ghost use Rattle.std.specs.Prelude.{◌-◌, ◌*◌, ◌^◌};
ghost use Rattle.bus_fcs.specs.Internal.Register.{IsStateAfter};

use crate::check::Check;
use crate::register::{INITIAL, crc_step, is_residue, trailer_of};
use bus_bits::Spent;

/// Works bit by bit: eight units of work an octet.
#[derive(Drop)]
pub struct BitCheck {
    state: u16,
}

impl Check for BitCheck {
    ghost use Rattle.std.proofs.Common.{rules};

    ghost check = { record { folded = λ check octets. IsStateAfter check.state octets; cost = 8 } };

    ghost COST = { 8 };

    const COST: u64 = 8;

    #[tactic(auto, using(crate::proofs::RegisterLemmas::state_none))]
    fn fresh() -> Self {
        BitCheck { state: INITIAL }
    }

    fn fold(&mut self, octet: u8, spent: &mut Spent) {
        self.state ^= octet as u16;
        for _turn in 0..8u64 {
            self.state = crc_step(self.state);
            spent.tick_folded();
        }
    }

    fn is_good(&self) -> bool {
        is_residue(self.state)
    }

    fn trailer(&self) -> [u8; 2] {
        trailer_of(self.state)
    }

    ghost cost_is = { Prim.search rules };

    ghost cost_in_range = { Prim.search rules };
}
