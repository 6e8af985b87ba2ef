//! What the tests of the analysers share: what is seen as text, observers, and the worked dictionary of calls.
#![tactic(auto)]

mod observers;
mod standing;
mod text;

use bus_dictionary::{DictFault, Dictionary};
use bus_pairing::Counts;
use bus_rows::CALLS;
pub use observers::{Counting, Writing};
pub use standing::{push_counts, push_ending, push_pair_ending};
use std::alloc::Global;
pub use text::{push_seen, push_seen_on};

/// No verdict.
pub const NONE: Counts = Counts {
    answered: 0,
    missing: 0,
    spoilt: 0,
    late: 0,
};

/// The dictionary of calls, and none where memory is refused.
pub fn calls_if_memory(alloc: Global) -> Result<Option<Dictionary>, DictFault> {
    match Dictionary::read(alloc, CALLS) {
        Ok(dictionary) => Ok(Some(dictionary)),
        Err(DictFault::Memory) => Ok(None),
        Err(fault) => Err(fault),
    }
}
