//! What the tests of several crates share: dictionaries' texts, worked lists as words, the bits of words, numbers that
//! look random, and readers and writers that fail. It is proved beside what is tested, and has nothing of it.
#![tactic(auto)]

mod dictionaries;
pub mod fakes;
mod numbers;
mod round;
mod table;
mod words;

pub use dictionaries::{CALLS, POLLS, WITHIN};
pub use numbers::{next_number, number_after};
pub use round::{DAMAGED, ROUND_BITS, ROUND_OCTETS, ROUNDS, round_octets, round_of, round_pairs};
pub use table::{DAMAGE, FRAMES, PairRow, Row, pair_row_of, row_of};
pub use words::{FAR, bits_of, bits_of_pattern, octets_of, pairs_of, push_part};
