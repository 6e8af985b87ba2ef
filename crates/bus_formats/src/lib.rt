//! Readers of captures, octet by octet or several octets at once: the bits of one line or two.
#![tactic(auto)]

mod arrival_planes;
mod eight_bits;
pub mod laws;
mod packed_bits;
mod packed_head;
mod packed_pairs;
mod pair_block;
mod pair_words;
mod text_arrivals;
mod text_bits;
mod text_block;
mod text_marks;
mod text_pairs;

pub use eight_bits::{EightBits, EightPairs};
pub use packed_bits::{PackedBits, PackedFault};
pub use packed_head::{ArrivalHead, HeadFault, PackedHead, PairHead};
pub use packed_pairs::PackedPairs;
pub use pair_words::PairWords;
pub use text_arrivals::TextArrivals;
pub use text_bits::{BadMark, TextBits};
pub use text_block::TextBlock;
pub use text_pairs::{PartedText, TextPairs};
