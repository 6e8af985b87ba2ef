//! Octets and bits, spans of places, and counted steps.
#![tactic(auto)]

pub mod laws;
mod octet;
mod span;
mod spent;
mod word;

pub use octet::{bits_number, bits_octet, octet_bits};
pub use span::Span;
pub use spent::Spent;
pub use word::{Word, bit_at, eight_at, seven_octets_at, word_at};
