//! Framing of a synchronous HDLC line (ISO/IEC 13239): flags, frames, damaged pieces, aborts
//! and idles, each with its bit places.
//!
//! A decoder takes a bit by `push`, or by `advance`, which lends nothing, and the bits of octets by `scan`. This counts
//! the good frames in a slice of bits:
//!
//! ```rust
//! let mut decoder = LineDecoder::<C>::new(256, 0)?;
//! let mut count: usize = 0;
//! for bit in bits {
//!     count += frames_in(decoder.advance(*bit)?);
//! }
//! Ok(count)
//! ```
//!
//! Here `256` is the longest frame in octets, address through information, and `0` the place of the
//! first bit. An encoder is the way back:
//!
//! ```rust
//! let mut encoder = LineEncoder::new();
//! encoder.frame(octets, &mut sink)?;
//! Ok(sink)
//! ```
//!
//! The crate `bus_examples` has both whole.
#![tactic(auto)]

mod bit_sink;
mod cause;
mod consumed;
mod decoder;
mod decoder_words;
mod encoder;
mod event;
mod fault;
mod flag;
mod frame_buffer;
mod kept_octets;
pub mod laws;
mod line;
mod owned_piece;
mod piece;
mod place_limit;
mod sink_refused;
mod whole;

pub use bit_sink::BitSink;
pub use bus_bits::Span;
pub use cause::Cause;
pub use consumed::Consumed;
pub use decoder::LineDecoder;
pub use decoder_words::DecoderWords;
pub use encoder::LineEncoder;
pub use event::{Event, EventKind};
pub use fault::{EncodeFault, LineFault};
pub use frame_buffer::FrameBuffer;
pub use kept_octets::{CopyCount, KeptOctets};
pub use line::Line;
pub use owned_piece::OwnedPiece;
pub use piece::Piece;
pub use place_limit::PlaceLimit;
pub use sink_refused::SinkRefused;
pub use whole::reports_whole;
