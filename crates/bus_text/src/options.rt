//! The input format and the output filters.

use crate::kind::Kind;

/// Of which lines a capture has the bits.
#[derive(Clone, Copy, Debug, PartialEq, Eq)]
pub enum Lines {
    /// One line.
    One,
    /// Two lines with one clock: a pair of bits at each place.
    Two,
    /// Two lines with a clock each, in the order of arrival.
    Arrivals,
}

/// The input format, the analyser's limits and the output filters.
#[derive(Clone, Copy, Debug)]
pub struct Options<'a> {
    /// The text of the dictionary, as TOML.
    pub dictionary: Option<&'a str>,
    /// Whether the capture is text; otherwise it is packed.
    pub text: bool,
    /// Of which lines it has the bits.
    pub lines: Lines,
    /// After how many bits of the first line without one of the second this comes to rest; 0 for never. Only
    /// arrivals heed it.
    pub rest: u64,
    /// The place of the first bit, at most 2^60.
    pub origin: u64,
    /// How many frames the history keeps, 1 to 1024.
    pub depth: usize,
    /// Lines of this station alone.
    pub station: Option<u8>,
    /// Lines of this frame type alone.
    pub ftype: Option<u8>,
    /// Lines of this kind alone.
    pub kind: Option<Kind>,
    /// How often the reader is called at most.
    pub reads: u64,
}
