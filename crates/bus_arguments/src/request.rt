//! What the program is to do.

use bus_text::Options;

/// What the program is to do.
#[derive(Clone, Copy, Debug)]
pub enum Request<'a> {
    /// List the capture that is read.
    List(Options<'a>),
    /// Check the capture that is read.
    Check(Options<'a>),
    /// Show the frame that `hex` has, by the dictionary of a text.
    Show {
        dictionary: Option<&'a str>,
        hex: &'a str,
    },
    /// Encode the lines that are read, with at most `reads` calls of the reader.
    Encode {
        reads: u64,
    },
}
