//! Encodes lines.

ghost use Rattle.std.specs.Prelude.{ℕ, List, IfSome};
ghost use Rattle.std.specs.Io.KnownBytes.{Consumes};
ghost use Rattle.bus_calls.specs.Encodes.{Encodes, EncodesAll};

mod bits;
mod line;
mod reader;
mod request;

use crate::encode::reader::LineReader;
use bus_text::ToolFault;
use std::io::{Read, Write};

/// Writes the bits that lines ask an encoder for.
///
/// A line ends with LF or the end of the input, and a CR right before that is not part of it. It is
/// `flag`, `idle`, or `frame`, a space, and the octets of a frame from its address through its
/// information, two hexadecimal digits of either case each; an empty line asks for nothing. For
/// each line that asks for something the bits that the line gains by it are written as `0` and `1`,
/// and LF. The input is read by at most `reads` calls of the reader, to its end or its first
/// fault, and then, if anything was written, the writer is flushed once.
///
/// # Errors
///
/// - `BadLine`: a line has another form, or more than 600 octets. `FrameLength`: its frame does not
///   have 2 to 256 octets. It is the first such line, and what the lines before it ask for was
///   written. A line's form is judged at its end, and its length as soon as it is too long, however
///   it goes on.
/// - `Read`: the reader returned an error. `ReadsLimit`: it did not reach the end. In both no line
///   was refused so far, and what the lines that LF ended ask for was written.
/// - `Write`: a write or the flush failed, or a write took nothing. It comes in place of any other.
pub fn encode_frames<R: Read, W: Write>(reads: u64, r: &mut R, w: &mut W) -> Result<(), ToolFault>
    ensures encoded { (xs : List ℕ) × Consumes (R.remaining r.old) (R.remaining r.new) xs
        × Encodes reads (R.remaining r.new) (W.contents w.old) (W.contents w.new) xs result }
    ensures known { IfSome (R.remaining r.old) (λ all. EncodesAll (W.contents w.old) (W.contents w.new) all result) }
{
    let mut reader = LineReader::new();
    let ending = reader.read_to_end(reads, r, w);
    reader.flush(ending, w)
}
