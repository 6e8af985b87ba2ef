//! Samples a recording.

ghost use Rattle.std.specs.Prelude.{◌-◌, ◌<◌, ◌^◌, ℕ, List};
ghost use Rattle.std.specs.Io.KnownBytes.{Consumes};
ghost use Rattle.bus_sample.specs.Looks.{LooksBy};
ghost use Rattle.bus_sample.specs.Samples.{FailsBy, SamplesBy};

use crate::fault::SampleFault;
use crate::options::SampleOptions;
use crate::reader::SampleRun;
use crate::recording_reader::RecordingReader;
use bus_tap::TapFacts;
use std::io::Write;

/// Reads the samples of a recording to their end, and writes the bits that arrive in them as text, before each next
/// read. Returns what is counted in the samples; with `looks` it also tells that to `e` after each read.
///
/// The text has `0` or `1` for a bit of the first line, `o` or `i` for one of the second, in the order of arrival, of
/// two in one sample the first line's first. A line ends after each 64th, and at the end.
///
/// # Errors
///
/// In all but the first and the last the text of the samples so far was written, without its end.
///
/// - `Octets`: a sample is to have no octets, or more than eight. Nothing was read.
/// - `CutOff`: the input ended within a record.
/// - `TooMany`: a recording has at most 2^60 samples.
/// - `Read`: a read failed. `ReadsLimit`: the reader did not reach the end.
/// - `Facts`: a write to `e` failed or took nothing.
/// - `Write`: a write or the flush failed, or a write took nothing. It comes in place of any other.
pub fn sample_recording<R: RecordingReader, W: Write, E: Write>(
    options: &SampleOptions,
    r: &mut R,
    w: &mut W,
    e: &mut E,
) -> Result<TapFacts, SampleFault>
    requires { R.failures r.old < 2 ^ 64 - 1 }
    ensures samples { (xs : List ℕ) × Consumes (R.remaining r.old) (R.remaining r.new) xs
        × SamplesBy options.now (R.remaining r.new) (W.contents w.old) (W.contents w.new) xs result
        × LooksBy options.now (E.contents e.old) (E.contents e.new) xs result }
    ensures failures { FailsBy (R.failures r.old) (R.failures r.new) result }
{
    let mut run = SampleRun::new(options)?;
    match run.read_to_end(r, w, e) {
        Ok(()) => run.end(w),
        Err(fault) => Err(run.close_behind(fault, w)),
    }
}
