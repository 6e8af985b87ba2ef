//! Where the octets of a recording come from.

ghost use Rattle.std.specs.Prelude.{◌≡◌, ◌+◌, ◌-◌, ◌<◌, ◌^◌, ℕ, List, Option, OnErr, OnOk};
ghost use Rattle.std.specs.Io.{ReadsAtMost};
ghost use Rattle.std.specs.Io.KnownBytes.{ReadConsumes};

use std::io::Read;
use std::marker::Model;

/// A read failed.
#[derive(Clone, Copy, Debug, PartialEq, Eq)]
pub struct ReadFailed;

/// Gives the octets of a recording, and counts the reads that fail.
pub trait RecordingReader {
    /// The octets that it has left, unless it leaves them untold.
    ghost remaining: { Self → Option (List ℕ) };

    /// How many reads failed.
    ghost failures: { Self → ℕ };

    /// Reads octets, and returns how many: 0 at the end alone. It is called only while the count is below 2^64 - 1.
    fn read(&mut self, buffer: &mut [u8]) -> Result<usize, ReadFailed>
        requires { failures self.old < 2 ^ 64 - 1 }
        ensures bound { ReadsAtMost result buffer.new }
        ensures octets { ReadConsumes (remaining self.old) (remaining self.new) result buffer.new }
        ensures counted { OnErr result (failures self.new ≡ failures self.old + 1) }
        ensures same { OnOk result (failures self.new ≡ failures self.old) };
}

/// A reader of std, with a count of the reads that failed.
#[derive(Drop)]
pub struct CountedReader<R: Read + Drop> {
    reader: R,
    failures: u64,
}

impl<R: Read + Drop> Model for CountedReader<R> {
    ghost use Rattle.bus_sample.specs.Counted.{CountedState};

    ghost Value = { CountedState R };

    ghost view = { λ counted. record { reader = counted.reader; failures = counted.failures } };
}

impl<R: Read + Drop> CountedReader<R> {
    /// No read failed yet.
    pub fn new(reader: R) -> Self
        ensures { result ≡ record { reader = reader; failures = 0 } }
    {
        CountedReader {
            reader,
            failures: 0,
        }
    }
}

impl<R: Read + Drop> RecordingReader for CountedReader<R> {
    ghost remaining = { λ counted. R.remaining counted.reader };

    ghost failures = { λ counted. counted.failures };

    fn read(&mut self, buffer: &mut [u8]) -> Result<usize, ReadFailed> {
        match self.reader.read(buffer) {
            Ok(count) => Ok(count),
            Err(_) => {
                self.failures += 1;
                Err(ReadFailed)
            }
        }
    }
}
