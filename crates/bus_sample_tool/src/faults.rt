//! Where faults are reported.

ghost use Rattle.std.specs.Prelude.{◌≡◌, Bool, false};
ghost use Rattle.bus_sample_tool.specs.Reports.{Reports};

use bus_text::put_text;
use std::io;
use std::io::Write;

/// Takes the texts of faults.
pub trait FaultWriter: Write {
    /// Whether a text was cut off.
    ghost has_failed: { Self → Bool };

    /// Writes a text, or its first octets where a write fails.
    fn put(&mut self, text: &[u8])
        ensures { Reports (Self.contents self.old) (Self.contents self.new) (has_failed self.new) text.now };
}

/// A writer of std, and whether a text of a fault was cut off there.
#[derive(Drop)]
pub struct FaultOutput<W: Write + Drop> {
    pub writer: W,
    pub has_failed: bool,
}

impl<W: Write + Drop> FaultOutput<W> {
    /// No text was cut off yet.
    pub fn new(writer: W) -> Self
        ensures { result ≡ record { writer = writer; has_failed = false } }
    {
        FaultOutput {
            writer,
            has_failed: false,
        }
    }
}

impl<W: Write + Drop> Write for FaultOutput<W> {
    ghost contents = { λ output. W.contents output.writer };

    fn write(&mut self, octets: &[u8]) -> io::Result<usize> {
        self.writer.write(octets)
    }

    fn flush(&mut self) -> io::Result<()> {
        self.writer.flush()
    }
}

impl<W: Write + Drop> FaultWriter for FaultOutput<W> {
    ghost has_failed = { λ output. output.has_failed };

    fn put(&mut self, text: &[u8]) {
        if put_text(&mut self.writer, text).is_err() {
            self.has_failed = true;
        }
    }
}
