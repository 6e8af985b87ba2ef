//! Reads a capture to its end.

ghost use Rattle.std.specs.Prelude.{◌≡◌, ◌+◌, ◌<◌, ◌≤◌, ◌^◌, ℕ, List, [], ◌++◌, Option, Some, None, MatchResult, OnOk};
ghost use Rattle.std.specs.Prelude.{IfOk, length};
ghost use Rattle.std.specs.Io.KnownBytes.{Consumes};
ghost use Rattle.bus_formats.specs.Capture.{CaptureFault};
ghost use Rattle.bus_dictionary.specs.Entry.{FrameType};
ghost use Rattle.bus_calls.specs.Begins.{Begins, Refuses};
ghost use Rattle.bus_calls.specs.Internal.Asked.{IsMade, IsRuled};
ghost use Rattle.bus_calls.specs.Captures.{unplaced, unplaced_whole, IsSameFault};
ghost use Rattle.bus_calls.specs.Internal.Sessions.{IsReadBy, SourceAfter, SourceStopsWith, is_text};
ghost use Rattle.bus_calls.specs.Internal.Reading.{octets_taken, ReadStopsWith};
ghost use Rattle.bus_calls.specs.Internal.Watching.{IsSound, IsSame};

use crate::capture_kind::CaptureKind;
use crate::packed::PackedCapture;
use crate::reporter::Reporter;
use crate::run::CaptureRun;
use crate::text::TextCapture;
use bus_text::{Options, Printer, ToolFault, read_dictionary};
use bus_watch::NewFault;
use std::alloc::Global;
use std::io::{Read, Write};

/// How many octets are asked for at once.
const ROOM: usize = 65536;

/// What a capture is, as far as it was read.
#[derive(Drop)]
pub enum Source<B> {
    Text(TextCapture),
    Packed(PackedCapture<B>),
}

/// A capture that is read, and what is seen at its bits.
#[derive(Drop)]
pub struct CaptureReader<T: CaptureKind> {
    pub source: Source<T::Body>,
    pub run: CaptureRun<T>,
}

/// An analyser by the dictionary and the depth and the origin that are asked for.
fn new_analyser<T: CaptureKind>(alloc: Global, options: &Options<'_>) -> Result<T, ToolFault>
    ensures { MatchResult result
        (λ analyser. (d : List FrameType) × Begins options.now d
        × IsMade T.kind.watch d options.now.depth options.now.origin analyser
        × IsRuled T.kind options.now.rest analyser)
        (λ fault. Refuses options.now fault) }
{
    let dictionary = read_dictionary(alloc, options.dictionary)?;
    let analyser = T::new(
        alloc,
        dictionary,
        options.depth,
        options.origin,
        options.rest,
    );
    match analyser {
        Ok(analyser) => Ok(analyser),
        Err(NewFault::DepthRange) => Err(ToolFault::Depth),
        Err(NewFault::Origin) => Err(ToolFault::Origin),
        Err(NewFault::Memory) => Err(ToolFault::Memory),
    }
}

impl<T: CaptureKind> CaptureReader<T> {
    /// No octets of the capture that the options tell of.
    pub fn new(
        alloc: Global,
        options: &Options<'_>,
        printer: Option<Printer>,
    ) -> Result<Self, ToolFault>
        ensures made { MatchResult result
            (λ reader. (d : List FrameType) × Begins options.now d
            × IsMade T.kind.watch d options.now.depth options.now.origin reader.run.analyser
            × IsRuled T.kind options.now.rest reader.run.analyser)
            (λ fault. Refuses options.now fault) }
        ensures fresh { IfOk result
            (λ reader. (start : Option (List ℕ)) → SourceAfter T.kind start start reader.source reader.run []) }
        ensures given { IfOk result
            (λ reader. (is_text reader.source ≡ options.now.text) × (reader.run.reporter.printer ≡ printer)
            × (octets_taken reader.source ≡ 0)) }
        ensures sound { IfOk result (λ reader. IsSound T.kind reader.run) }
    {
        T::laws();
        let analyser = new_analyser(alloc, options)?;
        let source = if options.text {
            Source::Text(TextCapture { at: 0 })
        } else {
            Source::Packed(PackedCapture::new())
        };
        Ok(CaptureReader {
            source,
            run: CaptureRun {
                analyser,
                reporter: Reporter::new(printer),
            },
        })
    }

    /// What is wrong where the input ends here.
    fn finish(&self) -> Result<(), ToolFault>
        ensures { (xs : List ℕ) → IsReadBy T.kind self.now.source xs → MatchResult result
            (λ _. unplaced_whole T.kind.form (is_text self.now.source) xs
            ≡ record { bits = (unplaced T.kind.form (is_text self.now.source) xs).bits; fault = None })
            (λ fault. (cause : CaptureFault) × IsSameFault fault cause
            × (unplaced_whole T.kind.form (is_text self.now.source) xs
            ≡ record { bits = (unplaced T.kind.form (is_text self.now.source) xs).bits; fault = Some cause })) }
    {
        match &self.source {
            Source::Text(_) => Ok(()),
            Source::Packed(packed) => packed.finish::<T>(),
        }
    }

    /// Reads to the end or the first fault, by at most `reads` calls of the reader.
    pub fn read_to_end<R: Read, W: Write>(
        &mut self,
        reads: u64,
        r: &mut R,
        w: &mut W,
    ) -> Result<(), ToolFault>
        requires sound { IsSound T.kind self.old.run }
        requires fresh { (start : Option (List ℕ)) →
            SourceAfter T.kind start start self.old.source self.old.run [] }
        requires few { octets_taken self.old.source ≡ 0 }
        ensures read { (xs : List ℕ) × Consumes (R.remaining r.old) (R.remaining r.new) xs
            × ReadStopsWith T.kind (is_text self.old.source) reads (R.remaining r.new) (W.contents w.old)
            (W.contents w.new) self.new.run xs result }
        ensures same { IsSame T.kind self.old.run self.new.run }
        ensures sound { IsSound T.kind self.new.run }
    {
        T::laws();
        let mut buffer = [0; ROOM];
        for _turn in 0..reads {
            self.run.reporter.page.write_out(w)?;
            let count = match r.read(&mut buffer) {
                Ok(0) => return self.finish(),
                Ok(count) => count,
                Err(_) => return Err(ToolFault::Read),
            };
            let octets = &buffer[..count];
            match &mut self.source {
                Source::Text(text) => text.analyse(octets, &mut self.run, w)?,
                Source::Packed(packed) => packed.analyse(octets, &mut self.run, w)?,
            }
        }
        Err(ToolFault::ReadsLimit)
    }
}
