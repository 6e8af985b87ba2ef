//! Reads a recording.

ghost use Rattle.std.specs.Prelude.{◌≡◌, ◌+◌, ◌-◌, ◌<◌, ◌≤◌, ◌^◌, ◌⊎◌, ◌++◌, ◌∷◌, [], ℕ, List, Option, MatchResult};
ghost use Rattle.std.specs.Prelude.{OnOk, IfOk, IfErr};
ghost use Rattle.std.specs.Prelude.{length, replicate, take, slice_index, IsTrue, ◌↔◌, Ok, Err};
ghost use Rattle.std.specs.Io.KnownBytes.{Consumes};
ghost use Rattle.bus_tap.specs.Blocks.{TakesBlocks};
ghost use Rattle.bus_tap.specs.Tapped.{IsTapAfter, channels};
ghost use Rattle.bus_sample.specs.Facts.{facts_text};
ghost use Rattle.bus_sample.specs.Looks.{HasTold, LooksBy, IsToldInPart, most_read};
ghost use Rattle.bus_sample.specs.Recording.{levels, recorded, run_of, size_of};
ghost use Rattle.bus_sample.specs.Samples.{FailsBy, HasSize, SamplesBy};
ghost use Rattle.bus_sample.specs.Internal.Runs.{RunAfter, HasRead, StopsWith, RecordingStopsWith};
ghost use Rattle.bus_sample.specs.Internal.Runs.{IsSameRecord, IsSoundRun};
ghost use Rattle.bus_sample.specs.declared.options.Form.TheVariants.{Samples};
ghost use Rattle.bus_sample.specs.declared.fault.SampleFault.TheVariants.{Octets, CutOff, Facts, Write};
ghost use Rattle.arrayvec.specs.ArrayVec.{array_vec_len};

use crate::facts::put_facts;
use crate::fault::SampleFault;
use crate::marks::Marks;
use crate::options::{Form, SampleOptions};
use crate::recording_reader::RecordingReader;
use arrayvec::ArrayVec;
use bus_tap::{ByLanes, Tap, TapFacts, Wires, alike, number_of};
use std::io::Write;

/// How many octets are asked for at once.
const ROOM: usize = 65536;

/// Where the reading of a recording stands.
#[derive(Drop)]
pub(crate) struct SampleRun {
    options: SampleOptions,
    /// The levels of each sample of an octet.
    levels: [u8; 256],
    pub(crate) tap: Tap,
    pub(crate) marks: Marks,
    /// The octets of a record that is not whole yet.
    part: ArrayVec<u8, 8>,
}

/// Whether a write failed.
fn is_cut(fault: &SampleFault) -> bool
    ensures { IsTrue result ↔ ((sent : ℕ) × (fault.now ≡ Write sent)) }
{
    matches!(fault, SampleFault::Write(_))
}

/// The levels of each sample of an octet.
fn levels_of(wires: &Wires) -> [u8; 256]
    ensures { (sample : ℕ) → sample < 256 → slice_index result sample ≡ channels wires.now sample }
{
    let mut levels = [0; 256];
    for sample in 0..256usize {
        levels[sample] = wires.channels(sample as u64);
    }
    levels
}

impl SampleRun {
    /// Before the first octet.
    pub(crate) fn new(options: &SampleOptions) -> Result<Self, SampleFault>
        ensures size { MatchResult result (λ _. HasSize options.now)
            (λ fault. (fault ≡ Octets) × ((size_of options.now.form < 1) ⊎ (8 < size_of options.now.form))) }
        ensures fresh { IfOk result (λ run. (start : Option (List ℕ)) → HasRead start start run []) }
        ensures given { IfOk result (λ run. run.options ≡ options.now) }
        ensures sound { IfOk result IsSoundRun }
    {
        if options.form.size() < 1 || options.form.size() > 8 {
            return Err(SampleFault::Octets);
        }
        Ok(SampleRun {
            options: *options,
            levels: levels_of(&options.wires),
            tap: Tap::new(options.hold, options.jump),
            marks: Marks::new(options.rest),
            part: ArrayVec::new(),
        })
    }

    /// Takes some samples with these levels, up to those that bring bits, and puts these. Returns how many.
    fn put_some<W: Write>(&mut self, levels: u8, count: u64, w: &mut W) -> Result<u64, SampleFault>
        requires sound { IsSoundRun self.old }
        requires some { 1 ≤ count }
        ensures taken { (sample : ℕ) → levels ≡ channels self.old.options.wires sample →
            (start : Option (List ℕ)) (ss : List ℕ) → RunAfter start (W.contents w.old) self.old ss →
            MatchResult result (λ n. RunAfter start (W.contents w.new) self.new (ss ++ replicate n sample))
            (λ fault. StopsWith start (W.contents w.new) self.new (ss ++ replicate count sample) fault) }
        ensures count { IfOk result (λ n. (1 ≤ n) × (n ≤ count)) }
        ensures same { IsSameRecord self.old self.new }
        ensures sound { IsSoundRun self.new }
    {
        let taken = match self.tap.consume(levels, count) {
            Ok(taken) => taken,
            Err(_) => return Err(SampleFault::TooMany),
        };
        if taken.edges.is_none() {
            return Ok(taken.samples);
        }
        let last = self.tap.samples() - 1;
        match self.marks.put(last, taken.edges, w) {
            Ok(()) => Ok(taken.samples),
            Err(cut) => Err(SampleFault::Write(cut.sent)),
        }
    }

    /// Takes samples with these levels, and puts the bits that arrive.
    fn put_run<W: Write>(&mut self, levels: u8, count: u64, w: &mut W) -> Result<(), SampleFault>
        requires { IsSoundRun self.old }
        ensures taken { (sample : ℕ) → levels ≡ channels self.old.options.wires sample →
            (start : Option (List ℕ)) (ss : List ℕ) → RunAfter start (W.contents w.old) self.old ss →
            MatchResult result (λ _. RunAfter start (W.contents w.new) self.new (ss ++ replicate count sample))
            (λ fault. StopsWith start (W.contents w.new) self.new (ss ++ replicate count sample) fault) }
        ensures same { IsSameRecord self.old self.new }
        ensures sound { IsSoundRun self.new }
    {
        let mut left = count;
        while left > 0 {
            left -= self.put_some(levels, left, w)?;
        }
        Ok(())
    }

    /// Takes 64 samples of an octet each, and puts the bits that arrive.
    #[inline(always)]
    fn put_block<W: Write>(
        &mut self,
        octets: &[u8; 64],
        wires: &Wires,
        w: &mut W,
    ) -> Result<(), SampleFault>
        requires wires { wires.now ≡ self.old.options.wires }
        requires sound { IsSoundRun self.old }
        requires takes { TakesBlocks self.old.tap }
        ensures taken { (start : Option (List ℕ)) (ss : List ℕ) → RunAfter start (W.contents w.old) self.old ss →
            MatchResult result (λ _. RunAfter start (W.contents w.new) self.new (ss ++ octets.now))
            (λ fault. StopsWith start (W.contents w.new) self.new (ss ++ octets.now) fault) }
        ensures same { IsSameRecord self.old self.new }
        ensures sound { IsSoundRun self.new }
    {
        let block = wires.block::<ByLanes>(octets);
        let from = self.tap.samples();
        let edges = self.tap.consume_block(&block);
        match self.marks.put_block(from, &edges, w) {
            Ok(()) => Ok(()),
            Err(cut) => Err(SampleFault::Write(cut.sent)),
        }
    }

    /// Takes what a record says.
    fn put_record<W: Write>(&mut self, number: u64, w: &mut W) -> Result<(), SampleFault>
        requires { IsSoundRun self.old }
        ensures taken { (start : Option (List ℕ)) (ss : List ℕ) → RunAfter start (W.contents w.old) self.old ss →
            MatchResult result
            (λ _. RunAfter start (W.contents w.new) self.new (ss ++ run_of self.old.options.form number))
            (λ fault. StopsWith start (W.contents w.new) self.new (ss ++ run_of self.old.options.form number) fault) }
        ensures same { IsSameRecord self.old self.new }
        ensures sound { IsSoundRun self.new }
    {
        match self.options.form {
            Form::Samples { .. } => {
                let levels = self.options.wires.channels(number);
                self.put_run(levels, 1, w)
            }
            Form::Runs => {
                let levels = self.options.wires.channels(number % 256);
                self.put_run(levels, number / 256, w)
            }
        }
    }

    /// Takes the next octet.
    fn read_octet<W: Write>(&mut self, octet: u8, w: &mut W) -> Result<(), SampleFault>
        requires sound { IsSoundRun self.old }
        ensures read { (start : Option (List ℕ)) (xs : List ℕ) → HasRead start (W.contents w.old) self.old xs →
            MatchResult result (λ _. HasRead start (W.contents w.new) self.new (xs ++ octet ∷ []))
            (λ fault. StopsWith start (W.contents w.new) self.new (recorded self.old.options.form (xs ++ octet ∷ []))
            fault) }
        ensures options { self.new.options ≡ self.old.options }
        ensures sound { IsSoundRun self.new }
    {
        self.part.push(octet);
        if self.part.len() < usize::from(self.options.form.size()) {
            return Ok(());
        }
        let number = number_of(self.part.as_slice());
        self.part.clear();
        self.put_record(number, w)
    }

    /// Takes some octets, up to the first fault.
    fn read_octets<W: Write>(&mut self, octets: &[u8], w: &mut W) -> Result<(), SampleFault>
        requires sound { IsSoundRun self.old }
        ensures read { (start : Option (List ℕ)) (xs : List ℕ) → HasRead start (W.contents w.old) self.old xs →
            MatchResult result (λ _. HasRead start (W.contents w.new) self.new (xs ++ octets.now))
            (λ fault. StopsWith start (W.contents w.new) self.new (recorded self.old.options.form (xs ++ octets.now))
            fault) }
        ensures options { self.new.options ≡ self.old.options }
        ensures sound { IsSoundRun self.new }
    {
        if self.options.form == (Form::Samples { octets: 1 }) {
            return self.read_samples(octets, w);
        }
        for octet in octets {
            self.read_octet(*octet, w)?;
        }
        Ok(())
    }

    /// Takes some samples of an octet each, up to the first fault.
    fn read_samples<W: Write>(&mut self, octets: &[u8], w: &mut W) -> Result<(), SampleFault>
        requires form { self.old.options.form ≡ Samples 1 }
        requires sound { IsSoundRun self.old }
        ensures read { (start : Option (List ℕ)) (xs : List ℕ) → HasRead start (W.contents w.old) self.old xs →
            MatchResult result (λ _. HasRead start (W.contents w.new) self.new (xs ++ octets.now))
            (λ fault. StopsWith start (W.contents w.new) self.new (recorded self.old.options.form (xs ++ octets.now))
            fault) }
        ensures options { self.new.options ≡ self.old.options }
        ensures sound { IsSoundRun self.new }
    {
        let wires = self.options.wires;
        let mut at = 0;
        while at < octets.len() {
            at += self.read_front(&octets[at..], &wires, w)?;
        }
        Ok(())
    }

    /// Takes 64 samples of an octet each, or the first ones if they are the same. Returns how many.
    #[inline(always)]
    fn read_front<W: Write>(
        &mut self,
        octets: &[u8],
        wires: &Wires,
        w: &mut W,
    ) -> Result<usize, SampleFault>
        requires wires { wires.now ≡ self.old.options.wires }
        requires form { self.old.options.form ≡ Samples 1 }
        requires sound { IsSoundRun self.old }
        requires some { 1 ≤ length octets.now }
        ensures read { (start : Option (List ℕ)) (xs : List ℕ) → HasRead start (W.contents w.old) self.old xs →
            MatchResult result (λ n. HasRead start (W.contents w.new) self.new (xs ++ take n octets.now))
            (λ fault. StopsWith start (W.contents w.new) self.new (recorded self.old.options.form (xs ++ octets.now))
            fault) }
        ensures count { IfOk result (λ n. (1 ≤ n) × (n ≤ length octets.now)) }
        ensures options { self.new.options ≡ self.old.options }
        ensures sound { IsSoundRun self.new }
    {
        if self.tap.takes_blocks() {
            if let Some(block) = octets.first_chunk::<64>() {
                self.put_block(block, wires, w)?;
                return Ok(64);
            }
        }
        let count = alike(octets);
        self.put_run(self.levels[usize::from(octets[0])], count as u64, w)?;
        Ok(count)
    }

    /// Takes what one read gave, and writes its text.
    fn read_buffer<W: Write>(&mut self, octets: &[u8], w: &mut W) -> Result<(), SampleFault>
        requires sound { IsSoundRun self.old }
        ensures read { (start : Option (List ℕ)) (xs : List ℕ) → HasRead start (W.contents w.old) self.old xs →
            MatchResult result (λ _. HasRead start (W.contents w.new) self.new (xs ++ octets.now))
            (λ fault. StopsWith start (W.contents w.new) self.new (recorded self.old.options.form (xs ++ octets.now))
            fault) }
        ensures options { self.new.options ≡ self.old.options }
        ensures sound { IsSoundRun self.new }
    {
        self.read_octets(octets, w)?;
        match self.marks.page.write_out(w) {
            Ok(()) => Ok(()),
            Err(cut) => Err(SampleFault::Write(cut.sent)),
        }
    }

    /// Tells the facts after a read, where they are asked for.
    fn look<E: Write>(&self, e: &mut E) -> Result<(), SampleFault>
        requires { IsSoundRun self.now }
        ensures { (start : Option (List ℕ)) (xs ys : List ℕ) → 1 ≤ length ys → length ys ≤ most_read →
            IsTapAfter self.now.tap (levels self.now.options (recorded self.now.options.form (xs ++ ys))) →
            HasTold self.now.options start (E.contents e.old) xs →
            MatchResult result (λ _. HasTold self.now.options start (E.contents e.new) (xs ++ ys))
            (λ fault. (fault ≡ Facts) × IsToldInPart self.now.options start (E.contents e.new) (xs ++ ys)) }
    {
        if !self.options.looks {
            return Ok(());
        }
        match put_facts(&self.tap.facts(), e) {
            Ok(()) => Ok(()),
            Err(_) => Err(SampleFault::Facts),
        }
    }

    /// What is wrong where the input ends behind so many octets.
    fn finish(&self, octets: u128) -> Result<(), SampleFault>
        ensures { MatchResult result (λ _. array_vec_len self.now.part ≡ 0)
            (λ fault. (0 < array_vec_len self.now.part)
            × (fault ≡ CutOff (octets - array_vec_len self.now.part))) }
    {
        if self.part.is_empty() {
            return Ok(());
        }
        let part = self.part.len() as u128;
        Err(SampleFault::CutOff(octets.saturating_sub(part)))
    }

    /// Reads to the end or the first fault.
    pub(crate) fn read_to_end<R: RecordingReader, W: Write, E: Write>(
        &mut self,
        r: &mut R,
        w: &mut W,
        e: &mut E,
    ) -> Result<(), SampleFault>
        requires sound { IsSoundRun self.old }
        requires fresh { (start : Option (List ℕ)) → HasRead start start self.old [] }
        requires room { R.failures r.old < 2 ^ 64 - 1 }
        ensures read { (xs : List ℕ) × Consumes (R.remaining r.old) (R.remaining r.new) xs
            × RecordingStopsWith (R.remaining r.new) (W.contents w.old) (W.contents w.new) self.new xs result
            × LooksBy self.old.options (E.contents e.old) (E.contents e.new) xs result }
        ensures failures { FailsBy (R.failures r.old) (R.failures r.new) result }
        ensures options { self.new.options ≡ self.old.options }
        ensures sound { IsSoundRun self.new }
    {
        let mut buffer = [0; ROOM];
        let mut octets: u128 = 0;
        for _turn in 0..self.options.reads {
            let count = match r.read(&mut buffer) {
                Ok(0) => return self.finish(octets),
                Ok(count) => count,
                Err(_) => return Err(SampleFault::Read),
            };
            octets += count as u128;
            self.read_buffer(&buffer[..count], w)?;
            self.look(e)?;
        }
        Err(SampleFault::ReadsLimit)
    }

    /// Ends the text, writes it and flushes. Returns what was counted.
    pub(crate) fn end<W: Write>(&mut self, w: &mut W) -> Result<TapFacts, SampleFault>
        requires { IsSoundRun self.old }
        ensures samples { (after start : Option (List ℕ)) (xs : List ℕ) →
            RecordingStopsWith after start (W.contents w.old) self.old xs (Ok tt)
            → SamplesBy self.old.options after start (W.contents w.new) xs result }
        ensures cut { IfErr result (λ fault. (sent : ℕ) × (fault ≡ Write sent)) }
    {
        match self.marks.end(w) {
            Ok(()) => Ok(self.tap.facts()),
            Err(cut) => Err(SampleFault::Write(cut.sent)),
        }
    }

    /// Writes the text so far and flushes, unless a write failed. Returns how the whole ended.
    pub(crate) fn close_behind<W: Write>(&mut self, fault: SampleFault, w: &mut W) -> SampleFault
        requires { IsSoundRun self.old }
        ensures samples { (after start : Option (List ℕ)) (xs : List ℕ) →
            RecordingStopsWith after start (W.contents w.old) self.old xs (Err fault)
            → SamplesBy self.old.options after start (W.contents w.new) xs (Err result) }
        ensures fault { (result ≡ fault) ⊎ ((sent : ℕ) × (result ≡ Write sent)) }
    {
        if is_cut(&fault) {
            return fault;
        }
        match self.marks.page.close(w) {
            Ok(()) => fault,
            Err(cut) => SampleFault::Write(cut.sent),
        }
    }
}
