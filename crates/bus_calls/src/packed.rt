//! Takes the octets of a packed capture.

ghost use Rattle.std.specs.Prelude.{◌≡◌, ◌+◌, ◌≤◌, ◌<◌, ℕ, List, [], ◌∷◌, ◌++◌, Option, MatchResult, Some, None, IfOk};
ghost use Rattle.std.specs.Prelude.{length, take, false};
ghost use Rattle.bus_formats.specs.Capture.{CaptureFault};
ghost use Rattle.bus_formats.specs.Packed.{head_fault_of, packed_fault_of};
ghost use Rattle.bus_calls.specs.Internal.Watching.{FeedStopsWith, FeedAfter, IsSame, IsSound};
ghost use Rattle.bus_calls.specs.Internal.Sessions.{PackedSourceAfter, BodyAfter, IsReadAs, SourceStopsWith};
ghost use Rattle.bus_calls.specs.Captures.{IsSameFault};

use crate::capture_kind::CaptureKind;
use crate::run::CaptureRun;
use arrayvec::ArrayVec;
use bus_formats::{HeadFault, PackedFault};
use bus_text::ToolFault;
use std::convert::AsSlice;
use std::io::Write;

/// How many octets the head has.
const HEAD: usize = 16;

/// A packed capture, as far as it was read.
#[derive(Drop)]
pub struct PackedCapture<B> {
    /// The octets of its head so far.
    pub head: ArrayVec<u8, HEAD>,
    /// Reads those after it, once the head is whole.
    pub body: Option<B>,
}

/// The fault of a head.
fn head_fault(fault: HeadFault) -> ToolFault
    ensures { IsSameFault result (head_fault_of fault) }
{
    match fault {
        HeadFault::Magic => ToolFault::Magic,
        HeadFault::TooMany => ToolFault::TooMany,
    }
}

/// The fault of the octets after it.
fn body_fault(fault: PackedFault) -> ToolFault
    ensures { IsSameFault result (packed_fault_of fault) }
{
    match fault {
        PackedFault::Trailing => ToolFault::Trailing,
        PackedFault::PadBits => ToolFault::PadBits,
        PackedFault::ShortBody => ToolFault::ShortBody,
    }
}

/// Takes some symbols, up to the first that can't be taken.
#[inline(always)]
fn analyse_symbols<T: CaptureKind, W: Write>(
    symbols: &[T::Symbol],
    run: &mut CaptureRun<T>,
    w: &mut W,
) -> Result<(), ToolFault>
    requires { IsSound T.kind run.old }
    ensures taken { (start : Option (List ℕ)) (b : List T.Symbol) →
        FeedAfter T.kind start (W.contents w.old) run.old b → MatchResult result
        (λ _. FeedAfter T.kind start (W.contents w.new) run.new (b ++ symbols.now))
        (λ fault. FeedStopsWith T.kind start (W.contents w.new) run.new (b ++ symbols.now) fault) }
    ensures same { IsSame T.kind run.old run.new }
    ensures sound { IsSound T.kind run.new }
{
    T::laws();
    for symbol in symbols {
        T::analyse_symbol(*symbol, run, w)?;
    }
    Ok(())
}

/// Takes one octet after the head.
#[inline(always)]
fn decode_octet<T: CaptureKind, W: Write>(
    body: &mut T::Body,
    octet: u8,
    run: &mut CaptureRun<T>,
    w: &mut W,
) -> Result<(), ToolFault>
    requires { IsSound T.kind run.old }
    ensures taken { (start : Option (List ℕ)) (xs : List ℕ) →
        BodyAfter T.kind start (W.contents w.old) body.old run.old xs → MatchResult result
        (λ _. BodyAfter T.kind start (W.contents w.new) body.new run.new (xs ++ octet ∷ []))
        (λ fault. SourceStopsWith T.kind false start (W.contents w.new) run.new (xs ++ octet ∷ []) fault) }
    ensures same { IsSame T.kind run.old run.new }
    ensures sound { IsSound T.kind run.new }
{
    T::laws();
    match T::decode_octet(body, octet) {
        Ok(symbols) => analyse_symbols(symbols.as_slice(), run, w),
        Err(fault) => Err(body_fault(fault)),
    }
}

impl<B> PackedCapture<B> {
    /// No octets.
    pub fn new() -> Self
        ensures { (result.head.items ≡ []) × (result.body ≡ None) }
    {
        PackedCapture {
            head: ArrayVec::new(),
            body: None,
        }
    }

    /// Puts octets into the head, which has room for them.
    fn gather(&mut self, octets: &[u8])
        requires { length self.old.head.items + length octets.now ≤ 16 }
        ensures items { self.new.head.items ≡ self.old.head.items ++ octets.now }
        ensures body { self.new.body ≡ self.old.body }
    {
        for octet in octets {
            self.head.push(*octet);
        }
    }

    /// The head, which is whole.
    fn head(&self) -> [u8; HEAD]
        requires { length self.now.head.items ≡ 16 }
        ensures { result ≡ self.now.head.items }
    {
        let mut head = [0; HEAD];
        head.copy_from_slice(self.head.as_slice());
        head
    }

    /// Takes octets of the head, as many as it lacks, and reads it where it is whole then. Returns how many these were.
    fn fill_head<T: CaptureKind<Body = B>>(&mut self, octets: &[u8]) -> Result<usize, ToolFault>
        ensures read { (xs : List ℕ) → IsReadAs T.kind self.old.head.items self.old.body xs → MatchResult result
            (λ n. IsReadAs T.kind self.new.head.items self.new.body (xs ++ take n octets.now)
            × ((T.kind.form.packed (xs ++ take n octets.now)).bits ≡ (T.kind.form.packed xs).bits))
            (λ fault. (cause : CaptureFault) × IsSameFault fault cause
            × (T.kind.form.packed (xs ++ octets.now)
            ≡ record { bits = (T.kind.form.packed xs).bits; fault = Some cause })) }
        ensures within { IfOk result (λ n. n ≤ length octets.now) }
        ensures all { IfOk result (λ n. self.new.body ≡ None → n ≡ length octets.now) }
    {
        T::laws();
        if self.body.is_some() {
            return Ok(0);
        }
        let missing = HEAD - self.head.len();
        if octets.len() < missing {
            self.gather(octets);
            return Ok(octets.len());
        }
        self.gather(&octets[..missing]);
        self.body = Some(T::read_head(&self.head()).map_err(head_fault)?);
        Ok(missing)
    }

    /// Takes some octets, up to the first fault.
    #[inline(never)]
    pub fn analyse<T: CaptureKind<Body = B>, W: Write>(
        &mut self,
        octets: &[u8],
        run: &mut CaptureRun<T>,
        w: &mut W,
    ) -> Result<(), ToolFault>
        requires sound { IsSound T.kind run.old }
        ensures taken { (start : Option (List ℕ)) (xs : List ℕ) →
            PackedSourceAfter T.kind start (W.contents w.old) self.old run.old xs → MatchResult result
            (λ _. PackedSourceAfter T.kind start (W.contents w.new) self.new run.new (xs ++ octets.now))
            (λ fault. SourceStopsWith T.kind false start (W.contents w.new) run.new (xs ++ octets.now) fault) }
        ensures same { IsSame T.kind run.old run.new }
        ensures sound { IsSound T.kind run.new }
    {
        T::laws();
        let mut taken = self.fill_head::<T>(octets)?;
        let Some(mut body) = self.body.take() else {
            return Ok(());
        };
        while taken < octets.len() {
            let many = T::analyse_packed(&mut body, &octets[taken..], run, w)?;
            if many > 0 {
                taken += many;
                continue;
            }
            decode_octet(&mut body, octets[taken], run, w)?;
            taken += 1;
        }
        self.body = Some(body);
        Ok(())
    }

    /// What is wrong where the input ends here.
    pub fn finish<T: CaptureKind<Body = B>>(&self) -> Result<(), ToolFault>
        ensures { (xs : List ℕ) → IsReadAs T.kind self.now.head.items self.now.body xs → MatchResult result
            (λ _. T.kind.form.packed_whole xs ≡ record { bits = (T.kind.form.packed xs).bits; fault = None })
            (λ fault. (cause : CaptureFault) × IsSameFault fault cause
            × (T.kind.form.packed_whole xs ≡ record { bits = (T.kind.form.packed xs).bits; fault = Some cause })) }
    {
        T::laws();
        let Some(body) = &self.body else {
            return Err(ToolFault::ShortHead);
        };
        T::finish(body).map_err(body_fault)
    }
}
