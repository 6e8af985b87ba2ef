//! Takes the octets of a text capture.

ghost use Rattle.std.specs.Prelude.{◌≡◌, ◌+◌, ◌≤◌, ◌<◌, ◌^◌, ℕ, List, [], ◌∷◌, ◌++◌, Option, MatchResult, OnOk, IfOk};
ghost use Rattle.std.specs.Prelude.{length, take, true};
ghost use Rattle.bus_calls.specs.Internal.Watching.{IsSound, IsSame};
ghost use Rattle.bus_calls.specs.Internal.Sessions.{OctetsAfter, TextAfter, SourceStopsWith};

use crate::capture_kind::CaptureKind;
use crate::run::CaptureRun;
use bus_formats::BadMark;
use bus_text::ToolFault;
use std::io::Write;

/// A text capture, as far as it was read.
#[derive(Clone, Copy)]
pub struct TextCapture {
    /// How many octets were taken.
    pub at: u128,
}

/// Takes one octet, before which there were `at` others.
#[inline(always)]
fn analyse_octet<T: CaptureKind, W: Write>(
    octet: u8,
    at: u128,
    run: &mut CaptureRun<T>,
    w: &mut W,
) -> Result<(), ToolFault>
    requires { IsSound T.kind run.old }
    ensures taken { (start : Option (List ℕ)) (xs : List ℕ) → at ≡ length xs →
        OctetsAfter T.kind start (W.contents w.old) run.old xs → MatchResult result
        (λ _. OctetsAfter T.kind start (W.contents w.new) run.new (xs ++ octet ∷ []))
        (λ fault. SourceStopsWith T.kind true start (W.contents w.new) run.new (xs ++ octet ∷ []) fault) }
    ensures same { IsSame T.kind run.old run.new }
    ensures sound { IsSound T.kind run.new }
{
    T::laws();
    match T::mark(octet) {
        Ok(Some(symbol)) => T::analyse_symbol(symbol, run, w),
        Ok(None) => Ok(()),
        Err(BadMark) => Err(ToolFault::BadMark { at }),
    }
}

impl TextCapture {
    /// Takes some octets, up to the first fault.
    #[inline(never)]
    pub fn analyse<T: CaptureKind, W: Write>(
        &mut self,
        octets: &[u8],
        run: &mut CaptureRun<T>,
        w: &mut W,
    ) -> Result<(), ToolFault>
        requires sound { IsSound T.kind run.old }
        requires few { self.old.at + length octets.now < 2 ^ 100 }
        ensures taken { (start : Option (List ℕ)) (xs : List ℕ) →
            TextAfter T.kind start (W.contents w.old) self.old run.old xs → MatchResult result
            (λ _. TextAfter T.kind start (W.contents w.new) self.new run.new (xs ++ octets.now))
            (λ fault. SourceStopsWith T.kind true start (W.contents w.new) run.new (xs ++ octets.now) fault) }
        ensures at { OnOk result (self.new.at ≡ self.old.at + length octets.now) }
        ensures same { IsSame T.kind run.old run.new }
        ensures sound { IsSound T.kind run.new }
    {
        T::laws();
        let mut taken = 0;
        while taken < octets.len() {
            let many = T::analyse_text(&octets[taken..], run, w)?;
            if many > 0 {
                taken += many;
                continue;
            }
            analyse_octet(octets[taken], self.at + taken as u128, run, w)?;
            taken += 1;
        }
        self.at += octets.len() as u128;
        Ok(())
    }
}
