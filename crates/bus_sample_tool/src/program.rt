//! The program.

ghost use Rattle.std.specs.Prelude.{◌≡◌, ◌-◌, ◌<◌, ◌^◌, ◌⊎◌};
ghost use Rattle.bus_sample_tool.specs.declared.request.Request.{Request};
ghost use Rattle.bus_sample_tool.specs.Executes.{ExecutesSampling, RefusesWords, Tells};

use crate::arguments::read_arguments;
use crate::faults::FaultWriter;
use crate::refuse::refuse;
use crate::report::{FINE, fail};
use bus_sample::{RecordingReader, SampleFault, put_facts, sample_recording};
use bus_tap::TapFacts;
use std::alloc::Global;
use std::io::Write;

/// Runs the program `port1-sample`, and returns its status: 0, or 2 for any fault, which is reported.
///
/// `words` are its arguments without its name. A recording is read from `r`. Its arrivals and help go to `w`, facts and
/// faults to `e`; that `e` fails at a fault is ignored.
pub fn run<R: RecordingReader, W: Write, E: FaultWriter>(
    alloc: Global,
    words: &[&str],
    r: &mut R,
    w: &mut W,
    e: &mut E,
) -> u8
    requires { R.failures r.old < 2 ^ 64 - 1 }
    ensures status { (result ≡ 0) ⊎ (result ≡ 2) }
    ensures executes { ((request : Request) × (request.options.reads ≡ 2 ^ 40)
        × ExecutesSampling request (R.remaining r.old) (R.remaining r.new) (R.failures r.old) (R.failures r.new)
        (W.contents w.old) (W.contents w.new) (E.contents e.old) (E.contents e.new) (E.has_failed e.new) result)
        ⊎ ((R.remaining r.new ≡ R.remaining r.old) × (R.failures r.new ≡ R.failures r.old)
        × RefusesWords (W.contents w.old) (W.contents w.new) (E.contents e.old) (E.contents e.new) (E.has_failed e.new)
        result) }
{
    match read_arguments(alloc, words) {
        Ok(request) => {
            let answer = sample_recording(&request.options, r, w, e);
            tell(request.tells_facts, answer, e)
        }
        Err(refusal) => refuse(alloc, &refusal, w, e),
    }
}

/// Tells how a run ended, and returns its status.
fn tell<E: FaultWriter>(tells_facts: bool, answer: Result<TapFacts, SampleFault>, e: &mut E) -> u8
    ensures status { (result ≡ 0) ⊎ (result ≡ 2) }
    ensures tells { Tells tells_facts answer (E.contents e.old) (E.contents e.new) (E.has_failed e.new) result }
{
    match answer {
        Err(fault) => fail(&fault, e),
        Ok(_) if !tells_facts => FINE,
        Ok(facts) => match put_facts(&facts, e) {
            Ok(()) => FINE,
            Err(_) => fail(&SampleFault::Facts, e),
        },
    }
}
