//! Words that ask for nothing that is done.

ghost use Rattle.std.specs.Prelude.{◌≡◌, List, ℕ, IfOk, MatchResult, string_bytes};
ghost use Rattle.std.specs.Io.KnownBytes.{Appends};
ghost use Rattle.bus_text.specs.Put.{TextStopsAt};
ghost use Rattle.bus_sample_tool.specs.Executes.{RefusesWords};
ghost use Rattle.bus_sample_tool.specs.Reports.{Reports, line};

use crate::arguments::Refusal;
use crate::faults::FaultWriter;
use crate::report::{FAULT, FINE, fail};
use bus_sample::SampleFault;
use bus_text::{ShortWrite, put_text};
use std::alloc::{AllocError, Global};
use std::io::Write;

/// Reports what the words have wrong, or shows the help that they ask for.
pub(crate) fn refuse<W: Write, E: FaultWriter>(
    alloc: Global,
    refusal: &Refusal,
    w: &mut W,
    e: &mut E,
) -> u8
    ensures { RefusesWords (W.contents w.old) (W.contents w.new) (E.contents e.old) (E.contents e.new)
        (E.has_failed e.new) result }
{
    let text = match text_of(alloc, refusal) {
        Ok(text) => text,
        Err(_) => {
            e.put(b"port1-sample: no memory\n");
            return FAULT;
        }
    };
    if is_fault(refusal) {
        e.put(text.as_bytes());
        return FAULT;
    }
    match show(text.as_bytes(), w) {
        Ok(()) => FINE,
        Err(cut) => fail(&SampleFault::Write(cut.sent), e),
    }
}

/// Whether the words ask for no help text.
fn is_fault(refusal: &Refusal) -> bool {
    match refusal {
        Refusal::Arguments(error) => error.use_stderr(),
        Refusal::Bit(_) => true,
    }
}

/// What the words have wrong, or the help that they ask for; it ends its line.
fn text_of(alloc: Global, refusal: &Refusal) -> Result<String, AllocError>
    ensures { IfOk result (λ text. (front : List ℕ) × (string_bytes text ≡ line front)) }
{
    let text = match refusal {
        Refusal::Arguments(error) => format!(in alloc; "{error}")?,
        Refusal::Bit(number) => format!(in alloc; "port1-sample: a sample has no bit {number}")?,
    };
    format!(in alloc; "{}\n", text.trim_end())
}

/// Writes and flushes a help text.
fn show<W: Write>(text: &[u8], w: &mut W) -> Result<(), ShortWrite>
    ensures { MatchResult result (λ _. Appends (W.contents w.old) (W.contents w.new) text.now)
        (λ cut. TextStopsAt (W.contents w.old) (W.contents w.new) text.now cut.sent) }
{
    put_text(w, text)?;
    w.flush().map_err(|_| ShortWrite {
        sent: text.len() as u128,
    })
}
