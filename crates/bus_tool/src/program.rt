//! The program.

ghost use Rattle.std.specs.Prelude.{◌≡◌, ◌≢◌, ◌≤◌, ◌^◌, ◌⊎◌};
ghost use Rattle.bus_arguments.specs.Reads.{AllowsReads};
ghost use Rattle.bus_arguments.specs.declared.request.Request.{Request};
ghost use Rattle.bus_tool.specs.Executes.{Executes};

use crate::statuses::{FAULT, fail, status, verdict};
use bus_arguments::{Refusal, Request, read_arguments};
use bus_calls::{check_capture, encode_frames, list_capture};
use bus_text::{ToolFault, put_text, show_frame};
use clap::Error;
use clap::error::ErrorKind;
use std::alloc::{AllocError, Global};
use std::io::{Read, Write};

/// Runs the program `port1`, and returns its status: 0, or 1 for a check that found something
/// damaged, overlong, missing, spoilt or late, or 2 for any fault.
///
/// `words` are its arguments without its name. A capture, or lines to encode, are read from `r`.
/// Output and help go to `w`, and faults to `e`; that `e` fails is ignored.
pub fn run<R: Read, W: Write, E: Write>(
    alloc: Global,
    words: &[&str],
    r: &mut R,
    w: &mut W,
    e: &mut E,
) -> u8
    ensures status { result ≤ 2 }
    ensures executes { ((request : Request) × AllowsReads (2 ^ 40) request
        × Executes request (R.remaining r.old) (R.remaining r.new) (W.contents w.old) (W.contents w.new) result)
        ⊎ ((R.remaining r.new ≡ R.remaining r.old) × (result ≢ 1)) }
{
    let request = match read_arguments(alloc, words) {
        Ok(request) => request,
        Err(Refusal::Arguments(error)) => return refuse(alloc, &error, w, e),
        Err(Refusal::Kind) => return fail(&ToolFault::Kind, e),
    };
    match request {
        Request::List(options) => status(list_capture(alloc, &options, r, w), e),
        Request::Check(options) => verdict(check_capture(alloc, &options, r, w), e),
        Request::Show { dictionary, hex } => status(show_frame(alloc, dictionary, hex, w), e),
        Request::Encode { reads } => status(encode_frames(reads, r, w), e),
    }
}

/// Reports what the words have wrong, or the help that they ask for.
fn refuse<W: Write, E: Write>(alloc: Global, error: &Error, w: &mut W, e: &mut E) -> u8
    ensures { (result ≡ 0) ⊎ (result ≡ 2) }
{
    if error.kind() == ErrorKind::OutOfMemory {
        return fail(&ToolFault::Memory, e);
    }
    if error.use_stderr() {
        let _ = write!(e, "{error}");
        return FAULT;
    }
    status(show_help(alloc, error, w), e)
}

/// Writes and flushes a help text.
fn show_help<W: Write>(alloc: Global, help: &Error, w: &mut W) -> Result<(), ToolFault> {
    let text = help_text(alloc, help).map_err(|_| ToolFault::Memory)?;
    put_text(w, text.as_bytes())?;
    let written = text.len() as u128;
    w.flush().map_err(|_| ToolFault::Write { written })
}

fn help_text(alloc: Global, help: &Error) -> Result<String, AllocError> {
    format!(in alloc; "{help}")
}
