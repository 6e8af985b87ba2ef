//! The program `port1-sample`: takes the bits of the Port 1 bus from a recording on standard input.
#![tactic(auto)]

use bus_sample_tool::{CountedReader, FaultOutput, run};
use std::io::{ErrorKind, Write};
use std::process::ExitCode;
use std::{env, io};

fn main(rt: HostRuntime) -> ExitCode {
    match start(&rt) {
        Ok(status) => ExitCode::from(status),
        Err(error) => {
            report(&rt, &error);
            ExitCode::from(2)
        }
    }
}

/// Tells why the program did not start; that this fails is ignored.
fn report(rt: &HostRuntime, error: &io::Error) {
    let _ = match error.kind() {
        ErrorKind::OutOfMemory => writeln!(rt.stderr(), "port1-sample: no memory"),
        // Only `env::args` tells this, of a word that is no text.
        ErrorKind::InvalidData => writeln!(rt.stderr(), "port1-sample: an argument is not UTF-8"),
        _ => writeln!(rt.stderr(), "port1-sample: {error}"),
    };
}

/// Runs the arguments of the process, and returns the status.
fn start(rt: &HostRuntime) -> io::Result<u8> {
    let alloc = rt.alloc();
    let owned: Vec<String> = env::args(rt)?.collect(alloc)?;
    let mut words: Vec<&str> = Vec::new(alloc);
    for word in owned.iter().skip(1) {
        words.push(word.as_str())?;
    }
    let mut input = CountedReader::new(rt.reader());
    let mut output = io::writer(rt);
    let mut faults = FaultOutput::new(rt.stderr());
    let status = run(
        alloc,
        words.as_slice(),
        &mut input,
        &mut output,
        &mut faults,
    );
    Ok(status)
}
