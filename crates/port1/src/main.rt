//! The program `port1`: analyses captures of the Port 1 bus from standard input.
#![tactic(auto)]

use bus_tool::{ToolFault, run};
use std::alloc::Global;
use std::io::{ErrorKind, Write};
use std::process::ExitCode;
use std::{env, io};

fn main(rt: HostRuntime) -> ExitCode {
    let alloc = rt.alloc();
    let owned = match arguments(&rt) {
        Ok(owned) => owned,
        Err(error) => return refuse(&rt, &error),
    };
    let words = match words_of(alloc, &owned) {
        Ok(words) => words,
        Err(error) => return refuse(&rt, &error),
    };
    let mut input = rt.reader();
    let mut output = io::writer(&rt);
    let mut faults = rt.stderr();
    ExitCode::from(run(
        alloc,
        words.as_slice(),
        &mut input,
        &mut output,
        &mut faults,
    ))
}

/// The name of the program, and its arguments.
fn arguments(rt: &HostRuntime) -> io::Result<Vec<String>> {
    Ok(env::args(rt)?.collect(rt.alloc())?)
}

/// The arguments, after the name of the program.
fn words_of<'a>(alloc: Global, owned: &'a Vec<String>) -> io::Result<Vec<&'a str>> {
    let mut words: Vec<&str> = Vec::new(alloc);
    for word in owned.iter().skip(1) {
        words.push(word.as_str())?;
    }
    Ok(words)
}

/// Reports why the program did not start, and returns the status; that the report fails is ignored.
fn refuse(rt: &HostRuntime, error: &io::Error) -> ExitCode {
    let _ = match error.kind() {
        ErrorKind::OutOfMemory => writeln!(rt.stderr(), "port1: {}", ToolFault::Memory),
        // Only `env::args` reports this, of a word that is no text.
        ErrorKind::InvalidData => writeln!(rt.stderr(), "port1: an argument is not UTF-8"),
        _ => writeln!(rt.stderr(), "port1: {error}"),
    };
    ExitCode::from(2)
}
