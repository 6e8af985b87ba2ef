//! The command line.

ghost use Rattle.std.specs.Prelude.{◌≡◌, ◌^◌, IfOk};

use crate::request::Request;
use bus_arguments::table::{ArgumentRow, FLAG, NUMBER, Takes, with_arguments};
use bus_sample::{Form, SampleOptions};
use bus_tap::{Wire, Wires};
use clap::{ArgMatches, Command, Error};
use std::alloc::Global;

/// How often a reader is called at most.
const READS: u64 = 1 << 40;

/// A level counts once it stood in one sample more, unless it is said.
const HOLD: u32 = 1;

/// By how many samples two distances may differ, unless it is said.
const JUMP: u64 = 2;

/// The end of the help text.
const AFTER: &str = "\
The words are the numbers of the bits of a sample, the lowest 0, that carry the wires: clock
and data of the controller's line, and of the stations' line if that was recorded. Both lines
may have the same clock.

A bit is taken where its clock rises: the level of its data just before. A glitch of one sample
is left out. Recordings with fewer than four samples for a bit want `--hold 0`.

A sender may stop its clock some bits behind a frame. With `--rest N` fifteen ones of the line
come before its next bit, so that what stands before the stop does not run into the next frame.

The bits are written in the order of arrival: 0 and 1 of the controller's line, o and i of the
stations'. `port1 list --arrivals --bits` reads them or, of one line, `port1 list --bits`.

The status is 0, or 2 for any fault.

Example:
  port1-sample 0 1 2 3 < samples.bin | port1 list --arrivals --bits

See also: port1(1)";

/// Why the words ask for nothing that can be done.
#[derive(Drop)]
pub enum Refusal {
    /// The words are no command line, or ask for a help text.
    Arguments(Error),
    /// A sample has no bit of this number.
    Bit(u8),
}

/// A word that is the number of a bit of a sample.
const WIRE: ArgumentRow = ArgumentRow {
    is_positional: true,
    takes: Takes::Number(0, 63),
    ..FLAG
};

/// The options of the recording and of its facts.
const RECORDING: [ArgumentRow; 5] = [
    ArgumentRow {
        name: "octets",
        takes: Takes::Number(1, 8),
        defaults: &["1"],
        help: "A sample has N octets, the lowest first, 1 to 8",
        ..NUMBER
    },
    ArgumentRow {
        name: "runs",
        conflicts: &["octets"],
        help: "Records of 8 octets: levels in the lowest, then how many samples they stand",
        ..FLAG
    },
    ArgumentRow {
        name: "jump",
        defaults: &["2"],
        help: "With --facts, a jump is more than N samples",
        ..NUMBER
    },
    ArgumentRow {
        name: "facts",
        help: "Writes to standard error, at the end, what is counted in the samples",
        ..FLAG
    },
    ArgumentRow {
        name: "live",
        needs: &["facts"],
        help: "With --facts, writes it after each read of the input, too",
        ..FLAG
    },
];

/// The words for the wires.
const WIRES: [ArgumentRow; 4] = [
    ArgumentRow {
        name: "txc",
        is_required: true,
        values: &["TXC"],
        help: "The controller's clock",
        ..WIRE
    },
    ArgumentRow {
        name: "txd",
        is_required: true,
        values: &["TXD"],
        help: "The controller's data",
        ..WIRE
    },
    ArgumentRow {
        name: "rxc",
        values: &["RXC"],
        needs: &["rxd"],
        help: "The stations' clock",
        ..WIRE
    },
    ArgumentRow {
        name: "rxd",
        values: &["RXD"],
        help: "The stations' data",
        ..WIRE
    },
];

/// The options that say how levels are taken.
const LEVELS: [ArgumentRow; 7] = [
    ArgumentRow {
        name: "hold",
        takes: Takes::Number(0, 65535),
        defaults: &["1"],
        help: "A level counts once it stood in N + 1 samples",
        ..NUMBER
    },
    ArgumentRow {
        name: "rest",
        defaults: &["0"],
        help: "A clock that stands for more than N samples has stopped; 0: never",
        ..NUMBER
    },
    ArgumentRow {
        name: "falling",
        help: "Bits are taken where clocks fall",
        ..FLAG
    },
    ArgumentRow {
        name: "invert-txc",
        help: "TXC is inverted: its wires are exchanged",
        ..FLAG
    },
    ArgumentRow {
        name: "invert-txd",
        help: "TXD is inverted",
        ..FLAG
    },
    ArgumentRow {
        name: "invert-rxc",
        help: "RXC is inverted",
        ..FLAG
    },
    ArgumentRow {
        name: "invert-rxd",
        help: "RXD is inverted",
        ..FLAG
    },
];

fn whole_command<'a>(alloc: Global) -> Result<Command<'a>, Error> {
    let command = Command::new(alloc, "port1-sample")
        .bin_name("port1-sample")?
        .version("3.1.0")
        .about("Takes the bits of the Port 1 bus from the samples of a logic analyser")
        .override_usage("port1-sample [OPTIONS] TXC TXD [RXC RXD] < SAMPLES")
        .after_help(AFTER)
        .no_binary_name(true);
    let command = with_arguments(alloc, command, &RECORDING)?;
    let command = with_arguments(alloc, command, &WIRES)?;
    with_arguments(alloc, command, &LEVELS)
}

/// A wire by its word, if there is one.
fn wire(found: &ArgMatches<'_>, name: &str, inverted: bool) -> Option<Wire> {
    found.get_one(name).map(|number| Wire {
        number,
        is_inverted: inverted,
    })
}

fn wires(found: &ArgMatches<'_>) -> Wires {
    let falls = found.get_flag("falling");
    Wires {
        first_clock: wire(found, "txc", found.get_flag("invert-txc") != falls),
        first_data: wire(found, "txd", found.get_flag("invert-txd")),
        second_clock: wire(found, "rxc", found.get_flag("invert-rxc") != falls),
        second_data: wire(found, "rxd", found.get_flag("invert-rxd")),
    }
}

fn form(found: &ArgMatches<'_>) -> Form {
    if found.get_flag("runs") {
        Form::Runs
    } else {
        Form::Samples {
            octets: found.get_one("octets").unwrap_or(1),
        }
    }
}

/// How many bits a sample has.
fn bits(form: Form) -> u32 {
    match form {
        Form::Samples { octets } => u32::from(octets) * 8,
        Form::Runs => 8,
    }
}

/// The first wire that a sample of so many bits lacks.
fn missing(wires: &Wires, bits: u32) -> Option<u8> {
    for wire in [
        wires.first_clock,
        wires.first_data,
        wires.second_clock,
        wires.second_data,
    ] {
        if let Some(wire) = wire {
            if u32::from(wire.number) >= bits {
                return Some(wire.number);
            }
        }
    }
    None
}

fn parse<'a>(alloc: Global, words: &'a [&'a str]) -> Result<ArgMatches<'a>, Error> {
    whole_command(alloc)?.try_get_matches_from(words)
}

/// Reads the words, the arguments of the program without its name.
///
/// # Errors
///
/// - `Arguments`: what the words have wrong, or a help text, as `clap` tells them.
/// - `Bit`: a word names a bit that a sample does not have.
pub fn read_arguments(alloc: Global, words: &[&str]) -> Result<Request, Refusal>
    ensures { IfOk result (λ request. request.options.reads ≡ 2 ^ 40) }
{
    let found = match parse(alloc, words) {
        Ok(found) => found,
        Err(error) => return Err(Refusal::Arguments(error)),
    };
    let wires = wires(&found);
    let form = form(&found);
    if let Some(number) = missing(&wires, bits(form)) {
        return Err(Refusal::Bit(number));
    }
    Ok(Request {
        options: SampleOptions {
            form,
            wires,
            hold: found.get_one("hold").unwrap_or(HOLD),
            jump: found.get_one("jump").unwrap_or(JUMP),
            rest: found.get_one("rest").unwrap_or(0),
            looks: found.get_flag("live"),
            reads: READS,
        },
        tells_facts: found.get_flag("facts"),
    })
}
