//! The command line.

ghost use Rattle.std.specs.Prelude.{◌≡◌, ◌^◌, IfOk};
ghost use Rattle.bus_arguments.specs.Reads.{AllowsReads};

mod help;
mod rows;

use crate::request::Request;
use crate::table::with_arguments;
use bus_text::{Kind, Lines, Options};
use clap::{ArgMatches, Command, Error};
use std::alloc::Global;

/// How often a reader is called at most.
const READS: u64 = 1 << 40;

/// How many frames the history keeps where only lines are wanted.
const LISTED_DEPTH: usize = 1;

/// The silence that brings a second line with its own clock to rest, unless it is said.
const REST: u64 = 40;

/// How many frames a check tells at its end, unless it is said.
const CHECKED_DEPTH: usize = 16;

/// Why the words ask for nothing that can be done.
#[derive(Drop)]
pub enum Refusal {
    /// The words are no command line, or ask for a help text.
    Arguments(Error),
    /// They are one, and the word after `--kind` names no kind of line.
    Kind,
}

fn list_command<'a>(alloc: Global) -> Result<Command<'a>, Error> {
    let command = Command::new(alloc, "list")
        .about("Lists what is on the line, from a capture on standard input")
        .override_usage("port1 list [OPTIONS] < CAPTURE")
        .after_help(help::LIST);
    with_arguments(alloc, command, &rows::LIST)
}

fn check_command<'a>(alloc: Global) -> Result<Command<'a>, Error> {
    let command = Command::new(alloc, "check")
        .about("Counts what is on the line; the exit status says whether all was well")
        .override_usage("port1 check [OPTIONS] < CAPTURE")
        .after_help(help::CHECK);
    with_arguments(alloc, command, &rows::CHECK)
}

fn show_command<'a>(alloc: Global) -> Result<Command<'a>, Error> {
    let command = Command::new(alloc, "show")
        .about("Shows what one frame is")
        .after_help(help::SHOW);
    with_arguments(alloc, command, &rows::SHOW)
}

fn encode_command<'a>(alloc: Global) -> Command<'a> {
    Command::new(alloc, "encode")
        .about("Encodes flags, idle lines and frames on standard input as the bits that are sent")
        .override_usage("port1 encode < LINES")
        .after_help(help::ENCODE)
}

fn whole_command<'a>(alloc: Global) -> Result<Command<'a>, Error> {
    Ok(
        Command::new(alloc, "port1")
            .bin_name("port1")?
            .version("3.1.0")
            .about("Analyses the Port 1 bus of a traffic-signal cabinet, from the bits on it")
            .after_help(help::WHOLE)
            .no_binary_name(true)
            .subcommand(list_command(alloc)?)?
            .subcommand(check_command(alloc)?)?
            .subcommand(show_command(alloc)?)?
            .subcommand(encode_command(alloc))?,
    )
}

/// A listing of a text capture of one line, with every line of text, without a dictionary.
fn plain_listing<'a>() -> Options<'a>
    ensures { result.reads ≡ 2 ^ 40 }
{
    Options {
        dictionary: None,
        text: true,
        lines: Lines::One,
        rest: REST,
        origin: 0,
        depth: LISTED_DEPTH,
        station: None,
        ftype: None,
        kind: None,
        reads: READS,
    }
}

fn lines_of(found: &ArgMatches<'_>) -> Lines {
    if found.get_flag("arrivals") {
        Lines::Arrivals
    } else if found.get_flag("two") {
        Lines::Two
    } else {
        Lines::One
    }
}

fn list_options<'a>(found: &ArgMatches<'a>) -> Result<Options<'a>, Refusal>
    ensures { IfOk result (λ o. o.reads ≡ 2 ^ 40) }
{
    let kind = match found.get_str("kind") {
        None => None,
        Some(word) => Some(Kind::read(word).ok_or(Refusal::Kind)?),
    };
    Ok(Options {
        dictionary: found.get_str("dict"),
        text: found.get_flag("bits"),
        lines: lines_of(found),
        rest: found.get_one("rest").unwrap_or(REST),
        origin: found.get_one("origin").unwrap_or(0),
        station: found.get_one("station"),
        ftype: found.get_one("type"),
        kind,
        ..plain_listing()
    })
}

fn check_options<'a>(found: &ArgMatches<'a>) -> Options<'a>
    ensures { result.reads ≡ 2 ^ 40 }
{
    Options {
        dictionary: found.get_str("dict"),
        text: found.get_flag("bits"),
        lines: lines_of(found),
        rest: found.get_one("rest").unwrap_or(REST),
        origin: found.get_one("origin").unwrap_or(0),
        depth: found.get_one("depth").unwrap_or(CHECKED_DEPTH),
        ..plain_listing()
    }
}

fn parse<'a>(alloc: Global, words: &'a [&'a str]) -> Result<ArgMatches<'a>, Error> {
    whole_command(alloc)?.try_get_matches_from(words)
}

/// Reads the words, the arguments of the program without its name. No words at all ask for what
/// `list --bits` does.
///
/// # Errors
///
/// - `Arguments`: what the words have wrong, or a help text, as `clap` tells them.
/// - `Kind`: no kind of line is named so. The rest of the words was judged before.
pub fn read_arguments<'a>(alloc: Global, words: &'a [&'a str]) -> Result<Request<'a>, Refusal>
    ensures { IfOk result (AllowsReads (2 ^ 40)) }
{
    let found = match parse(alloc, words) {
        Ok(found) => found,
        Err(error) => return Err(Refusal::Arguments(error)),
    };
    match found.subcommand() {
        Some(("list", listed)) => Ok(Request::List(list_options(listed)?)),
        Some(("check", checked)) => Ok(Request::Check(check_options(checked))),
        Some(("show", shown)) => Ok(Request::Show {
            dictionary: shown.get_str("dict"),
            // It is there: it is required.
            hex: shown.get_str("hex").unwrap_or(""),
        }),
        Some(("encode", _)) => Ok(Request::Encode { reads: READS }),
        _ => Ok(Request::List(plain_listing())),
    }
}
