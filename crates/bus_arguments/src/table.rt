//! Tables of arguments.

use clap::builder::ValueParser;
use clap::{Arg, ArgAction, Command, Error};
use std::alloc::{AllocError, Global};

/// What an argument takes.
#[derive(Clone, Copy)]
pub enum Takes {
    /// Nothing: it is a flag.
    Nothing,
    /// Any text.
    Text,
    /// A number, the least and the most.
    Number(u64, u64),
}

/// An argument of a command line.
#[derive(Clone, Copy)]
pub struct ArgumentRow {
    pub name: &'static str,
    /// Whether it is known by its place alone, without a long name.
    pub is_positional: bool,
    pub is_required: bool,
    pub takes: Takes,
    /// What the help text calls its value.
    pub values: &'static [&'static str],
    /// Its value where it is left out.
    pub defaults: &'static [&'static str],
    /// The arguments that must not stand beside it.
    pub conflicts: &'static [&'static str],
    /// The arguments that must stand beside it.
    pub needs: &'static [&'static str],
    pub help: &'static str,
}

/// A flag without a name.
pub const FLAG: ArgumentRow = ArgumentRow {
    name: "",
    is_positional: false,
    is_required: false,
    takes: Takes::Nothing,
    values: &[],
    defaults: &[],
    conflicts: &[],
    needs: &[],
    help: "",
};

/// An option with a number.
pub const NUMBER: ArgumentRow = ArgumentRow {
    takes: Takes::Number(0, u64::MAX),
    values: &["N"],
    ..FLAG
};

/// An option with a text.
pub const TEXT: ArgumentRow = ArgumentRow {
    takes: Takes::Text,
    ..FLAG
};

/// The command with the arguments of a table.
pub fn with_arguments<'a>(
    alloc: Global,
    command: Command<'a>,
    rows: &[ArgumentRow],
) -> Result<Command<'a>, Error> {
    let mut args: Vec<Arg<'a>> = Vec::new(alloc);
    for row in rows {
        args.push(argument(alloc, row)?)?;
    }
    Ok(command.args(args)?)
}

/// An argument by its row.
fn argument<'a>(alloc: Global, row: &ArgumentRow) -> Result<Arg<'a>, AllocError> {
    let arg = Arg::new(alloc, row.name)
        .required(row.is_required)
        .value_names(row.values)
        .default_values(row.defaults)
        .help(row.help);
    taking(named(arg, row), row.takes)
        .conflicts_with_all(row.conflicts)?
        .requires_all(row.needs)
}

fn named<'a>(arg: Arg<'a>, row: &ArgumentRow) -> Arg<'a> {
    if row.is_positional {
        return arg;
    }
    arg.long(row.name)
}

fn taking<'a>(arg: Arg<'a>, takes: Takes) -> Arg<'a> {
    match takes {
        Takes::Nothing => arg.action(ArgAction::SetTrue),
        Takes::Text => arg.action(ArgAction::Set),
        Takes::Number(least, most) => arg
            .action(ArgAction::Set)
            .value_parser(ValueParser::unsigned(least, most)),
    }
}
