//! The arguments of the commands.

use super::help;
use crate::table::{ArgumentRow, FLAG, NUMBER, TEXT, Takes};

const DICTIONARY: ArgumentRow = ArgumentRow {
    name: "dict",
    values: &["TEXT"],
    help: "The text of a dictionary, not the path of its file: write \"$(cat FILE)\"",
    ..TEXT
};

const ORIGIN: ArgumentRow = ArgumentRow {
    name: "origin",
    takes: Takes::Number(0, 1 << 60),
    defaults: &["0"],
    help: "The place of the first bit, 0 to 2^60; places count from it",
    ..NUMBER
};

const BITS: ArgumentRow = ArgumentRow {
    name: "bits",
    help: "The capture is text; without this it is packed",
    ..FLAG
};

const TWO: ArgumentRow = ArgumentRow {
    name: "two",
    help: "The capture is of two lines; without this it is of one",
    ..FLAG
};

const ARRIVALS: ArgumentRow = ArgumentRow {
    name: "arrivals",
    conflicts: &["two"],
    help: "The capture has the bits of two lines with a clock each, as they arrived",
    ..FLAG
};

const REST: ArgumentRow = ArgumentRow {
    name: "rest",
    defaults: &["40"],
    conflicts: &["two"],
    needs: &["arrivals"],
    help: "With --arrivals, the silence after which the second line rests",
    ..NUMBER
};

const DEPTH: ArgumentRow = ArgumentRow {
    name: "depth",
    takes: Takes::Number(1, 1024),
    defaults: &["16"],
    help: "How many of the last frames are shown, 1 to 1024",
    ..NUMBER
};

/// An option that is an octet, as a number.
const OCTET: ArgumentRow = ArgumentRow {
    takes: Takes::Number(0, 255),
    ..NUMBER
};

const STATION: ArgumentRow = ArgumentRow {
    name: "station",
    help: "Only lines of this station, 0 to 255",
    ..OCTET
};

const TYPE: ArgumentRow = ArgumentRow {
    name: "type",
    help: "Only lines of this frame type, 0 to 255",
    ..OCTET
};

const KIND: ArgumentRow = ArgumentRow {
    name: "kind",
    values: &["K"],
    help: help::KIND,
    ..TEXT
};

const HEX: ArgumentRow = ArgumentRow {
    name: "hex",
    is_positional: true,
    is_required: true,
    values: &["HEX"],
    help: "The octets of the frame, its check among them, two digits each",
    ..TEXT
};

/// The arguments of `list`.
pub const LIST: [ArgumentRow; 9] = [
    DICTIONARY, ORIGIN, BITS, TWO, ARRIVALS, REST, STATION, TYPE, KIND,
];

/// The arguments of `check`.
pub const CHECK: [ArgumentRow; 7] = [DICTIONARY, ORIGIN, BITS, TWO, ARRIVALS, REST, DEPTH];

/// The arguments of `show`.
pub const SHOW: [ArgumentRow; 2] = [DICTIONARY, HEX];
