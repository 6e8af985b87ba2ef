//! Worked lists of bits, as they are seen, and the limits of the analyser.

mod counters;
mod limits;
mod memory;
mod rows;
mod runs;
mod sinks;
mod table;

use bus_dictionary::Dictionary;
use bus_fcs::Check;
use bus_watch::Analyser;
use std::alloc::Global;
use std::process::Abort;

/// The dictionary of a text.
fn read(rt: &impl Abort, alloc: Global, text: &str) -> Dictionary {
    Dictionary::read(alloc, text).expect(rt, "a dictionary")
}

/// The bits of words.
fn bits_of(rt: &impl Abort, alloc: Global, words: &str) -> Vec<bool> {
    bus_rows::bits_of(alloc, words).expect(rt, "memory")
}

/// An analyser of the dictionary of a text, with a history of `depth` frames, whose first bit has the place `origin`.
fn new_analyser<C: Check>(
    rt: &impl Abort,
    alloc: Global,
    text: &str,
    depth: usize,
    origin: u64,
) -> Analyser<C> {
    Analyser::new(alloc, read(rt, alloc, text), depth, origin).expect(rt, "an analyser")
}
