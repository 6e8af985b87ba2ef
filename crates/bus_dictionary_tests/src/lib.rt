//! Tests of the public calls of `bus_dictionary`. They stand apart so that the gate proves the library once.
#![tactic(auto)]

#[cfg(test)]
mod dictionary;
#[cfg(test)]
mod expect;
