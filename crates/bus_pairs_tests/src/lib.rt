//! Tests of the public calls of `bus_watch` for two lines with one clock. They stand apart so that the gate proves each
//! library once.
#![tactic(auto)]

#[cfg(test)]
mod expect;
#[cfg(test)]
mod pairs;
