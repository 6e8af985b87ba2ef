//! Tests of the public calls of `bus_clocks` and `bus_tap`: two lines with a clock each, and their samples. They stand
//! apart so that the gate proves each library once.
#![tactic(auto)]

#[cfg(test)]
mod clocks;
#[cfg(test)]
mod expect;
