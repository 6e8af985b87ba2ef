//! Tests of the public calls of `bus_bits`, `bus_formats` and `bus_fcs`. They stand apart so that the gate proves each
//! library once.
#![tactic(auto)]

#[cfg(test)]
mod arrivals;
#[cfg(test)]
mod bits;
#[cfg(test)]
mod expect;
#[cfg(test)]
mod fcs;
#[cfg(test)]
mod pairs;
