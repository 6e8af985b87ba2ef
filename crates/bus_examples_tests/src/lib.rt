//! Tests of the examples. They stand apart so that the gate proves these once.
#![tactic(auto)]

#[cfg(test)]
mod examples;
#[cfg(test)]
mod expect;
