//! Tests of the program `port1-sample`: samples as its reader gives them, and writers without room. They stand apart so
//! that what has its command line is proved without them.
#![tactic(auto)]

#[cfg(test)]
mod expect;
#[cfg(test)]
mod samples;
