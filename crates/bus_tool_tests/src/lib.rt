//! Tests of the public calls of `bus_tool`: worked examples of listings, lines and the program. They stand apart so
//! that what has the command line is proved without them.
#![tactic(auto)]

#[cfg(test)]
mod arrivals;
#[cfg(test)]
mod encodes;
#[cfg(test)]
mod expect;
#[cfg(test)]
mod listings;
#[cfg(test)]
mod program;
#[cfg(test)]
mod shows;
#[cfg(test)]
mod streams;
#[cfg(test)]
mod summaries;
#[cfg(test)]
mod texts;
#[cfg(test)]
mod worked;
