//! Watches two lines with a clock each: the controller's, and that of the stations. Their clocks may drift, and stop.
//!
//! The bits of both lines are pushed in their order of arrival. The first line's bits number the places; a bit of the
//! second line stands at the place of the last bit of the first line before it.
#![tactic(auto)]

mod analyser;
mod feed;
pub mod laws;
mod line_bits;
mod parted;
mod run;
mod scan;
mod stretch;

pub use analyser::TwoClockAnalyser;
pub use feed::Arrival;
pub use run::{ClockRun, run_clocks};
