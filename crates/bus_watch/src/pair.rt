//! Two lines with one clock: the analyser of both, and what it tells.

mod analyser;
mod feed;
mod run;
mod seen;
mod usage;

pub use analyser::PairAnalyser;
pub use run::{PairRun, run_pairs};
pub use seen::PairSeen;
pub use usage::PairUsage;
