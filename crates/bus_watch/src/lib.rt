//! Watches a line: which frames passed, which were damaged, and which station failed to answer.
//!
//! An analyser takes bits one by one, or many at once. This takes one, and returns the station whose
//! command it shows to have no answer in time:
//!
//! ```rust
//! let Some(seen) = analyser.push(bit)? else {
//!     return Ok(None);
//! };
//! Ok(station_without_answer(seen.verdict))
//! ```
//!
//! The crate `bus_examples` has this whole, and how to make an analyser and list what it sees.
#![tactic(auto)]

mod analyser;
mod decode;
mod fault;
mod feed;
mod feed_all;
pub mod laws;
mod observer;
mod pair;
mod run;
mod usage;

pub use analyser::Analyser;
pub use bus_pairing::{
    Counts, Ending, Kept, Line, LoggedPiece, LoggedReport, Outcome, PairEnding, PairKept, PairLog,
    PairLogged, PairSink, Pairing, Pending, ReportLog, ReportSink, Seen, SeenEvent, SinkRefused,
    Span, Verdict,
};
pub use decode::{newest, observe_bits, show};
pub use fault::{FeedFault, NewFault, RunFault};
pub use observer::ReportObserver;
pub use pair::{PairAnalyser, PairRun, PairSeen, PairUsage, run_pairs};
pub use run::{Run, reports_of, run_all};
pub use usage::Usage;
