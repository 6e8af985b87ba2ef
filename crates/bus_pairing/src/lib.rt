//! What the reports of a line say of the talk on it: which frames are commands and which answer them (NEMA TS 2,
//! section 3.3), the verdicts of each station, the last frames, and who is told.
//!
//! [`Pairing`] pairs commands with answers by rules in any memory; [`Conversation`] also keeps the verdicts and the
//! last frames. Both are given reports, of one line or of two in the order in which they are decided, and know nothing
//! of bits. What they see is a [`SeenEvent`], and with a frame's octets a [`Seen`]; sinks take these one after another.
//! `pair_reports` of the crate `bus_examples` gives a conversation the reports of a decoder of one's own.
#![tactic(auto)]

mod conversation;
mod counts;
mod ending;
mod kept;
mod line;
mod logged_report;
mod outcome;
mod pair_ending;
mod pair_kept;
mod pair_log;
mod pair_sink;
mod pairing;
mod pending;
mod report_log;
mod report_sink;
mod seen;
mod seen_event;
mod verdict;

pub use bus_bits::Span;
pub use bus_line::{Line, SinkRefused};
pub use conversation::Conversation;
pub use counts::Counts;
pub use ending::Ending;
pub use kept::Kept;
pub use logged_report::{LoggedPiece, LoggedReport};
pub use outcome::Outcome;
pub use pair_ending::PairEnding;
pub use pair_kept::PairKept;
pub use pair_log::{PairLog, PairLogged};
pub use pair_sink::PairSink;
pub use pairing::Pairing;
pub use pending::Pending;
pub use report_log::ReportLog;
pub use report_sink::ReportSink;
pub use seen::Seen;
pub use seen_event::SeenEvent;
pub use verdict::Verdict;
