//! Examples of the libraries, proved like all the rest: the frames of a buffer, what is seen on a line, the reports of
//! a decoder of your own, and the bits of a frame.
#![tactic(auto)]

mod frames;
mod live;
mod pairing;
mod reading;
mod sending;
mod watching;

pub use frames::{CountFault, count_frames};
pub use live::{closes_frame_of, unanswered};
pub use pairing::{PairFault, Received, pair_reports};
pub use reading::asks_for_answer;
pub use sending::{FrameBits, frame_bits};
pub use watching::{WatchFault, watch};
