//! The public calls of the tool, and the program `port1`.
#![tactic(auto)]

mod program;
mod statuses;

pub use bus_calls::{check_capture, encode_frames, list_capture};
pub use bus_text::{Kind, Lines, Options, Summary, ToolFault, show_frame};
pub use program::run;
