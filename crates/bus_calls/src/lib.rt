//! What the program does: it lists or checks a capture of one line, of two, or of two with a clock each, and encodes
//! lines.
#![tactic(auto)]

mod arrivals;
mod capture_kind;
mod check;
mod encode;
mod list;
mod one_line;
mod packed;
mod reader;
mod report;
mod reporter;
mod run;
mod text;
mod two_lines;

pub use check::check_capture;
pub use encode::encode_frames;
pub use list::list_capture;
