//! The texts of the tool: the lines of a listing, the report of a check and the text of one frame,
//! and the pages on which they are written.
#![tactic(auto)]

mod dictionary;
mod digits;
mod fault;
mod filter;
mod head;
mod hex_digits;
mod kind;
mod line;
mod number;
mod options;
mod page;
mod places;
mod printer;
mod put;
mod report;
mod show;
mod summary;
mod text;

pub use dictionary::read_dictionary;
pub use digits::{is_hex, octets_of};
pub use fault::ToolFault;
pub use kind::Kind;
pub use number::push_number;
pub use options::{Lines, Options};
pub use page::Page;
pub use printer::Printer;
pub use put::{ShortWrite, put_text};
pub use report::{put_kept, put_summary, put_tally};
pub use show::show_frame;
pub use summary::Summary;
pub use text::push_octets;
