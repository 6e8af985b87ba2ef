//! The command line of `port1`, and tables of arguments.
#![tactic(auto)]

mod arguments;
mod request;
pub mod table;

pub use arguments::{Refusal, read_arguments};
pub use request::Request;
