//! The program port1-sample, by its words.
#![tactic(auto)]

mod arguments;
mod faults;
mod program;
mod refuse;
mod report;
mod request;

pub use bus_sample::CountedReader;
pub use faults::{FaultOutput, FaultWriter};
pub use program::run;
pub use request::Request;
