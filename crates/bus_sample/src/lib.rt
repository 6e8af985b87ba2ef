//! The bits of the bus from the recording of a logic analyser: its samples are read, and the bits written as text in
//! the order in which they arrive.
#![tactic(auto)]

mod facts;
mod fault;
pub mod laws;
mod marks;
mod options;
mod reader;
mod recording_reader;
mod sample;

pub use facts::put_facts;
pub use fault::SampleFault;
pub use options::{Form, SampleOptions};
pub use recording_reader::{CountedReader, ReadFailed, RecordingReader};
pub use sample::sample_recording;
