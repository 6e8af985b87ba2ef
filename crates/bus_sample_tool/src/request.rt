//! What is asked for.

use bus_sample::SampleOptions;

/// What is asked for.
#[derive(Clone, Copy)]
pub struct Request {
    pub options: SampleOptions,
    /// Whether facts are told.
    pub tells_facts: bool,
}
