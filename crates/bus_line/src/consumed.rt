//! What a scan took.

use crate::event::Event;

/// How many bits were taken, and the report that the last of them decides, if there is one.
#[derive(Clone, Copy, Debug, PartialEq, Eq)]
pub struct Consumed {
    /// How many bits were taken.
    pub count: usize,
    /// What the last of them decides.
    pub event: Option<Event>,
}
