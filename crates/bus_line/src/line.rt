//! Which of two lines.

/// One of the two lines of a bus.
#[derive(Clone, Copy, Debug, PartialEq, Eq)]
pub enum Line {
    /// The controller's line, on which commands wait for their answers.
    First,
    /// The line on which the stations answer.
    Second,
}
