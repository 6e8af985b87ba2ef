//! What became of a command.

/// What became of a command that waited for its answer, by the next report that is no idle line; of two
/// lines, the next on either.
#[derive(Clone, Copy, Debug, PartialEq, Eq)]
pub enum Outcome {
    /// It was the answer, in time: a frame of the same station, of a type 128 higher and of the length
    /// that the dictionary gives; of two lines, on the second.
    Answered,
    /// It was any other frame.
    Missing,
    /// It was no frame: a damaged or overlong piece, or an abort.
    Spoilt,
    /// It was the answer, but more bits lay between the two than the window of the command's entry.
    Late,
}
