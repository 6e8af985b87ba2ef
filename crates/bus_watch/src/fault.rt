//! Why an analyser can't be made, and why feeding or a whole run stopped.

/// Why an analyser can't be made, in the order in which it is judged.
#[derive(Clone, Copy, Debug, PartialEq, Eq)]
pub enum NewFault {
    /// The depth of the history is not 1 to 1024 frames.
    DepthRange,
    /// The origin is above 2^60.
    Origin,
    /// Memory was refused for the history.
    Memory,
}

/// Why bits, or pairs of bits, were not all taken.
#[derive(Clone, Copy, Debug, PartialEq, Eq)]
pub enum FeedFault {
    /// Some of the bits, or pairs of bits, would have places of 2^60 or more. Nothing was taken.
    PlaceLimit,
    /// The sink refused a report, or of two lines both reports of one place. The first `consumed` bits,
    /// or pairs of bits, were taken; what was refused of the last of them is lost. Those after them can be
    /// fed next.
    Sink { consumed: usize },
}

/// Why a whole run failed.
#[derive(Clone, Copy, Debug, PartialEq, Eq)]
pub enum RunFault {
    /// The analyser can't be made, or memory was refused.
    New(NewFault),
    /// Some bits would have places past the last, or the sink refused a report.
    Feed(FeedFault),
}
