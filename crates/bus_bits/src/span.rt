//! Spans of bit places.

/// The bits from place `first` up to but not including place `past`. The first bit received has the place of the
/// origin, each later one the next place.
#[derive(Clone, Copy, Debug, PartialEq, Eq)]
pub struct Span {
    /// The place of the first bit.
    pub first: u64,
    /// The place just past the last bit.
    pub past: u64,
}
