//! What a call returns. The numbers are those of `c/include/port1.h`, with PORT1_ before each name.

/// The call did what it says.
pub(crate) const OK: u32 = 0;

/// A length is out of range.
pub(crate) const BAD_LENGTH: u32 = 1;

/// A place would be out of range.
pub(crate) const PLACE_LIMIT: u32 = 2;

/// The memory holds no decoder or no sender.
pub(crate) const BAD_STATE: u32 = 3;

/// An argument is out of range.
pub(crate) const BAD_ARGUMENT: u32 = 4;

/// There is no room for the bits.
pub(crate) const NO_ROOM: u32 = 5;
