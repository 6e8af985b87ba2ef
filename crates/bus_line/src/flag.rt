//! The flag.

/// A flag (ISO/IEC 13239, flag sequence).
pub(crate) const FLAG: [bool; 8] = [false, true, true, true, true, true, true, false];
