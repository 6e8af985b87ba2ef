//! A sender in a caller's memory.

/// What a sender keeps between two calls. Its layout is that of `c/include/port1.h`.
#[repr(C)]
#[derive(Clone, Copy)]
pub struct Port1Sender {
    /// 1 where the last bits sent are a flag, which may open a frame, and else 0.
    pub behind_flag: u32,
}
