//! The octets of a piece in a caller's memory.

ghost use Rattle.std.specs.Prelude.{◌≡◌, replicate, take};

use bus_line::FrameBuffer;

/// The octets of a piece, and beside them the register of their check. The layout is that of `c/include/port1.h`.
#[repr(C)]
#[derive(Drop)]
pub struct LentFrame {
    /// How many octets there are in whole words of the piece, or of the frame before it until the first word is full.
    pub len: u32,
    /// Not read.
    pub spare: u16,
    /// The register of their check.
    pub register: u16,
    /// The octets, at most 258; those after them are scratch space.
    pub octets: [u8; 272],
}

impl LentFrame {
    /// No octets.
    pub(crate) fn new() -> Self
        ensures { result ≡ record { len = 0; spare = 0; register = 0; octets = replicate 272 0 } }
    {
        LentFrame {
            len: 0,
            spare: 0,
            register: 0,
            octets: [0; 272],
        }
    }
}

impl FrameBuffer for LentFrame {
    ghost octets = { λ frame. take frame.len frame.octets };

    #[inline(always)]
    fn clear(&mut self) {
        self.len = 0;
    }

    #[inline(always)]
    fn len(&self) -> usize {
        self.len as usize
    }

    #[inline(always)]
    fn push(&mut self, octet: u8) {
        self.octets[self.len as usize] = octet;
        self.len += 1;
    }

    #[inline(always)]
    fn push_four(&mut self, four: &[u8; 4]) {
        let len = self.len as usize;
        self.octets[len..len + 4].copy_from_slice(four);
        self.len += 4;
    }

    #[inline(always)]
    fn push_eight(&mut self, word: &[u8; 8]) {
        let len = self.len as usize;
        self.octets[len..len + 8].copy_from_slice(word);
        self.len += 8;
    }
}
