//! Where the octets of a piece are kept.

ghost use Rattle.std.specs.Prelude.{◌≡◌, ◌+◌, ◌≤◌, ◌<◌, ℕ, List, [], ◌∷◌, ◌++◌, length};
ghost use Rattle.bus_line.specs.Limits.{most_octets};

use arrayvec::ArrayVec;

/// The octets of a piece: at most those of the longest frame and of its check.
pub trait FrameBuffer {
    /// The octets.
    ghost octets: { Self → List ℕ };

    /// Empties it.
    fn clear(&mut self)
        ensures { octets self.new ≡ [] };

    /// How many octets it has.
    fn len(&self) -> usize
        requires { length (octets self.now) ≤ most_octets }
        ensures { result ≡ length (octets self.now) };

    /// Appends an octet.
    fn push(&mut self, octet: u8)
        requires { length (octets self.old) < most_octets }
        ensures { octets self.new ≡ octets self.old ++ octet ∷ [] };

    /// Appends four octets.
    fn push_four(&mut self, four: &[u8; 4])
        requires { length (octets self.old) + 4 ≤ most_octets }
        ensures { octets self.new ≡ octets self.old ++ four.now };

    /// Appends eight octets.
    fn push_eight(&mut self, word: &[u8; 8])
        requires { length (octets self.old) + 8 ≤ most_octets }
        ensures { octets self.new ≡ octets self.old ++ word.now };
}

impl FrameBuffer for ArrayVec<u8, 258> {
    ghost octets = { λ frame. frame.items };

    #[inline(always)]
    fn clear(&mut self) {
        self.truncate(0);
    }

    #[inline(always)]
    fn len(&self) -> usize {
        self.as_slice().len()
    }

    #[inline(always)]
    fn push(&mut self, octet: u8) {
        ArrayVec::push(self, octet);
    }

    #[inline(always)]
    fn push_four(&mut self, four: &[u8; 4]) {
        if self.try_extend_from_slice(four).is_err() {
            unreachable!();
        }
    }

    #[inline(always)]
    fn push_eight(&mut self, word: &[u8; 8]) {
        if self.try_extend_from_slice(word).is_err() {
            unreachable!();
        }
    }
}
