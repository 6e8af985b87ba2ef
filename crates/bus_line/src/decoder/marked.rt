//! Bits of which some are to be left out.

ghost use Rattle.std.specs.Prelude.{◌≡◌, ◌≤◌, ◌<◌, ◌^◌, bit_and};
ghost use Rattle.bus_bits.specs.Octet.{bits_of};
ghost use Rattle.bus_line.specs.Internal.Settled.{kept};

/// Data bits, at most 56, the first lowest.
#[derive(Clone, Copy)]
pub(crate) struct Bits {
    pub(crate) bits: u64,
    pub(crate) count: u64,
    ghost few: { count ≤ 56 },
    ghost small: { bits < 2 ^ count },
}

/// Bits, the first lowest, and marks on some of their 0s.
#[derive(Clone, Copy)]
pub(crate) struct Marked {
    pub(crate) bits: u64,
    /// 1 at the place of each bit that is marked.
    pub(crate) marks: u64,
    pub(crate) count: u64,
    ghost few: { count ≤ 56 },
    ghost small: { bits < 2 ^ count },
    ghost marked: { marks < 2 ^ count },
    ghost zeros: { bit_and bits marks ≡ 0 },
}

impl Marked {
    /// The lowest `count` of these bits. Those that are marked stay among them, as 0s.
    #[inline(always)]
    pub(crate) fn of(bits: u64, marks: u64, count: u64) -> Marked
        requires few { count ≤ 56 }
        requires marked { marks < 2 ^ count }
        ensures same { kept result.bits result.marks result.count ≡ kept bits marks count }
        ensures count { result.count ≡ count }
    {
        let all = (1 << count) - 1;
        Marked {
            bits: bits & all & !marks,
            marks,
            count,
        }
    }

    /// The bits without the lowest that is marked, if there is one, found without a branch, since
    /// the line's data decide whether one is.
    #[inline(always)]
    pub(crate) fn without_lowest(self) -> Marked
        ensures same { kept result.bits result.marks result.count ≡ kept self.bits self.marks self.count }
        ensures few { result.count ≤ self.count }
    {
        let Marked { bits, marks, count } = self;
        // 1 at the places below the lowest mark, and at other marks; everywhere, where there is no mark
        let less = marks.wrapping_sub(1);
        Marked {
            // The bits below the mark are doubled and then halved, and those above it halved.
            bits: (bits + (bits & less)) >> 1,
            marks: (marks & less) >> 1,
            count: count - u64::from(marks != 0),
        }
    }

    /// The bits that are not marked.
    #[inline(always)]
    pub(crate) fn unmarked(self) -> Bits
        ensures value { bits_of result.count result.bits ≡ kept self.bits self.marks self.count }
        ensures few { result.count ≤ self.count }
    {
        let Marked {
            mut bits,
            mut marks,
            count,
        } = self;
        // Mostly no mark is left, and then nothing moves.
        if marks == 0 {
            return Bits { bits, count };
        }
        let mut out = 0;
        while marks != 0 {
            let less = marks - 1;
            // The bits below the lowest mark move up by one place, onto it.
            bits += bits & less;
            marks &= less;
            out += 1;
        }
        Bits {
            bits: bits >> out,
            count: count - out,
        }
    }
}
