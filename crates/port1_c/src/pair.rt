//! A command that waits, in a caller's memory.

ghost use Rattle.std.specs.Prelude.{◌≡◌, None};
ghost use Rattle.port1_c.specs.Pair.{no_reports, waiting};

use bus_bits::Span;
use bus_pairing::{Pairing, Pending};

/// What pairing keeps between two calls. Its layout is that of `c/include/port1.h`.
#[repr(C)]
#[derive(Clone, Copy)]
pub struct Port1Pair {
    /// The place of the first bit of the command that waits.
    pub first: u64,
    /// The place just past its last bit.
    pub past: u64,
    /// 0 where no command waits; the rest then means nothing.
    pub waits: u32,
    /// The station that is asked.
    pub station: u8,
    /// The frame type of the command.
    pub ftype: u8,
    /// Not read.
    pub spare: u16,
}

impl Port1Pair {
    /// Before any report.
    pub(crate) fn new() -> Self
        ensures { result ≡ no_reports }
    {
        Port1Pair {
            first: 0,
            past: 0,
            waits: 0,
            station: 0,
            ftype: 0,
            spare: 0,
        }
    }

    /// What the memory holds.
    pub(crate) fn load(&self) -> Pairing
        ensures { result.waiting ≡ waiting self.now }
    {
        if self.waits == 0 {
            return Pairing::new();
        }
        let span = Span {
            first: self.first,
            past: self.past,
        };
        Pairing {
            waiting: Some(Pending {
                span,
                station: self.station,
                ftype: self.ftype,
            }),
        }
    }

    /// The memory that holds this.
    pub(crate) fn of(pairing: Pairing) -> Self
        ensures { waiting result ≡ pairing.waiting }
    {
        match pairing.waiting {
            None => Port1Pair::new(),
            Some(pending) => Port1Pair {
                first: pending.span.first,
                past: pending.span.past,
                waits: 1,
                station: pending.station,
                ftype: pending.ftype,
                spare: 0,
            },
        }
    }
}
