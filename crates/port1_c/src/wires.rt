//! The wires of a recording, in a caller's memory.

ghost use Rattle.std.specs.Prelude.{◌≡◌};
ghost use Rattle.port1_c.specs.Tap.{wire_told, wires_told};

use bus_tap::{Wire, Wires};

/// A wire. Its layout is that of `c/include/port1.h`.
#[repr(C)]
#[derive(Clone, Copy)]
pub struct Port1Wire {
    /// 0 where there is none; the rest then means nothing.
    pub used: u8,
    /// Its bit of a sample, the lowest 0.
    pub number: u8,
    /// 0 unless its level is the other one.
    pub inverted: u8,
    /// Not read.
    pub spare: u8,
}

/// The wires of two lines. The layout is that of `c/include/port1.h`.
#[repr(C)]
#[derive(Clone, Copy)]
pub struct Port1Wires {
    pub first_clock: Port1Wire,
    pub first_data: Port1Wire,
    pub second_clock: Port1Wire,
    pub second_data: Port1Wire,
}

impl Port1Wire {
    /// The wire, if there is one.
    fn wire(self) -> Option<Wire>
        ensures { result ≡ wire_told self }
    {
        if self.used == 0 {
            return None;
        }
        Some(Wire {
            number: self.number,
            is_inverted: self.inverted != 0,
        })
    }
}

impl Port1Wires {
    /// The wires.
    pub(crate) fn wires(&self) -> Wires
        ensures { result ≡ wires_told self.now }
    {
        Wires {
            first_clock: self.first_clock.wire(),
            first_data: self.first_data.wire(),
            second_clock: self.second_clock.wire(),
            second_data: self.second_data.wire(),
        }
    }
}
