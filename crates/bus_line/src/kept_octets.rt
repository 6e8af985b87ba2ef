//! The octets of a frame that is kept.

ghost use Rattle.std.specs.Prelude.{◌≡◌, ◌+◌, ◌≤◌, ◌<◌, ◌^◌, ℕ, List, [], length};
ghost use Rattle.bus_line.specs.Limits.{most_octets};

use arrayvec::ArrayVec;
use std::alloc::Global;
use std::marker::Model;

/// Counts the octets that are copied into a history.
#[derive(Drop)]
pub struct CopyCount {
    octets: u64,
}

impl Model for CopyCount {
    ghost Value = { ℕ };

    ghost view = { λ count. count.octets };
}

impl CopyCount {
    /// No octets. It is made with the history, by its allocator: calls that are given none can make no second count.
    pub fn new(_alloc: Global) -> Self
        ensures { result ≡ 0 }
    {
        CopyCount { octets: 0 }
    }

    /// How many octets were copied.
    #[inline(always)]
    pub fn octets(&self) -> u64
        ensures { result ≡ self.now }
    {
        self.octets
    }
}

/// The octets of a frame that is kept. [`KeptOctets::copy_from`] alone writes them, and counts each.
#[derive(Debug, Drop)]
pub struct KeptOctets {
    octets: ArrayVec<u8, 258>,
}

impl Model for KeptOctets {
    ghost Value = { List ℕ };

    ghost view = { λ kept. kept.octets.items };
}

impl KeptOctets {
    /// No octets.
    #[inline(always)]
    pub fn new() -> Self
        ensures { result ≡ [] }
    {
        KeptOctets {
            octets: ArrayVec::new(),
        }
    }

    /// Copies octets here, in place of those before, a step of `copied` for each.
    #[inline(always)]
    pub fn copy_from(&mut self, octets: &[u8], copied: &mut CopyCount)
        requires fits { length octets.now ≤ most_octets }
        requires room { copied.old + length octets.now < 2 ^ 64 }
        ensures octets { self.new ≡ octets.now }
        ensures copied { copied.new ≡ copied.old + length octets.now }
    {
        self.octets.clear();
        if self.octets.try_extend_from_slice(octets).is_err() {
            unreachable!();
        }
        copied.octets += octets.len() as u64;
    }

    /// The octets.
    pub fn as_slice(&self) -> &[u8]
        ensures value { result.now ≡ self.now }
        ensures fits { length result.now ≤ most_octets }
    {
        self.octets.as_slice()
    }
}
