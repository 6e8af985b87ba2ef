//! A table of frame types in a caller's memory.

ghost use Rattle.port1_c.specs.Pair.{entries_told};

use bus_dictionary::{Rule, Rules};

/// What a table says of one frame type. Its layout is that of `c/include/port1.h`.
#[repr(C)]
#[derive(Clone, Copy)]
pub struct Port1Entry {
    /// 0 where there is no entry of the type; the rest then means nothing.
    pub known: u8,
    /// How many octets follow the type octet.
    pub length: u8,
    /// 0 where commands of the type are not to be answered.
    pub answered: u8,
    /// Not read.
    pub spare: u8,
    /// Within how many bits the answer is to begin, or 0 where that is not said.
    pub window: u32,
}

/// A table, whose entries are those of the types 0, 1, and so on.
#[derive(Drop)]
pub(crate) struct Table<'a> {
    pub(crate) entries: &'a [Port1Entry],
}

impl Rules for Table<'_> {
    ghost entries = { λ table. entries_told 0 table.entries.now };

    fn rule(&self, ftype: u8) -> Option<Rule> {
        match self.entry(ftype) {
            Some(entry) if entry.known != 0 => Some(entry.rule()),
            _ => None,
        }
    }
}

impl Table<'_> {
    ghost use Rattle.std.specs.Prelude.{◌≡◌, slice_get};

    /// The entry of a type, which may say that the type is not known. Not by `get`, as in `word.rt`.
    fn entry(&self, ftype: u8) -> Option<Port1Entry>
        ensures { result ≡ slice_get self.now.entries.now ftype }
    {
        let index = usize::from(ftype);
        if index < self.entries.len() {
            Some(self.entries[index])
        } else {
            None
        }
    }
}

impl Port1Entry {
    ghost use Rattle.std.specs.Prelude.{◌≡◌};
    ghost use Rattle.port1_c.specs.Pair.{rule_told};

    /// What the entry says.
    fn rule(self) -> Rule
        ensures { result ≡ rule_told self }
    {
        Rule {
            size: self.length,
            answered: self.answered != 0,
            window: if self.window == 0 {
                None
            } else {
                Some(self.window)
            },
        }
    }
}
