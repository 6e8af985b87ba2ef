//! What is asked of a dictionary to tell how a frame stands and to pair commands with answers.

ghost use Rattle.std.specs.Prelude.{◌≡◌, List, option_map};
ghost use Rattle.bus_dictionary.specs.Entry.{FrameType};
ghost use Rattle.bus_dictionary.specs.Dictionary.{entry_at};
ghost use Rattle.bus_dictionary.specs.Rule.{rule_of};

use crate::dictionary::Dictionary;

/// What an entry says of frames of its type, without names.
#[derive(Clone, Copy, Debug, PartialEq, Eq)]
pub struct Rule {
    /// How many octets follow the type octet.
    pub size: u8,
    /// Whether a command of this type is to be answered.
    pub answered: bool,
    /// Within how many bits the answer is to begin, where that is said.
    pub window: Option<u32>,
}

/// Rules for frame types: a dictionary, or a table in other memory.
pub trait Rules {
    /// The entries that these rules are of.
    ghost entries: { Self → List FrameType };

    /// The rule for a type, where there is an entry of it.
    fn rule(&self, ftype: u8) -> Option<Rule>
        ensures { result ≡ option_map rule_of (entry_at ftype (entries self.now)) };
}

impl Rules for Dictionary {
    ghost entries = { λ dictionary. dictionary };

    fn rule(&self, ftype: u8) -> Option<Rule> {
        self.entry(ftype).map(|entry| Rule {
            size: entry.length() as u8,
            answered: entry.answered(),
            window: entry.window(),
        })
    }
}
