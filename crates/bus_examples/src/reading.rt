//! What a dictionary says of a frame type.

ghost use Rattle.std.specs.Prelude.{◌≡◌};
ghost use Rattle.bus_dictionary.specs.Dictionary.{entry_at};
ghost use Rattle.bus_pairing.specs.Talk.{asks};

use bus_dictionary::Dictionary;

/// Whether commands of a type ask for an answer, by a dictionary; those that it lacks do not.
pub fn asks_for_answer(dictionary: &Dictionary, ftype: u8) -> bool
    ensures { result ≡ asks (entry_at ftype dictionary.now) }
{
    match dictionary.entry(ftype) {
        Some(entry) => entry.answered(),
        None => false,
    }
}
