//! The entries of a dictionary by their types.

ghost use Rattle.bus_dictionary.specs.Internal.TypeNumbers.{Numbers};

use crate::entry::Entry;

/// By type the number of its first entry, counted from 1, and 0 where there is none.
pub(super) fn numbers_of(entries: &[Entry]) -> [usize; 256]
    ensures { Numbers result entries.now entries.now }
{
    let mut numbers = [0; 256];
    let mut number = entries.len();
    while number > 0 {
        numbers[usize::from(entries[number - 1].ftype())] = number;
        number -= 1;
    }
    numbers
}
