//! The dictionary that a user gives as a text.

ghost use Rattle.std.specs.Prelude.{option_map};
ghost use Rattle.bus_text.specs.Show.{Reads};

use crate::fault::ToolFault;
use bus_dictionary::{DictFault, Dictionary};
use std::alloc::Global;

/// The dictionary of a text. Without a text it is empty, and takes no memory.
pub fn read_dictionary(alloc: Global, text: Option<&str>) -> Result<Dictionary, ToolFault>
    ensures { Reads (option_map (λ s. s.now) text.entry) result }
{
    let Some(text) = text else {
        return Ok(Dictionary::empty(alloc));
    };
    match Dictionary::read(alloc, text) {
        Ok(dictionary) => Ok(dictionary),
        Err(DictFault::Memory) => Err(ToolFault::Memory),
        Err(fault) => Err(ToolFault::Dictionary(fault)),
    }
}
