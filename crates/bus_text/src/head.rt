//! What the head of a frame says.

ghost use Rattle.std.specs.Prelude.{◌≡◌, ◌+◌, ◌≤◌, length};
ghost use Rattle.arrayvec.specs.ArrayVec.{array_vec_len};
ghost use Rattle.bus_dictionary.specs.Dictionary.{entry_at};
ghost use Rattle.bus_text.specs.HeadText.{name_of, typed_text, head_text};
ghost use Rattle.bus_text.specs.Advances.{AdvancesText};

use crate::line::push_station;
use crate::number::push_octet_number;
use crate::text::push_octets;
use arrayvec::ArrayVec;
use bus_dictionary::{Dictionary, Standing};

/// The name of a type that the dictionary has.
#[inline(always)]
fn type_name(dictionary: &Dictionary, ftype: u8) -> &str
    ensures value { result.now ≡ name_of (entry_at ftype dictionary.now) }
    ensures len { length result.now ≤ 40 }
{
    match dictionary.entry(ftype) {
        Some(entry) => entry.name(),
        None => "",
    }
}

/// Appends a station, a type, and what is said of them.
#[inline(always)]
fn push_typed<const N: usize>(text: &mut ArrayVec<u8, N>, station: u8, ftype: u8, what: &str)
    requires room { array_vec_len text.old + 61 ≤ N }
    requires short { length what.now ≤ 40 }
    ensures { AdvancesText text.old (typed_text station ftype what.now) 61 text.new }
{
    push_station(text, station, ftype);
    text.push(b' ');
    push_octets(text, what.as_bytes());
}

/// Appends what the head of a frame says.
#[inline(always)]
pub(crate) fn push_head<const N: usize>(
    text: &mut ArrayVec<u8, N>,
    standing: Standing,
    dictionary: &Dictionary,
)
    requires { array_vec_len text.old + 61 ≤ N }
    ensures { AdvancesText text.old (head_text standing dictionary.now) 61 text.new }
{
    match standing {
        Standing::Known { station, ftype } => {
            push_typed(text, station, ftype, type_name(dictionary, ftype));
        }
        Standing::Unknown { station, ftype } => push_typed(text, station, ftype, "unknown"),
        Standing::WrongLength { station, ftype } => push_typed(text, station, ftype, "length"),
        Standing::OtherControl { control, .. } => {
            push_octets(text, b"control ");
            push_octet_number(text, control);
        }
        Standing::Untyped { .. } => push_octets(text, b"untyped"),
    }
}
