//! The lines of the bits that are 1.

ghost use Rattle.std.specs.Prelude.{◌≡◌, ◌+◌, ◌≤◌, List, ℕ, Option, ◌++◌, length};
ghost use Rattle.std.specs.List.{flat_map};
ghost use Rattle.std.specs.Io.KnownBytes.{Appends};
ghost use Rattle.bus_dictionary.specs.BitName.{named_bit};
ghost use Rattle.bus_text.specs.Show.{name_text};
ghost use Rattle.bus_text.specs.Pages.{Puts};

use crate::line::FrameLine;
use crate::number::push_number;
use crate::put::{ShortWrite, put_line};
use crate::text::push_octets;
use bus_dictionary::{BitName, NameWalk};
use std::io::Write;

/// The line of a named bit.
fn name_line(bit: &BitName) -> FrameLine
    ensures { result.items ≡ name_text (named_bit bit.now) }
{
    let mut line = FrameLine::new();
    push_number(&mut line, u64::from(bit.at));
    line.push(b' ');
    push_octets(&mut line, bit.name.as_str().as_bytes());
    line.push(b'\n');
    line
}

/// Writes a line for each name, after `sent` octets. Returns how many octets went out in all.
pub fn put_names<W: Write>(names: NameWalk<'_>, sent: u128, w: &mut W) -> Result<u128, ShortWrite>
    requires sent { sent ≤ 2000 }
    requires few { length names ≤ 2024 }
    ensures put { (start : Option (List ℕ)) (before : List ℕ) → Appends start (W.contents w.old) before →
        sent ≡ length before
        → Puts start (W.contents w.new) (before ++ flat_map name_text names.entry) result }
{
    let mut written = sent;
    for name in names {
        written = put_line(&name_line(&name), written, w)?;
    }
    Ok(written)
}
