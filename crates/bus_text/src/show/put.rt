//! Writes what a frame is.

ghost use Rattle.std.specs.Prelude.{◌≡◌, ◌≤◌, ◌++◌, length, take, codes, OnOk, IfOk, IfErr};
ghost use Rattle.std.specs.Io.KnownBytes.{Appends};
ghost use Rattle.bus_line.specs.Limits.{most_octets};
ghost use Rattle.bus_text.specs.Pages.{Puts};
ghost use Rattle.bus_text.specs.Show.{frame_text, shown_text};
ghost use Rattle.bus_text.specs.HeadText.{head_text};

use crate::head::push_head;
use crate::hex_digits::push_hex;
use crate::line::FrameLine;
use crate::put::{ShortWrite, put_line};
use crate::show::names::put_names;
use crate::text::push_octets;
use bus_dictionary::{Dictionary, Standing, set_names};
use bus_fcs::{OctetCheck, fcs_is_good};
use std::io::Write;

/// The first line: the octets, and whether their check is good.
fn frame_line(octets: &[u8]) -> FrameLine
    requires at_least { 4 ≤ length octets.now }
    requires at_most { length octets.now ≤ most_octets }
    ensures { result.items ≡ frame_text octets.now }
{
    let mut line = FrameLine::new();
    push_octets(&mut line, b"frame ");
    push_hex(&mut line, octets);
    if fcs_is_good::<OctetCheck>(octets) {
        push_octets(&mut line, b" good\n");
    } else {
        push_octets(&mut line, b" bad\n");
    }
    line
}

/// The second line: what the head says.
fn head_line(standing: Standing, dictionary: &Dictionary) -> FrameLine
    ensures { result.items ≡ head_text standing dictionary.now ++ codes "\n" }
{
    let mut line = FrameLine::new();
    push_head(&mut line, standing, dictionary);
    line.push(b'\n');
    line
}

/// Writes the two lines that each frame has. Returns how many octets went out.
fn put_front<W: Write>(
    octets: &[u8],
    standing: Standing,
    dictionary: &Dictionary,
    w: &mut W,
) -> Result<u128, ShortWrite>
    requires at_least { 4 ≤ length octets.now }
    requires at_most { length octets.now ≤ most_octets }
    ensures put { Puts (W.contents w.old) (W.contents w.new)
        (frame_text octets.now ++ (head_text standing dictionary.now ++ codes "\n")) result }
    ensures few { IfOk result (λ sent. sent ≤ 1280) }
{
    let sent = put_line(&frame_line(octets), 0, w)?;
    put_line(&head_line(standing, dictionary), sent, w)
}

/// Writes all lines of a frame, without the flush. Returns how many octets went out.
fn put_lines<W: Write>(
    octets: &[u8],
    dictionary: &Dictionary,
    w: &mut W,
) -> Result<u128, ShortWrite>
    requires at_least { 4 ≤ length octets.now }
    requires at_most { length octets.now ≤ most_octets }
    ensures { Puts (W.contents w.old) (W.contents w.new) (shown_text octets.now dictionary.now) result }
{
    let standing = Standing::read(octets, dictionary);
    let sent = put_front(octets, standing, dictionary, w)?;
    let Standing::Known { ftype, .. } = standing else {
        return Ok(sent);
    };
    match dictionary.entry(ftype) {
        Some(entry) => put_names(set_names(entry, &octets[3..octets.len() - 2]), sent, w),
        None => Ok(sent),
    }
}

/// Writes what a frame is, and flushes.
pub fn put_frame<W: Write>(
    octets: &[u8],
    dictionary: &Dictionary,
    w: &mut W,
) -> Result<(), ShortWrite>
    requires at_least { 4 ≤ length octets.now }
    requires at_most { length octets.now ≤ most_octets }
    ensures whole { OnOk result (Appends (W.contents w.old) (W.contents w.new) (shown_text octets.now dictionary.now)) }
    ensures part { IfErr result
        (λ cut. Appends (W.contents w.old) (W.contents w.new) (take cut.sent (shown_text octets.now dictionary.now))) }
    ensures short { IfErr result (λ cut. cut.sent ≤ length (shown_text octets.now dictionary.now)) }
{
    let sent = put_lines(octets, dictionary, w)?;
    w.flush().map_err(|_| ShortWrite { sent })
}
