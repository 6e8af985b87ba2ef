//! What each of two lines carries.

ghost use Rattle.std.specs.Prelude.{◌≡◌};
ghost use Rattle.bus_pairing.specs.History.{line_of};
ghost use Rattle.bus_pairing.specs.Talk.{carries_commands, carries_answers};

use bus_line::Line;

/// Whether commands wait on this line; `None` is the only line.
#[inline(always)]
pub(crate) fn carries_commands(line: Option<Line>) -> bool
    ensures { result ≡ carries_commands line }
{
    !matches!(line, Some(Line::Second))
}

/// Whether answers come on this line; `None` is the only line.
#[inline(always)]
pub(crate) fn carries_answers(line: Option<Line>) -> bool
    ensures { result ≡ carries_answers line }
{
    !matches!(line, Some(Line::First))
}

/// The line that a frame is kept with; the only line counts as the first.
#[inline(always)]
pub(crate) fn kept_line(line: Option<Line>) -> Line
    ensures { result ≡ line_of line }
{
    line.unwrap_or(Line::First)
}
