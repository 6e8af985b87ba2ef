//! Laws over the definitions.

ghost use Rattle.port1_c.specs.Send.{IdlesAreReadBack};

use bus_line::laws::line_is_read_back;

/// What [`port1_send_align`](crate::port1_send_align) sends after frames is read back as one idle.
pub fn idles_are_read_back()
    ensures { IdlesAreReadBack }
{
    line_is_read_back();
}
