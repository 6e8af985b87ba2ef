//! A law over the definitions.

ghost use Rattle.bus_sample.specs.Laws.{TextIsReadBack};

/// The text of arrivals is a capture of exactly these, without a fault.
pub fn text_is_read_back()
    ensures { TextIsReadBack }
{}
