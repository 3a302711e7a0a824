//! What the definitions of lines come to.
ghost use Rattle.lp_telnet.specs.Lines.{PlainLinesComeWhole};

/// A line of plain bytes with 13 10 behind it comes as it is, and the rest of the stream is read as
/// a stream of its own.
pub fn law_plain_line()
    ensures { PlainLinesComeWhole }
{}
