//! What the definitions of lines and messages come to.
ghost use Rattle.lp_door.specs.Doors.{LinesAreRead, MessagesShowOutputs};

/// A telnet reader at the begin of a line that is fed the bytes of the line of a text message gives exactly that line, and is at the
/// begin of a line again.
#[tactic(auto, using(crate::proofs::Reading::lines_read))]
pub fn lines_are_read()
    ensures { LinesAreRead }
{}

/// The message of the bytes of whole outputs is their text, with a mark where input is to be hidden or shown.
#[tactic(auto, using(crate::proofs::Showing::outputs_shown))]
pub fn messages_show_outputs()
    ensures { MessagesShowOutputs }
{}
