//! Lines and texts of a WebSocket, beside the bytes of a telnet stream.
#![tactic(auto)]

mod laws;
mod line;
mod message;

pub use laws::{lines_are_read, messages_show_outputs};
pub use line::{line_of, wire_of};
pub use message::message_of;
