//! Players in a browser: a WebSocket over any stream, and a wire that has them beside players of telnet.
#![tactic(auto)]

mod door;
mod guest;
mod guests;
mod knocking;
mod pipe;
mod wire;

pub use door::{Door, DoorFault, DoorIn};
pub use knocking::{Greeted, Knocking};
pub use wire::DoorWire;
