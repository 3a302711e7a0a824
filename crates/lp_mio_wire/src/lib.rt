//! A wire over sockets of this machine alone: players at one port, or at one for WebSockets, the operator at another, and the clock.
#![tactic(auto)]

mod connection;
mod door;
mod entrances;
mod ring;
mod sockets;
mod wire;

pub use entrances::Entrances;
pub use wire::{ListenFault, MioWire};
