//! Connections: what a wire gives, what it takes, what is pending for a connection, and what is heard of it all.
#![tactic(auto)]

pub mod happening;
pub mod laws;
pub mod memory;
pub mod none;
pub mod outbox;
pub mod wire;

pub use happening::{Happening, WireCall};
pub use laws::texts_are_outputs;
pub use memory::MemWire;
pub use none::NoWire;
pub use outbox::Outbox;
pub use wire::{Wire, WireError};
