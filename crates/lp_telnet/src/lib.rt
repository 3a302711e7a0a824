//! The lines of a telnet stream.
#![tactic(auto)]

pub mod command;
pub mod law;
pub mod telnet;

pub use telnet::Telnet;
