//! One happening of a served run: of its players, or of the clock.
#![tactic(auto)]

pub mod server;

pub use server::{End, Server};
