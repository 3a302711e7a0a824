//! From a file to its program.
#![tactic(auto)]

pub mod compile;
mod family;
pub mod fault;
pub mod generate;
mod heights;
pub mod laws;
pub mod loaded;
