//! Moves of objects on the live state, with the calls of `init` that follow them.
#![tactic(auto)]

pub mod fault;
pub mod moving;
pub mod reach;
pub mod visits;
