//! What the definition of an expansion promises to those above: laws that no code needs.
#![tactic(auto)]

pub mod answered;
pub mod names;
pub mod signs;
