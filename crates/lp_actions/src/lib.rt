//! Actions of living objects, and the parts of a command.
#![tactic(auto)]

pub mod actions;
pub mod reach;
pub mod sentence;
