//! Frames on the one stack: how a function is entered, and how it is left.
//!
//! The arguments of a call lie on top of the stack, the last one on top, and become the first locals of the function
//! where they lie. Nothing here looks for a function by its name.
#![tactic(auto)]

pub mod entry;
pub mod leaving;
