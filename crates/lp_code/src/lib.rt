//! Programs of stack code: instructions, texts, switches, functions and tables, and when they are sound.
#![tactic(auto)]

pub mod listed;
pub mod name;
pub mod names;
pub mod program;
pub mod slots;
pub mod steps;
pub mod tables;
