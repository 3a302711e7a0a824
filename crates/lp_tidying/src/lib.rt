//! What is done between turns: what a script names and what is idle goes out, and what ended is forgotten.
#![tactic(auto)]

pub mod counting;
pub mod ended;
pub mod idle;
pub mod naming;
