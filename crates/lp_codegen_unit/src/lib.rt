//! The code of a unit: that of all its functions, with their rows, and of its initialisers.
#![tactic(auto)]

pub mod finish;
mod functions;
mod initialisers;
mod letters;
mod rows;
pub mod slots;
pub mod unit;
