//! The initialisers of a version's program, and of the parts of an object's program.
//!
//! They are the last row of a program's functions, and no function of its text. What is looked at comes into memory before.
#![tactic(auto)]

pub mod bringing;
pub mod looking;
pub mod parts;
pub mod rows;
