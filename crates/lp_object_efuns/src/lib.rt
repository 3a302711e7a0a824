//! Efuns about the functions of objects, which bring programs into memory.
#![tactic(auto)]

mod asking;
pub mod called;
pub mod exists;
mod functions;
mod names;
mod programs;
