//! One instruction on the live state.
//!
//! Each instruction is one function over what it touches, whose clause is its row of the instruction table, in
//! every world for which the state stands (`specs/Steps.antt`).
#![tactic(auto)]

pub mod binaries;
pub mod calls;
pub mod copies;
pub mod counting;
pub mod fault;
pub mod globals;
pub mod indexing;
pub mod integers;
pub mod jumps;
pub mod literals;
pub mod next;
pub mod pushes;
pub mod ranges;
pub mod rotation;
pub mod scans;
pub mod stack;
pub mod step;
pub mod switches;
pub mod turns;
pub mod unaries;
pub mod worked;
pub mod writes;
