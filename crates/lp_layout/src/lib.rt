//! The tables of a version, and the faults of their layout.
#![tactic(auto)]

pub mod fault;
mod faults;
pub mod layout;
mod nomask;
mod origin;
mod own;
pub mod piece;
mod pieces;
mod rows;
mod shown;
pub mod source;
mod spelled;
mod standing;
mod tables;
mod variables;
