//! The verifier of stack code.
#![tactic(auto)]

mod body;
mod effect;
pub mod fault;
mod flow;
mod leave;
mod openings;
mod owners;
mod rows;
mod seen;
mod solve;
mod stand;
mod tables;
pub mod verify;
mod walk;
