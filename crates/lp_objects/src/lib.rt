//! The objects of a world: their names, their programs and their serials.
#![tactic(auto)]

pub mod fault;
pub mod objects;
