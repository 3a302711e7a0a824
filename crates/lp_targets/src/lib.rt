//! Which function a call reaches on the live state, and what is brought into memory for it.
//!
//! A name is found by the map of a program's tables, and what an internal call reaches is kept with the version, so that no
//! call goes over a table. Whatever comes into memory, the state stands for the same world.
#![tactic(auto)]

pub mod applies;
pub mod bringing;
mod callees;
mod chains;
pub mod functions;
pub mod internal;
pub mod outside;
pub mod parents;
mod rows;
mod search;
pub mod wants;
