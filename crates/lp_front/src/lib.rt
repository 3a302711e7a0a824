//! What a file is before code is made of it: what it declares, its parents, what is wrong with it, and its tables.
#![tactic(auto)]

pub mod copies;
pub mod names;
pub mod parents;
pub mod read;
pub mod settle;
