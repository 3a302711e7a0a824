//! Loads of the files of a mudlib with their parents first, running nothing: what a check of it finds.
#![tactic(auto)]

pub mod known;
pub mod loads;
