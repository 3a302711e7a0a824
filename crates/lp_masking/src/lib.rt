//! Whether functions that may not be masked stand in the way of a shadow, by the tables of two programs.
#![tactic(auto)]

pub mod masking;
