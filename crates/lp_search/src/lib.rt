//! The first place of a list of code points in another, in time of both lengths and without memory.
#![tactic(auto)]

pub mod two_way;
