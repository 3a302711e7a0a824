//! Leave to use files: which texts are paths, and what the answer of the master says of a path.
#![tactic(auto)]

pub mod answer;
pub mod path;
