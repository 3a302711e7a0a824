//! Words of a script: which bytes are a path, a name or a number.
#![tactic(auto)]

pub mod path;
