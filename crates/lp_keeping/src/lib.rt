//! Versions of programs that nothing needs any more go.
#![tactic(auto)]

pub mod dropping;
mod marks;
mod settling;
