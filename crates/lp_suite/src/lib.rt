//! The tests of a mudlib: which functions of its files they are, and which files have none since they are faulty.
#![tactic(auto)]

mod names;
pub mod suite;

pub use suite::{Entry, entries_of};
