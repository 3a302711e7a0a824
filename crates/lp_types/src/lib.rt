//! The types of a unit: each fault of them, in the order of the tokens.
#![tactic(auto)]

pub mod check;
pub(crate) mod declaring;
pub mod fault;
pub(crate) mod found;
pub(crate) mod labels;
pub(crate) mod looping;
pub(crate) mod names;
pub(crate) mod simple;
pub(crate) mod spans;
pub(crate) mod stmt;
pub(crate) mod unit;
