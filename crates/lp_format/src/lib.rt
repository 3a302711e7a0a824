//! `sprintf`: texts made of a form and its arguments.
#![tactic(auto)]

pub mod fault;
mod form;
pub mod names;
mod out;
mod spell;
pub mod sprintf;
mod write;
