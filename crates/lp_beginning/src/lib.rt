//! An object is made and begins: its initialisers run, those of inherited programs first, and then `create` is applied. A job
//! tells what it asks, and is told how that ended.
#![tactic(auto)]

pub mod begin;
pub mod fault;
pub mod feed;
pub mod job;
pub mod laws;
pub mod looking;
pub mod next;
pub mod parts;
pub mod report;

pub use lp_reaching::{bring_program, program_of};
