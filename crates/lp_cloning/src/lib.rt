//! `clone_object`, as a job: the blueprint is loaded where it does not live; then an object of its version is made, and begins.
#![tactic(auto)]

pub mod begin;
mod clone;
pub mod fault;
pub mod feed;
pub mod job;
pub mod laws;
mod naming;
pub mod next;
