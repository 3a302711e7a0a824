//! The efuns that call no LPC, on the live state: those that compute, and those that look at the world or
//! change it.
#![tactic(auto)]

pub mod answer;
pub mod arguments;
pub mod caller;
mod carrying;
mod changes;
mod commands;
mod computed;
mod connections;
mod enabling;
pub mod known;
mod looks;
pub mod names;
pub mod objects;
mod places;
pub mod plain;
pub mod subjects;
mod timing;
