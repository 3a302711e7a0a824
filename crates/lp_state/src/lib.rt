//! The state of a game between its turns: it begins with files, each event has its turn, and after a turn that was not carried out nothing
//! more is done.
#![tactic(auto)]

pub mod fault;
pub mod state;
