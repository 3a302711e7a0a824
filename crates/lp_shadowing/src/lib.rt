//! The efun `shadow` begins: the programs of both objects come into memory, and then the master is asked.
#![tactic(auto)]

mod barring;
mod programs;
pub mod shadowing;
