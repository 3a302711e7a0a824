//! Arrays and mappings of LPC.
#![tactic(auto)]

pub mod cells;
pub mod content;
pub mod fault;
pub mod pairs;
pub mod slots;
