//! What a question reaches on the live state, with all that it needs brought into memory; and what an entry counts.
//!
//! Where the device does not tell the truth the answer is want of memory, so that a state always stands for its world.
#![tactic(auto)]

pub mod applying;
pub mod finding;
pub mod initialising;
pub mod marking;
pub mod outside;
pub mod reached;

pub use lp_initialisers::bringing::bring_program;
pub use lp_initialisers::looking::{part_version, program_of};
pub use lp_initialisers::rows::initialiser_row;
