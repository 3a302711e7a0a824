//! The text of saved values.
#![tactic(auto)]

mod cell_set;
pub mod fault;
mod given;
pub mod law;
mod read;
pub mod restore;
pub mod save;
mod spell;
mod walk;

pub use fault::{FaultKind, RestoreFault, SaveFault};
pub use restore::restore_text;
pub use save::save_text;
