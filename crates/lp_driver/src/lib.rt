//! The loop of the driver: the start, and a turn for each event, on the live state.
//!
//! A turn asks for calls, one after another; each is carried out with the full budget, and the turn is told how it ended. What
//! comes of it is what the written meaning says.
#![tactic(auto)]

mod asking;
mod carrying;
mod commanding;
pub mod driver;
mod events;
mod knowing;
pub mod starting;
mod ticking;
mod tidying;
mod turning;

pub use lp_vm::fault::VmFault;
