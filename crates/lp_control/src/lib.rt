//! The operator's connection of a server: its lines, and the answers to them.
#![tactic(auto)]

pub mod control;
pub mod laws;
pub mod order;

pub use control::Control;
pub use laws::answers_are_fronts;
pub use order::{Order, order_of};
