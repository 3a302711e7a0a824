//! What a served run stands on, opened: its folder, its connections, and where its record or its log goes.
#![tactic(auto)]

mod opening;
mod target;
mod telling;

pub use opening::{OpenFault, Opened, Places, open};
pub use target::Target;
pub use telling::{tell_ended, tell_fault, tell_listening};
