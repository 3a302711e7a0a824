//! Why a script is none: the line, the text and the reason where a reader of scripts ends.
#![tactic(auto)]

mod commands;
mod counted;
mod item;
mod line;
mod number;
mod reason;
mod telling;

pub use commands::USAGE;
pub use telling::explain;
